//! The undoing theorem of both wide modes, in one contract.

#![tactic(auto)]

ghost use Rattle.wide.specs.Undoing.{Undoing};

/// For every block ring and cipher, every key, size, tweak and sector, deciphering undoes enciphering and enciphering undoes
/// deciphering, in TET and in HEH.
pub fn deciphering_undoes_enciphering()
    ensures undoing { Undoing }
{}
