//! HEH as equations, and what is shown of them: `specs/Heh.antt` is the mode, `specs/Laws.antt` the undoing theorem.
//!
//! The struct and its calls are the crate `heh`. They stand above this one, since the kind of a mode holds these proofs.

#![tactic(auto)]

ghost use Rattle.heh_theory.specs.Laws.{Undoing};

/// Deciphering and enciphering undo each other and keep sectors, for every cipher, key, size and tweak.
pub fn deciphering_undoes_enciphering()
    ensures undoing { Undoing }
{}
