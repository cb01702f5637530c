//! The one table of cases worked by hand, from a product of two bytes to a key change on a volume.

#![tactic(auto)]

ghost use Rattle.worked.specs.Worked.{Worked};

/// Each case of the table holds of the definitions that the contracts cite.
pub fn worked_cases()
    ensures worked { Worked }
{}
