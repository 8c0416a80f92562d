//! The worked numbers of keys and groupings, together in one theorem, computed from the definitions that the contracts cite.
#![tactic(auto)]

ghost use Rattle.worked.specs.Worked.{WorkedNumbers};

/// Stands for the theorem that its contract names.
pub fn worked_numbers_hold()
    ensures { WorkedNumbers }
{}
