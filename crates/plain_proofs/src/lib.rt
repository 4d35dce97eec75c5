//! The test of a proof on plain lines, and what it means.
#![tactic(auto)]

ghost use Rattle.fpl_numbers.specs.declared.number.Kind.{Kind};
ghost use Rattle.fpl_numbers.specs.Kinds.{field_of};
ghost use Rattle.plain_proofs.specs.Checks.{CheckedIsInstance};

/// The test of a line tells exactly the instances of its rule.
pub fn lines_are_checked()
    ensures { (k : Kind) → CheckedIsInstance (field_of k) }
{}
