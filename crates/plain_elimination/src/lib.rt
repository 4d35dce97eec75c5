//! The plain run of an elimination, and what it means.
#![tactic(auto)]

ghost use Rattle.fpl_numbers.specs.declared.number.Kind.{Kind};
ghost use Rattle.plain_elimination.specs.Steps.{InsertConcludes, CloseConcludes};

/// The rows of an elimination are the conclusions of the steps that it records: inserting keeps
/// this, and closing gives it for the closed rows.
pub fn conclusions()
    ensures insert { (k : Kind) → InsertConcludes k }
    ensures close { (k : Kind) → CloseConcludes k }
{}
