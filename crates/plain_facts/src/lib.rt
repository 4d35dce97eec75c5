//! What a fact over the basis of a table tells.
//!
//! Each function does nothing: what it ensures is a law.
#![tactic(auto)]

ghost use Rattle.plain_facts.specs.Values.{FactsAreValues, FormsAreValues};

/// A line of a proof whose right side is a sum of multiples of basis elements tells the value of its left side.
pub fn facts_are_values()
    ensures { FactsAreValues }
{}

/// Two such lines whose sums are in order have the same terms exactly where their left sides have the same value.
pub fn forms_are_values()
    ensures { FormsAreValues }
{}
