//! Subspaces of the vectors over a field: closed forms as dimensions, quotients, kernels, spans under bilinear functions, and least spaces closed under
//! functions.
//!
//! Each function does nothing: what it ensures is a law.
#![tactic(auto)]

ghost use Rattle.fpl_numbers.specs.declared.number.Kind.{Kind};
ghost use Rattle.fpl_numbers.specs.Kinds.{field_of};
ghost use Rattle.math_subspaces.specs.Laws.{CountBounded, CountGrows, EqualCounts, FreeRowsForm, ImagesSpan, KernelHasForm, LeastBySpan, LeastIsLeast, QuotientRepresented};

/// Closed forms as dimensions: how many rows they have, and that a space within another with as many rows is that other.
pub fn dimensions()
    ensures bounded { (k : Kind) → CountBounded (field_of k) }
    ensures grows { (k : Kind) → CountGrows (field_of k) }
    ensures equal { (k : Kind) → EqualCounts (field_of k) }
{}

/// The rows that represent a quotient.
pub fn quotients()
    ensures { (k : Kind) → QuotientRepresented (field_of k) }
{}

/// Closed forms of kernels.
pub fn kernel_forms()
    ensures some { (k : Kind) → KernelHasForm (field_of k) }
    ensures free { (k : Kind) → FreeRowsForm (field_of k) }
{}

/// What bilinear functions give on spans.
pub fn bilinear_images()
    ensures { (k : Kind) → ImagesSpan (field_of k) }
{}

/// The least space that holds given vectors and is closed under linear functions, and rows that span it.
pub fn least_spaces()
    ensures least { (k : Kind) → LeastIsLeast (field_of k) }
    ensures span { (k : Kind) → LeastBySpan (field_of k) }
{}
