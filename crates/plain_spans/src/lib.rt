//! The plain run of a span of rows and of a kernel, and what they mean.
#![tactic(auto)]

ghost use Rattle.std.specs.Prelude.{ℕ};
ghost use Rattle.fpl_numbers.specs.declared.number.Kind.{Kind};
ghost use Rattle.plain_spans.specs.Means.{SpanMeans, KernelMeans, SpanFits, KernelFits};

/// The closed rows of a list of rows span what these span; the rows of a kernel are closed, and span exactly the solutions.
/// Over a prime every operation fits.
pub fn spans_and_kernels()
    ensures span { (k : Kind) → SpanMeans k }
    ensures kernel { (k : Kind) → KernelMeans k }
    ensures span_fits { (p : ℕ) → SpanFits p }
    ensures kernel_fits { (p : ℕ) → KernelFits p }
{}
