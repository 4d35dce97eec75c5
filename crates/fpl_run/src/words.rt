//! What the words of a command line can ask for.

/// What is computed and written.
#[derive(Clone, Copy, Debug, PartialEq, Eq)]
pub enum View {
    /// The commutator table.
    Table,
    /// The dimensions of each weight, by parity.
    Series,
    /// The table as a GAP record.
    Gap,
    /// The steps that each weight's closed rows were derived by.
    Log,
    /// The presentation with the steps and closed rows of each weight, to go on from.
    Checkpoint,
    /// The centre.
    Centre,
    /// The lower central series.
    Lcs,
    /// The ideal that the presentation's ideal elements generate.
    Ideal,
    /// Representatives of the first and second cohomology with trivial coefficients.
    Cohomology,
    /// Whether the two sides of each query are equal.
    Equal,
    /// How many sections of a checkpoint pass its tests.
    Check,
    /// Whether matrices of the generators respect the presentation, and how much of each weight they see.
    Map,
    /// A summary of a built-in presentation.
    Sample,
    /// The enveloping superalgebra, in ordered words.
    Envelope,
    /// For each query a proof from the axioms that its two sides are equal.
    Why,
}

/// A view through a weight limit.
#[derive(Clone, Copy, Debug, PartialEq, Eq)]
pub struct Command {
    pub view: View,
    /// The greatest weight: from 1 to 1000, for `sample` to 64.
    pub limit: u32,
    /// The most symbols of all weights: from 1 to 2000000.
    pub entries: u64,
}
