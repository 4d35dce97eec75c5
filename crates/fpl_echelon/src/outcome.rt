/// What became of a row that was put in.
#[derive(Clone, Copy, Debug, PartialEq, Eq)]
pub enum Outcome {
    /// It was kept. The position is the lead of what was left of it.
    Pivot(u32),
    /// It was in the span of the rows kept before.
    Dependent,
}
