use fpl_model::Parity;

/// The weight and parity of a generator.
#[derive(Clone, Copy, Debug, PartialEq, Eq)]
pub struct Shape {
    pub weight: u32,
    pub parity: Parity,
}
