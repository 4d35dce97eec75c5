use fpl_model::Parity;

/// What a basis element may stand for: a generator, or the bracket of two basis elements.
/// All numbers count from 1.
#[derive(Clone, Copy, Debug, PartialEq, Eq, Hash)]
pub enum Symbol {
    Gen(u32),
    Pair(u32, u32),
}

/// A basis element.
#[derive(Clone, Copy, Debug, PartialEq, Eq)]
pub struct Basis {
    pub weight: u32,
    pub parity: Parity,
    pub symbol: Symbol,
}

/// The bracket of a pair of basis elements: 0, or the entry of a regular pair with a sign.
#[derive(Clone, Copy, Debug, PartialEq, Eq)]
pub enum PairSign {
    Zero,
    Plus(u32, u32),
    Minus(u32, u32),
}
