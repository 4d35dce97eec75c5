use fpl_model::{Expr, Parity};
use sqlite_items::Items;

/// Numbers of lines, which count from 1.
pub type Lines = Items<u64>;

/// Why the two sides of a line are equal, with the lines that are cited, or the places in a sum, or parities. Lines, members of a sum and relations count
/// from 1. What each rule says of the two sides is `IsInstance` of the crate math_proofs.
#[derive(Drop)]
pub enum Rule {
    /// The sides are one tree.
    Same,
    /// The cited line, turned round.
    Turn(u64),
    /// The two cited lines, one after the other.
    Chain(u64, u64),
    /// Two sums of equally many members, with a cited line for each member.
    Parts(Lines),
    /// Two multiples with one number, with a cited line for what is multiplied.
    Factor(u64),
    /// Two brackets, with a cited line for each member.
    Members(u64, u64),
    /// A sum, and the same with this member and the next exchanged.
    Exchange(u32),
    /// A sum, and the same with this member, a sum, replaced by its members.
    Flat(u32),
    /// A sum, and the same without this member, which is 0.
    Drop(u32),
    /// The empty sum, and 0.
    Empty,
    /// A sum of one member, and that member.
    Single,
    /// `c*(a*e)`, and `(c*a)*e`.
    Multiply,
    /// `1*e`, and `e`.
    One,
    /// `0*e`, and 0.
    Nought,
    /// A sum in which this member is `c*e` and the next `a*e`, and the same with `(c+a)*e` for both.
    Collect(u32),
    /// A multiple of a sum, and the sum of the multiples.
    Spread,
    /// A bracket whose left member is a sum, and the sum of the brackets.
    LeftSum,
    /// The same for the right member.
    RightSum,
    /// A bracket whose left member is `c*e`, and `c` times the bracket with `e`.
    LeftTimes,
    /// The same for the right member.
    RightTimes,
    /// `[a,b]`, and `-(-1)^(st)*[b,a]`, where `a` has the first parity and `b` the second.
    Swap(Parity, Parity),
    /// `[a,[b,c]]`, and the sum of `[[a,b],c]` and `(-1)^(st)*[b,[a,c]]`, where `a` has the first parity, `b` the second and `c` some.
    Jacobi(Parity, Parity),
    /// The sides of this relation.
    Relation(u32),
    /// Modulo 3: `[a,[a,a]]`, and 0, where `a` has parity odd.
    Cube,
}

/// A line of a proof.
#[derive(Drop)]
pub struct Line {
    pub left: Expr,
    pub right: Expr,
    pub why: Rule,
}

/// A proof: lines, which cite earlier ones by number, from 1.
pub type Proof = Items<Line>;
