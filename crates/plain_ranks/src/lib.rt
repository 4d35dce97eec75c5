//! How much of each weight of a table matrices see: the plain run, and what it means.
#![tactic(auto)]

ghost use Rattle.plain_ranks.specs.Ranks.{RankMeans, RankFits};

/// The rank of a weight is the dimension of the span of the matrices of all expressions of that weight; over a prime it is always there.
pub fn ranks()
    ensures means { RankMeans }
    ensures fits { RankFits }
{}
