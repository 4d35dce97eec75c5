//! The plain run of supermatrices modulo a prime, and what it means.
#![tactic(auto)]

ghost use Rattle.plain_matrices.specs.Means.{BracketMeans, NumbersMean, MatricesAreOne};
ghost use Rattle.plain_matrices.specs.Relations.{RespectMeans, RespectedHolds};

/// The numbers of a bracket and of an expression are those of its matrix, and tell it.
pub fn numbers_of_matrices()
    ensures bracket { BracketMeans }
    ensures expression { NumbersMean }
    ensures one { MatricesAreOne }
{}

/// The relations hold for the numbers exactly where the matrices respect the presentation; then all that is derivable holds for them.
pub fn relations_respected()
    ensures means { RespectMeans }
    ensures holds { RespectedHolds }
{}
