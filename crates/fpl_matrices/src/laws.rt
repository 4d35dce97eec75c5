//! What matrices and relations mean, as laws: each function does nothing.
ghost use Rattle.fpl_matrices.specs.Laws.{MatricesAreMeant, RespectedExactly, DerivedHolds};

/// The matrix of an expression is that of the algebra. Where no relation is broken, and only there, the matrices respect the presentation; and then what
/// is derivably equal has one matrix, with no bound on weight.
pub fn matrices_respect()
    ensures matrices { MatricesAreMeant }
    ensures exactly { RespectedExactly }
    ensures derived { DerivedHolds }
{}
