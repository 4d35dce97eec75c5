//! Linear algebra over any field: vectors, spans, closed lists of rows, echelons and kernels.
#![tactic(auto)]
