//! The definitions of the algebra: expressions, derivability, tables, source rows, built tables and the standard table; and what holds of expressions alone.
#![tactic(auto)]
