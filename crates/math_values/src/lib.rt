//! Proofs on the values of expressions in a table, and on a table and the next weight: the bracket is linear, values respect derivability where the
//! table obeys its law, ordered triples suffice for Jacobi; source rows, what they say, and what symbols mean by closed rows.
#![tactic(auto)]
