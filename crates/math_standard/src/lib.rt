//! Proofs on built and standard tables: the next table keeps the law and soundness, adds the standard basis, is a function of the closed rows, and
//! exists; built tables are standard, two standard tables agree, truncation, and closed rows that span exactly what is derivably 0.
#![tactic(auto)]
