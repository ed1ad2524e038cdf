// The contracts of the three source files, clause by clause, as theorems about the definitions of `model`.
// This crate has no function. docs/CONTRACTS.md has a row for each clause and names its theorem in proofs/.
#![tactic(auto)]
