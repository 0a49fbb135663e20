//! Theorems about the abstract server: worked rows, which test its definitions, and laws, which say what follows
//! from them. Nothing here runs: each function has an empty body, and its contract is a row or a law.
#![tactic(auto)]

pub mod laws;
pub mod rows;
