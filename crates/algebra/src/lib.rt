//! Laws of the whole numbers that the standard library lacks, and a solver for polynomial identities.
//!
//! Other crates import the lemmas of `proofs/`. Each function here does nothing at run time: its contract
//! is the theorem that the crate promises.
#![tactic(auto)]

pub mod integer;
pub mod ring;
pub mod sign;
pub mod size;
pub mod sum;
