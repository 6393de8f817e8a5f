//! Gradings: what a reading is, which readings are admitted, and the price class of ground
//! between four of them. A survey is generic in its grading; two are delivered.
#![tactic(auto)]

pub mod assay;
mod counts;
pub mod grading;
pub mod soil;
