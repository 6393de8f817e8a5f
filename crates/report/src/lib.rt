//! What the program prints of a survey file: the statement, or why there is none.
#![tactic(auto)]

pub mod error;
pub mod report;
pub mod text;
