//! The survey for C and Rust programs: functions with plain data, under the plain measure and graded by assay.
//!
//! The caller keeps everything: the tables, and the counts that a survey remembers. Nothing of it is trusted.
//! Tables, places and answers come as plain parameters and numbers, since that is what C can pass.
#![tactic(auto)]

pub mod add;
pub mod answer;
pub mod counts;
pub mod create;
pub mod locate;
pub mod reading;
pub mod reporting;
pub mod state;
