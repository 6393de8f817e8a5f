//! The reader of survey files: 32-bit words, most significant byte first, that say the sites of a
//! survey, the labels between them and the end.
#![tactic(auto)]

pub mod contents;
pub mod fault;
pub mod feed;
pub mod label;
pub mod reader;
pub mod refusal;
pub mod token;
pub mod word;
