//! A survey over the caller's tables: creating, adding, sealing, locating and stating.
//!
//! The tables are lent with each call and changed where they are; nothing here allocates.
#![tactic(auto)]

mod cavity;
mod conflict;
mod corner;
pub mod counts;
mod examine;
mod face;
mod hole;
pub mod open;
mod owner;
mod place;
mod points;
mod prepare;
pub mod promise;
mod question;
pub mod record;
pub mod refusal;
pub mod sealed;
mod search;
pub mod site;
pub mod statement;
pub mod tables;
mod tetrahedron;
mod whole;
mod wholeness;
