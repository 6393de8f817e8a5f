//! The mesh of a survey: which tetrahedra adding a site drops and makes, what the rules allow a survey's calls to answer,
//! and that the mesh stays sound; the records of the tetrahedron table, and what an add makes of them.
//!
//! Most functions here do nothing at run time: the contract is the theorem that the crate promises.
#![tactic(auto)]

pub mod adding;
pub mod cases;
pub mod past;
pub mod record;
pub mod shell;
