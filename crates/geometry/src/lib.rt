//! Points of a survey, the signed volume Side, the measures that lift points, and Depth, which says
//! whether a point conflicts with a tetrahedron.
#![tactic(auto)]

pub mod circumsphere;
pub mod conflict;
pub mod corner;
pub mod depth;
pub mod lifted;
pub mod measure;
mod offset;
pub mod plain;
pub mod point;
pub mod side;
pub mod sign;
mod square;
pub mod stretched;
pub mod weighted;
