//! A survey that can be added to.
use crate::counts::Counts;

/// An open survey: its counts, and the measure and the grading that it was created with. It is
/// moved, not copied: sealing ends it.
#[derive(Drop)]
pub struct Open<M, G> {
    pub(crate) counts: Counts,
    pub(crate) measure: M,
    pub(crate) grading: G,
}

mod add;
mod create;
mod lend;
mod resume;
mod seal;
