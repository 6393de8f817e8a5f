//! A survey that can be located in and stated.
use crate::counts::Counts;

/// A sealed survey: nothing can be added any more.
// The same fields as an open one, in a type of its own and not by a parameter: the two states share no call, and a
// program that adds to a sealed survey is refused with a plain message.
#[derive(Drop)]
pub struct Sealed<M, G> {
    pub(crate) counts: Counts,
    pub(crate) measure: M,
    pub(crate) grading: G,
}

mod locate;
mod state;
