//! The hole that adding a site makes: which faces form its shell, and the records that fill it.
//!
//! All of it is told from the used records and one flag for each, set where the record is dropped.
ghost use Rattle.std.specs.Prelude.{◌≡◌, ◌+◌, ◌*◌, ◌<◌, ◌≤◌, length};
ghost use Rattle.mesh.specs.Added.{rank};
ghost use Rattle.survey.specs.Cavity.{Ready, bare};
ghost use Rattle.survey.specs.Stay.{PointsBelow};

pub(crate) mod edges;
pub(crate) mod number;
pub(crate) mod plan;
pub(crate) mod records;
pub(crate) mod shell;
pub(crate) mod shell_face;
pub(crate) mod stay;
pub(crate) mod write;

use mesh::record::{NONE, TetRecord};

/// The used records, as the table `'t` has them, and in the scratch space `'s` of an add a flag for each that is
/// set where the record is dropped.
#[derive(Clone, Copy)]
pub(crate) struct Cavity<'t, 's> {
    pub(crate) used: &'t [TetRecord],
    pub(crate) dropped: &'s [bool],
    ghost ready: { Ready used.now dropped.now },
    ghost low: { PointsBelow 1024 used.now },
}

impl Cavity<'_, '_> {
    /// Whether face `slot` of used record `k` is a shell face: the record is dropped, and its
    /// neighbour there is none or is kept.
    // Slots are plain numbers below 4 all over: a type of their own would have to be opened at each of the arrays of
    // four that they index.
    pub(crate) fn is_exposed(&self, k: usize, slot: usize) -> bool
        requires { (k < length self.now.used.now) × (slot < 4) }
        ensures { result ≡ bare self.now.used.now self.now.dropped.now (4 * k + slot) }
    {
        let across = self.used[k].neighbours[slot];
        self.dropped[k] && (across == NONE || !self.dropped[across as usize])
    }

    /// How many of the faces of used record `k` before face `slot` are shell faces.
    #[tactic(auto, using(crate::proofs::Ranges::rank_ahead))]
    pub(crate) fn exposed_before(&self, k: usize, slot: usize) -> usize
        requires { (k < length self.now.used.now) × (slot ≤ 4) }
        ensures few { result ≤ slot }
        ensures counted { rank (bare self.now.used.now self.now.dropped.now) (4 * k) + result ≡ rank (bare self.now.used.now self.now.dropped.now) (4 * k + slot) }
    {
        (0..slot).filter(|i| self.is_exposed(k, *i)).count()
    }
}
