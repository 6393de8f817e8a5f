//! Which tetrahedron owns a place.
ghost use Rattle.std.specs.List.{find};
ghost use Rattle.std.specs.Ordering.{int_cmp, is_ne};
ghost use Rattle.std.specs.Prelude.{◌≡◌, ◌<◌, map, pos};
ghost use Rattle.geometry.specs.Limits.{Near};
ghost use Rattle.geometry.specs.Points.{spot};
ghost use Rattle.mesh.specs.Owners.{side_with};
ghost use Rattle.mesh.specs.Records.{slot_at};
ghost use Rattle.mesh.specs.Surveys.{OnGrid};
ghost use Rattle.survey.specs.Owners.{first_owned, owned, steps as steps_of, within};
ghost use Rattle.survey.specs.Sites.{place_spot};
ghost use Rattle.survey.specs.Views.{spots_in};
ghost use Rattle.survey.specs.Wholes.{shape, space};

use crate::site::Place;
use crate::tetrahedron::Tetrahedron;
use crate::whole::Whole;
use geometry::point::Point;
use geometry::side::side;
use std::cmp::Ordering;

/// The point without a penalty at a place within the limits.
fn point_at(place: Place) -> Point
    requires { Near place.x place.y place.z }
    ensures { spot result ≡ place_spot place }
{
    Point::new(place.x, place.y, place.z, 0).unwrap()
}

/// A place on the grid, and the places one step further along x, along y and along z.
pub(crate) fn steps_from(place: Place) -> [Point; 4]
    requires { OnGrid (place_spot place) }
    ensures { map spot result ≡ steps_of (place_spot place) }
{
    let Place { x, y, z } = place;
    let here = point_at(place);
    let along_x = point_at(Place { x: x + 1, ..place });
    let along_y = point_at(Place { y: y + 1, ..place });
    let along_z = point_at(Place { z: z + 1, ..place });
    [here, along_x, along_y, along_z]
}

/// Side of a tetrahedron with its point at `slot` replaced by `g`.
// A slot is a plain number below 4: a type of its own would have to be opened where it indexes the corners.
fn side_with(tet: &Tetrahedron, slot: usize, g: &Point) -> i64
    requires { slot < 4 }
    ensures { result ≡ side_with (space tet.now) (shape tet.now) (slot_at slot) (spot g.now) }
{
    let mut corners = tet.corners();
    corners[slot] = *g;
    let [a, b, c, d] = corners;
    side(&a, &b, &c, &d)
}

/// How Side compares to zero at the first step that does not make it zero. Further steps are not
/// looked at.
fn first_order(tet: &Tetrahedron, slot: usize, steps: &[Point]) -> Option<Ordering>
    requires { slot < 4 }
    ensures { result ≡ find is_ne (map (λ g. int_cmp (side_with (space tet.now) (shape tet.now) (slot_at slot) (spot g)) (pos 0)) steps.now) }
{
    steps
        .iter()
        .map(|g| side_with(tet, slot, g).cmp(&0))
        .find(|order| order.is_ne())
}

/// Whether the place with which the steps begin counts as inside of the face that lacks the point at
/// `slot`: put for that point, the first step that does not make Side zero makes it positive. A further
/// step is looked at only where Side is zero so far, so that Side there is the change.
fn is_within(tet: &Tetrahedron, slot: usize, steps: &[Point]) -> bool
    requires { slot < 4 }
    ensures { result ≡ within (space tet.now) (map spot steps.now) (shape tet.now) (slot_at slot) }
{
    first_order(tet, slot, steps) == Some(Ordering::Greater)
}

/// Whether a tetrahedron owns the place with which the steps begin.
#[tactic(auto, unfolding(crate::specs::Owners::owned))]
fn owns(tet: &Tetrahedron, steps: &[Point]) -> bool
    ensures { result ≡ owned (space tet.now) (map spot steps.now) (shape tet.now) }
{
    (0..4).all(|slot| is_within(tet, slot, steps))
}

/// The number of the first used tetrahedron that owns the place with which the steps begin.
pub(crate) fn first_owner(whole: &Whole, steps: &[Point]) -> Option<u16>
    ensures { result ≡ first_owned (spots_in whole.now.points) (map spot steps.now) whole.now.tets.now }
{
    // By number, which is the answer.
    (0..whole.tets.len() as u16).find(|k| owns(&whole.tet(*k as usize), steps))
}
