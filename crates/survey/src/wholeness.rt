//! Whether the caller's tables are whole.
ghost use Rattle.std.specs.List.{list_all, range_with_len};
ghost use Rattle.std.specs.Prelude.{◌≡◌, ◌<◌, length, Decides};
ghost use Rattle.mesh.specs.Records.{linked, proper, tet_of, under, whole_at};
ghost use Rattle.survey.specs.Views.{count, spots_in};
ghost use Rattle.survey.specs.Wholeness.{WholeTables, as_created, is_site, whole_point, whole_points, whole_tables, whole_tet, whole_tets};

use crate::corner::{CORNERS, is_corner};
use crate::counts::Counts;
use crate::face::Face;
use crate::place::{is_light, is_on_grid};
use crate::points::Points;
use crate::record::PointRecord;
use crate::tables::TablesRef;
use crate::tetrahedron::Tetrahedron;
use mesh::record::{NONE, TetRecord};

/// Whether the tables have the lengths that they had at creation.
fn are_as_created<R>(counts: &Counts, tables: &TablesRef<'_, R>) -> bool
    ensures { result ≡ as_created counts.now (length tables.now.points.now) (length tables.now.readings.now) (length tables.now.tets.now) }
{
    tables.points.len() == counts.point_records
        && tables.readings.len() == counts.point_records
        && tables.tets.len() == counts.tet_records
}

/// Whether a record has the place and the penalty of a site.
fn is_site(point: &PointRecord) -> bool
    ensures { result ≡ is_site point.now }
{
    is_on_grid(point.place()) && is_light(point.penalty)
}

/// Whether record `k` of the point table has mark 0 and is corner `k` or a site.
fn is_whole_point(k: usize, point: &PointRecord) -> bool
    ensures { result ≡ whole_point k point.now }
{
    if k < CORNERS.len() {
        is_corner(k, point)
    } else {
        point.mark == 0 && is_site(point)
    }
}

/// Whether each of the used point records is whole.
fn are_whole_points(points: &[PointRecord]) -> bool
    ensures { result ≡ whole_points points.now }
{
    points
        .iter()
        .enumerate()
        .all(|(k, point)| is_whole_point(k, point))
}

/// Whether a record has four different points.
fn is_proper(tet: &TetRecord) -> bool
    ensures { result ≡ proper (tet_of tet.now) }
{
    // Each pair once: a loop over the pairs would be no plainer.
    let [a, b, c, d] = tet.points;
    a != b && a != c && a != d && b != c && b != d && c != d
}

/// Whether a record's points have numbers below `n`.
fn is_under(tet: &TetRecord, n: usize) -> bool
    ensures { result ≡ under n (tet_of tet.now) }
{
    tet.points.iter().all(|point| (*point as usize) < n)
}

// From here on a record comes by its number with the table, since its neighbours name it by that number; that the
// number is one of the table's is asked as for any index.

/// Whether neighbour `i` of record `k` is as it should be: none across an outer face, and across any
/// other a different record that has the face and names `k` opposite its remaining point.
fn is_linked(tets: &[TetRecord], k: usize, i: usize) -> bool
    requires { (k < length tets.now) × (i < 4) }
    ensures { result ≡ linked tets.now k i }
{
    let face = Face::of(&tets[k], i);
    let across = tets[k].neighbours[i];
    if face.is_outer() {
        return across == NONE;
    }
    let m = across as usize;
    if across == NONE || m >= tets.len() || m == k {
        return false;
    }
    face.belongs_to(&tets[m]) && tets[m].neighbours[face.opposite(&tets[m])] as usize == k
}

/// Whether each of the four neighbours of record `k` is as it should be.
fn is_linked_all_round(tets: &[TetRecord], k: usize) -> bool
    requires { k < length tets.now }
    ensures { result ≡ list_all (linked tets.now k) (range_with_len 0 4) }
{
    (0..4).all(|i| is_linked(tets, k, i))
}

/// Whether record `k` has mark 0, four different points with numbers below `n`, and the right neighbours.
fn is_whole_record(n: usize, tets: &[TetRecord], k: usize) -> bool
    requires { k < length tets.now }
    ensures { result ≡ whole_at n tets.now k }
{
    let tet = &tets[k];
    tet.mark == 0 && is_proper(tet) && is_under(tet, n) && is_linked_all_round(tets, k)
}

/// Whether record `k` is whole, with positive Side.
fn is_whole_tet(points: &Points, tets: &[TetRecord], k: usize) -> bool
    requires { k < length tets.now }
    ensures { result ≡ whole_tet (count points.now) (spots_in points.now) tets.now k }
{
    if !is_whole_record(points.len(), tets, k) {
        return false;
    }
    let tet = Tetrahedron {
        points: *points,
        tet: &tets[k],
    };
    tet.side() > 0
}

/// Whether each of the used tetrahedron records is whole.
fn are_whole_tets(points: &Points, tets: &[TetRecord]) -> bool
    ensures { result ≡ whole_tets (count points.now) (spots_in points.now) tets.now }
{
    // By number, since that is what a record's neighbours name.
    (0..tets.len()).all(|k| is_whole_tet(points, tets, k))
}

/// Whether the tables are whole: as long as at creation, with the corners and sites in the used point
/// records and tetrahedra of positive Side in the used others, each of which names its neighbours.
///
/// Any tables can be asked about. Of the readings only the number is looked at.
pub(crate) fn is_whole<R>(counts: &Counts, tables: &TablesRef<'_, R>) -> bool
    ensures is { result ≡ whole_tables counts.now tables.now.points.now (length tables.now.readings.now) tables.now.tets.now }
    ensures tells { Decides result (WholeTables counts.now tables.now.points.now (length tables.now.readings.now) tables.now.tets.now) }
{
    if !are_as_created(counts, tables) {
        return false;
    }
    let points = &tables.points[..counts.points];
    let tets = &tables.tets[..counts.tets];
    are_whole_points(points) && are_whole_tets(&Points { records: points }, tets)
}
