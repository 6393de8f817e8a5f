//! Places that are located in sealed surveys.
use crate::surveys::eight_sites;
use crate::tables::{SmallTables, blank, created, one_site};
use geometry::plain::Plain;
use grading::assay::Assay;
use mesh::record::{NONE, TetRecord};
use std::test::Fail;
use survey::refusal::Refusal;
use survey::sealed::Sealed;
use survey::site::Place;

/// The record in which a place is found.
fn found(
    survey: &Sealed<Plain, Assay>,
    t: &SmallTables,
    x: u16,
    y: u16,
    z: u16,
) -> Result<u16, Refusal> {
    survey.locate(&t.show(), Place { x, y, z })
}

#[test]
fn a_place_is_found_in_one_of_those_that_touch_it(rt: HostRuntime) -> Result<(), Fail> {
    let mut t = blank();
    let survey = one_site(&rt, &mut t)?.seal();
    assert_eq!(rt; found(&survey, &t, 50, 50, 50), Ok(3));
    assert_eq!(rt; found(&survey, &t, 50, 50, 60), Ok(2));
    assert_eq!(rt; found(&survey, &t, 100, 100, 100), Ok(0));
    assert_eq!(rt; found(&survey, &t, 1, 1, 1), Ok(3));
    assert_eq!(rt; found(&survey, &t, 800, 800, 800), Ok(0));
    Ok(())
}

#[test]
fn a_place_off_the_grid_is_refused(rt: HostRuntime) -> Result<(), Fail> {
    let mut t = blank();
    let survey = one_site(&rt, &mut t)?.seal();
    assert_eq!(rt; found(&survey, &t, 0, 50, 50), Err(Refusal::OffGrid));
    assert_eq!(rt; found(&survey, &t, 50, 0, 50), Err(Refusal::OffGrid));
    assert_eq!(rt; found(&survey, &t, 50, 50, 0), Err(Refusal::OffGrid));
    assert_eq!(rt; found(&survey, &t, 801, 50, 50), Err(Refusal::OffGrid));
    assert_eq!(rt; found(&survey, &t, 50, 801, 50), Err(Refusal::OffGrid));
    assert_eq!(rt; found(&survey, &t, 50, 50, 801), Err(Refusal::OffGrid));
    Ok(())
}

#[test]
fn broken_tables_are_refused_first(rt: HostRuntime) -> Result<(), Fail> {
    let mut t = blank();
    let survey = one_site(&rt, &mut t)?.seal();
    t.points[4].mark = 1;
    assert_eq!(rt; found(&survey, &t, 50, 50, 50), Err(Refusal::NotWhole));
    assert_eq!(rt; found(&survey, &t, 0, 50, 50), Err(Refusal::NotWhole));
    t.points[4].mark = 0;
    assert_eq!(rt; found(&survey, &t, 50, 50, 50), Ok(3));
    Ok(())
}

/// The record of the three corners on the ground and the site, with one neighbour at its inner faces.
fn on_the_ground(neighbour: u16) -> TetRecord {
    TetRecord {
        points: [0, 1, 2, 4],
        neighbours: [neighbour, neighbour, neighbour, NONE],
        mark: 0,
    }
}

#[test]
fn whole_tables_may_leave_a_place_without_owner(rt: HostRuntime) -> Result<(), Fail> {
    let mut t = blank();
    let survey = one_site(&rt, &mut t)?.seal();
    // One tetrahedron four times over: each record has a twin across its inner faces.
    t.tets[0] = on_the_ground(1);
    t.tets[1] = on_the_ground(0);
    t.tets[2] = on_the_ground(3);
    t.tets[3] = on_the_ground(2);
    assert_eq!(rt; found(&survey, &t, 50, 50, 50), Ok(0));
    assert_eq!(rt; found(&survey, &t, 50, 50, 60), Err(Refusal::Unowned));
    Ok(())
}

#[test]
fn places_on_the_faces_of_a_cube_have_an_owner(rt: HostRuntime) -> Result<(), Fail> {
    let mut t = blank();
    let mut open = created(&mut t)?;
    eight_sites(&rt, &mut open, &mut t);
    let survey = open.seal();
    // Touched by four tetrahedra, by five and by four; inside of one; twice on the face of two.
    assert_eq!(rt; found(&survey, &t, 105, 105, 105), Ok(22));
    assert_eq!(rt; found(&survey, &t, 100, 105, 105), Ok(20));
    assert_eq!(rt; found(&survey, &t, 105, 105, 110), Ok(29));
    assert_eq!(rt; found(&survey, &t, 108, 102, 105), Ok(14));
    assert_eq!(rt; found(&survey, &t, 103, 103, 104), Ok(8));
    assert_eq!(rt; found(&survey, &t, 105, 102, 100), Ok(3));
    Ok(())
}

#[test]
fn the_sites_of_a_cube_have_an_owner(rt: HostRuntime) -> Result<(), Fail> {
    let mut t = blank();
    let mut open = created(&mut t)?;
    eight_sites(&rt, &mut open, &mut t);
    let survey = open.seal();
    assert_eq!(rt; found(&survey, &t, 100, 100, 100), Ok(3));
    assert_eq!(rt; found(&survey, &t, 110, 100, 100), Ok(13));
    assert_eq!(rt; found(&survey, &t, 100, 110, 100), Ok(19));
    assert_eq!(rt; found(&survey, &t, 100, 100, 110), Ok(21));
    assert_eq!(rt; found(&survey, &t, 110, 110, 100), Ok(24));
    assert_eq!(rt; found(&survey, &t, 110, 100, 110), Ok(25));
    assert_eq!(rt; found(&survey, &t, 100, 110, 110), Ok(27));
    assert_eq!(rt; found(&survey, &t, 110, 110, 110), Ok(23));
    Ok(())
}
