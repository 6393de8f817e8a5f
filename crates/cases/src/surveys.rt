//! Surveys that are created, added to, sealed and stated.
use crate::tables::{SmallTables, added, blank, created, stated};
use geometry::plain::Plain;
use grading::assay::Assay;
use mesh::record::TetRecord;
use std::process::Abort;
use std::test::Fail;
use survey::open::Open;
use survey::refusal::Refusal;

/// Adds (100,100,100) and its neighbours 10 along each axis, which are points 4 to 7.
fn four_sites(rt: &impl Abort, survey: &mut Open<Plain, Assay>, t: &mut SmallTables) {
    assert_eq!(rt; added(survey, t, 100, 100, 100), Ok(4));
    assert_eq!(rt; added(survey, t, 110, 100, 100), Ok(5));
    assert_eq!(rt; added(survey, t, 100, 110, 100), Ok(6));
    assert_eq!(rt; added(survey, t, 100, 100, 110), Ok(7));
}

/// Adds the eight sites with coordinates 100 or 110, which are points 4 to 11.
pub(crate) fn eight_sites(rt: &impl Abort, survey: &mut Open<Plain, Assay>, t: &mut SmallTables) {
    four_sites(rt, survey, t);
    assert_eq!(rt; added(survey, t, 110, 110, 100), Ok(8));
    assert_eq!(rt; added(survey, t, 110, 100, 110), Ok(9));
    assert_eq!(rt; added(survey, t, 100, 110, 110), Ok(10));
    assert_eq!(rt; added(survey, t, 110, 110, 110), Ok(11));
}

#[test]
fn four_sites_have_one_tetrahedron(rt: HostRuntime) -> Result<(), Fail> {
    let mut t = blank();
    let mut survey = created(&mut t)?;
    four_sites(&rt, &mut survey, &mut t);
    let statement = stated(survey, &t)?;
    assert_eq!(rt; statement.lines[0].tetrahedra, 1);
    assert_eq!(rt; statement.lines[0].units, 1_000);
    assert_eq!(rt; statement.margin, 16_777_215_000);
    Ok(())
}

#[test]
fn a_cube_of_eight_sites_has_its_six_thousand_units(rt: HostRuntime) -> Result<(), Fail> {
    let mut t = blank();
    let mut survey = created(&mut t)?;
    four_sites(&rt, &mut survey, &mut t);
    // Each of the others by itself, as the test was first written.
    assert_eq!(rt; added(&mut survey, &mut t, 110, 110, 100), Ok(8));
    assert_eq!(rt; added(&mut survey, &mut t, 110, 100, 110), Ok(9));
    assert_eq!(rt; added(&mut survey, &mut t, 100, 110, 110), Ok(10));
    assert_eq!(rt; added(&mut survey, &mut t, 110, 110, 110), Ok(11));
    let statement = stated(survey, &t)?;
    assert_eq!(rt; statement.lines[0].units, 6_000);
    assert_eq!(rt; statement.margin, 16_777_210_000);
    Ok(())
}

#[test]
fn a_site_on_the_sphere_keeps_the_tetrahedron(rt: HostRuntime) -> Result<(), Fail> {
    let mut t = blank();
    let mut survey = created(&mut t)?;
    four_sites(&rt, &mut survey, &mut t);
    assert_eq!(rt; added(&mut survey, &mut t, 110, 110, 100), Ok(8));
    assert_eq!(rt; with_first_sites(&t.tets), 1);
    Ok(())
}

#[test]
fn a_site_within_the_sphere_drops_the_tetrahedron(rt: HostRuntime) -> Result<(), Fail> {
    let mut t = blank();
    let mut survey = created(&mut t)?;
    four_sites(&rt, &mut survey, &mut t);
    assert_eq!(rt; added(&mut survey, &mut t, 109, 109, 100), Ok(8));
    assert_eq!(rt; with_first_sites(&t.tets), 0);
    Ok(())
}

/// How many records have the points 4, 5, 6 and 7.
fn with_first_sites(tets: &[TetRecord]) -> usize {
    tets.iter()
        .filter(|tet| tet.points.iter().all(|point| (4..8).contains(point)))
        .count()
}

#[test]
fn each_refusal_has_its_number(rt: HostRuntime) -> Result<(), Fail> {
    let mut t = blank();
    let mut survey = created(&mut t)?;
    assert_eq!(rt;
        number_from(added(&mut survey, &mut t, 0, 100, 100)),
        Err(4)
    );
    assert_eq!(rt;
        number_from(added(&mut survey, &mut t, 100, 801, 100)),
        Err(4)
    );
    assert_eq!(rt;
        number_from(added(&mut survey, &mut t, 100, 100, 100)),
        Ok(4)
    );
    assert_eq!(rt;
        number_from(added(&mut survey, &mut t, 100, 100, 100)),
        Err(8)
    );
    Ok(())
}

/// The answer with the number by which the rules name a refusal.
fn number_from(answer: Result<u16, Refusal>) -> Result<u16, u8> {
    answer.map_err(|refusal| refusal.number())
}

#[test]
fn the_rules_number_the_refusals(rt: HostRuntime) {
    let refusals = [
        Refusal::PointTable,
        Refusal::TetTable,
        Refusal::NotWhole,
        Refusal::OffGrid,
        Refusal::Penalty,
        Refusal::Reading,
        Refusal::PointsFull,
        Refusal::PlaceTaken,
        Refusal::NoConflict,
        Refusal::TetsFull,
        Refusal::ShellOpen,
        Refusal::Vanishes(7),
        Refusal::Unowned,
    ];
    for (refusal, number) in refusals.iter().zip(1u8..) {
        assert_eq!(rt; refusal.number(), number);
    }
}

#[test]
fn broken_tables_are_refused(rt: HostRuntime) -> Result<(), Fail> {
    let mut t = blank();
    let mut survey = created(&mut t)?;
    four_sites(&rt, &mut survey, &mut t);
    t.tets[0].mark = 1;
    assert_eq!(rt;
        added(&mut survey, &mut t, 110, 110, 100),
        Err(Refusal::NotWhole)
    );
    assert_eq!(rt; t.tets[0].mark, 1);
    t.tets[0].mark = 0;
    t.points[4].x = 801;
    assert_eq!(rt;
        added(&mut survey, &mut t, 110, 110, 100),
        Err(Refusal::NotWhole)
    );
    t.points[4].x = 100;
    assert_eq!(rt; added(&mut survey, &mut t, 110, 110, 100), Ok(8));
    Ok(())
}
