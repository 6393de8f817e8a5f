//! Tables that are not whole are refused and left alone. Whole ones are answered by the rules, sound
//! or not.
use crate::tables::{SmallTables, added, blank, one_site, site};
use geometry::plain::Plain;
use grading::assay::{Assay, Reading};
use mesh::record::{NONE, TetRecord, big_record};
use std::process::Abort;
use std::test::Fail;
use survey::open::Open;
use survey::record::PointRecord;
use survey::refusal::Refusal;
use survey::statement::Statement;
use survey::tables::Tables;

/// A way in which one record is not whole.
// Names and no closures: two tests go through the same list, and each way is read by its name.
#[derive(Clone, Copy)]
enum Flaw {
    PointMark,
    TetMark,
    CornerMoved,
    CornerPenalty,
    CoordinateZero,
    CoordinateTooLarge,
    PenaltyTooLarge,
    PointOutOfRange,
    PointTwice,
    NegativeSide,
    NeighbourMissing,
    NeighbourOutside,
    NeighbourOutOfRange,
    NeighbourItself,
    NeighbourWithoutFace,
}

const FLAWS: [Flaw; 15] = [
    Flaw::PointMark,
    Flaw::TetMark,
    Flaw::CornerMoved,
    Flaw::CornerPenalty,
    Flaw::CoordinateZero,
    Flaw::CoordinateTooLarge,
    Flaw::PenaltyTooLarge,
    Flaw::PointOutOfRange,
    Flaw::PointTwice,
    Flaw::NegativeSide,
    Flaw::NeighbourMissing,
    Flaw::NeighbourOutside,
    Flaw::NeighbourOutOfRange,
    Flaw::NeighbourItself,
    Flaw::NeighbourWithoutFace,
];

/// Breaks the tables of a survey with one site.
fn spoil(t: &mut SmallTables, flaw: Flaw) {
    match flaw {
        Flaw::PointMark => t.points[4].mark = 1,
        Flaw::TetMark => t.tets[3].mark = 1,
        Flaw::CornerMoved => t.points[1].x = 2559,
        Flaw::CornerPenalty => t.points[0].penalty = 1,
        Flaw::CoordinateZero => t.points[4].y = 0,
        Flaw::CoordinateTooLarge => t.points[4].z = 801,
        Flaw::PenaltyTooLarge => t.points[4].penalty = 1_000_001,
        Flaw::PointOutOfRange => t.tets[0].points[0] = 5,
        Flaw::PointTwice => t.tets[1].points[2] = 3,
        Flaw::NegativeSide => {
            t.tets[2].points = [1, 0, 4, 3];
            t.tets[2].neighbours = [1, 0, NONE, 3];
        }
        Flaw::NeighbourMissing => t.tets[3].neighbours[0] = NONE,
        Flaw::NeighbourOutside => t.tets[0].neighbours[0] = 1,
        Flaw::NeighbourOutOfRange => t.tets[0].neighbours[1] = 4,
        Flaw::NeighbourItself => t.tets[0].neighbours[1] = 0,
        Flaw::NeighbourWithoutFace => t.tets[0].neighbours[1] = 2,
    }
}

fn check_same(rt: &impl Abort, t: &SmallTables, before: &SmallTables) {
    assert_eq!(rt; t.points, before.points);
    assert_eq!(rt; t.readings, before.readings);
    assert!(rt; t.tets == before.tets);
}

#[test]
fn each_flaw_is_refused_by_adding(rt: HostRuntime) -> Result<(), Fail> {
    for flaw in FLAWS {
        let mut t = blank();
        let mut survey = one_site(&rt, &mut t)?;
        spoil(&mut t, flaw);
        let before = t;
        assert_eq!(rt;
            added(&mut survey, &mut t, 100, 120, 120),
            Err(Refusal::NotWhole)
        );
        check_same(&rt, &t, &before);
    }
    Ok(())
}

#[test]
fn each_flaw_is_refused_by_stating(rt: HostRuntime) -> Result<(), Fail> {
    for flaw in FLAWS {
        let mut t = blank();
        let sealed = one_site(&rt, &mut t)?.seal();
        spoil(&mut t, flaw);
        let mut statement = Statement::new();
        statement.margin = 7;
        assert_eq!(rt;
            sealed.state(&t.show(), &mut statement),
            Err(Refusal::NotWhole)
        );
        assert_eq!(rt; statement.margin, 7);
        assert_eq!(rt; statement.lines[0].tetrahedra, 0);
    }
    Ok(())
}

/// Adds a site where only the first records of the tables are lent.
fn added_in(
    survey: &mut Open<Plain, Assay>,
    points: &mut [PointRecord],
    readings: &mut [Reading],
    tets: &mut [TetRecord],
    lent: [usize; 3],
) -> Result<u16, Refusal> {
    let points_lent = lent[0].min(points.len());
    let readings_lent = lent[1].min(readings.len());
    let tets_lent = lent[2].min(tets.len());
    let mut tables = Tables {
        points: &mut points[..points_lent],
        readings: &mut readings[..readings_lent],
        tets: &mut tets[..tets_lent],
    };
    survey.add(&mut tables, site(100, 120, 120), Reading::Missing)
}

#[test]
fn other_lengths_than_at_creation_are_refused(rt: HostRuntime) -> Result<(), Fail> {
    let mut points = [PointRecord::default(); 7];
    let mut readings = [Reading::Missing; 7];
    let mut tets = [big_record(); 6];
    let mut first = Tables {
        points: &mut points[..6],
        readings: &mut readings[..6],
        tets: &mut tets[..5],
    };
    let mut survey = Open::create(Plain, Assay, &mut first).map_err(|_| Fail::new("not created"))?;
    for lent in [
        [5, 6, 5],
        [7, 6, 5],
        [6, 5, 5],
        [6, 7, 5],
        [6, 6, 4],
        [6, 6, 6],
    ] {
        assert_eq!(rt;
            added_in(&mut survey, &mut points, &mut readings, &mut tets, lent),
            Err(Refusal::NotWhole)
        );
    }
    assert_eq!(rt; points[4], PointRecord::default());
    assert_eq!(rt; tets[0], big_record());
    Ok(())
}

/// A record with mark 0.
fn record(points: [u16; 4], neighbours: [u16; 4]) -> TetRecord {
    TetRecord {
        points,
        neighbours,
        mark: 0,
    }
}

/// Puts whole records that are not sound into the tables of a survey with one site: twins with the
/// points 4 1 2 3 that name each other, and twins with 0 4 2 3.
fn put_twins(t: &mut SmallTables) {
    t.tets[0] = record([4, 1, 2, 3], [NONE, 1, 1, 1]);
    t.tets[1] = record([4, 1, 2, 3], [NONE, 0, 0, 0]);
    t.tets[2] = record([0, 4, 2, 3], [3, NONE, 3, 3]);
    t.tets[3] = record([0, 4, 2, 3], [2, NONE, 2, 2]);
}

#[test]
fn twins_are_answered_by_the_rules(rt: HostRuntime) -> Result<(), Fail> {
    let mut t = blank();
    let mut survey = one_site(&rt, &mut t)?;
    put_twins(&mut t);
    let before = t;
    assert_eq!(rt;
        added(&mut survey, &mut t, 100, 90, 90),
        Err(Refusal::NoConflict),
        "no record conflicts"
    );
    assert_eq!(rt;
        added(&mut survey, &mut t, 100, 120, 120),
        Err(Refusal::ShellOpen),
        "edge 2 3 is in four faces"
    );
    check_same(&rt, &t, &before);
    Ok(())
}

#[test]
fn a_neighbour_that_does_not_name_back_is_refused(rt: HostRuntime) -> Result<(), Fail> {
    let mut t = blank();
    let mut survey = one_site(&rt, &mut t)?;
    put_twins(&mut t);
    t.tets[0].neighbours[1] = 2;
    let before = t;
    assert_eq!(rt;
        added(&mut survey, &mut t, 100, 90, 90),
        Err(Refusal::NotWhole)
    );
    check_same(&rt, &t, &before);
    Ok(())
}
