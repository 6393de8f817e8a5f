//! Points, Side, Depth and the three measures.
use geometry::conflict::conflicts;
use geometry::corner::corners;
use geometry::depth::depth;
use geometry::lifted::LiftedPoint;
use geometry::measure::Measure;
use geometry::plain::Plain;
use geometry::point::Point;
use geometry::side::side;
use geometry::sign::Sign;
use geometry::stretched::Stretched;
use geometry::weighted::Weighted;
use std::test::Fail;

fn point(x: u16, y: u16, z: u16, penalty: u32) -> Result<Point, Fail> {
    Point::new(x, y, z, penalty).ok_or_else(|| Fail::new("no such point"))
}

fn lifted(p: Point, lift: u32) -> Result<LiftedPoint, Fail> {
    LiftedPoint::new(p, lift).ok_or_else(|| Fail::new("too high"))
}

/// A point without a penalty.
fn at(x: u16, y: u16, z: u16) -> Result<Point, Fail> {
    point(x, y, z, 0)
}

/// The plain verdict on a point and the tetrahedron of (100,100,100) and its neighbours 10 along each axis.
fn plain_verdict(x: u16, y: u16, z: u16) -> Result<Sign, Fail> {
    let a = at(100, 100, 100)?;
    let b = at(110, 100, 100)?;
    let c = at(100, 110, 100)?;
    let d = at(100, 100, 110)?;
    Ok(Plain.verdict(&a, &b, &c, &d, &at(x, y, z)?))
}

#[test]
fn points_keep_their_limits(rt: HostRuntime) {
    assert!(rt; Point::new(2560, 0, 0, 1_000_000).is_some());
    assert!(rt; Point::new(2559, 1, 1, 0).is_none());
    assert!(rt; Point::new(65_535, 65_535, 65_535, 0).is_none());
    assert!(rt; Point::new(1, 2, 3, 1_000_001).is_none());
}

#[test]
fn the_corners_have_the_whole_side(rt: HostRuntime) {
    let [a, b, c, d] = corners();
    assert_eq!(rt; side(&a, &b, &c, &d), 16_777_216_000);
    assert_eq!(rt; side(&b, &a, &c, &d), -16_777_216_000);
}

#[test]
fn the_sphere_itself_is_no_conflict(rt: HostRuntime) -> Result<(), Fail> {
    assert_eq!(rt; plain_verdict(110, 110, 100)?, Sign::Zero);
    assert_eq!(rt; plain_verdict(109, 110, 100)?, Sign::Positive);
    assert_eq!(rt; plain_verdict(111, 110, 100)?, Sign::Negative);
    Ok(())
}

#[test]
fn extreme_lifts_stay_exact(rt: HostRuntime) -> Result<(), Fail> {
    let [a, b, c, d] = corners();
    let high = lifted(a, 20_000_000)?;
    let low = lifted(a, 0)?;
    let b = lifted(b, 20_000_000)?;
    let c = lifted(c, 20_000_000)?;
    let d = lifted(d, 20_000_000)?;
    assert_eq!(rt; depth(&high, &b, &c, &d, &low), 335_544_320_000_000_000);
    assert_eq!(rt; depth(&low, &b, &c, &d, &high), -335_544_320_000_000_000);
    assert!(rt; LiftedPoint::new(a, 20_000_001).is_none());
    Ok(())
}

#[test]
fn stretches_are_1_to_3(rt: HostRuntime) -> Result<(), Fail> {
    assert_eq!(rt; Stretched::new(1, 2, 3)?.lift(&at(1, 2, 3)?), 36);
    for (alpha, beta, gamma) in [(0, 2, 3), (1, 4, 3), (1, 2, 0)] {
        let made = Stretched::new(alpha, beta, gamma);
        assert_eq!(rt; made.map_err(|refused| refused.number()), Err(14));
    }
    Ok(())
}

#[test]
fn only_the_weighted_measure_counts_penalties(rt: HostRuntime) -> Result<(), Fail> {
    let [a, b, c, d] = corners();
    let light = point(100, 100, 100, 737_999)?;
    let heavy = point(100, 100, 100, 738_000)?;
    assert_eq!(rt; Weighted.lift(&light), 767_999);
    assert_eq!(rt; Plain.lift(&light), 30_000);
    assert!(rt; conflicts(&Weighted, &a, &b, &c, &d, &light));
    assert!(rt; !conflicts(&Weighted, &a, &b, &c, &d, &heavy));
    Ok(())
}
