//! The classes, ranges and words of the two gradings.
use grading::assay::Assay;
use grading::grading::Grading;
use grading::soil::Soil;
use grading::{assay, soil};

fn class_of_largest(amount: f64) -> u8 {
    let none = assay::Reading::Missing;
    Assay.class(&none, &assay::Reading::Measured(amount), &none, &none)
}

#[test]
fn each_limit_is_reached_at_its_own_amount(rt: HostRuntime) {
    assert_eq!(rt; class_of_largest(0.0), 0);
    assert_eq!(rt; class_of_largest(9.75), 0);
    assert_eq!(rt; class_of_largest(10.0), 1);
    assert_eq!(rt; class_of_largest(50.0), 2);
    assert_eq!(rt; class_of_largest(99.75), 2);
    assert_eq!(rt; class_of_largest(100.0), 3);
    assert_eq!(rt; class_of_largest(500.0), 4);
    assert_eq!(rt; class_of_largest(1_000.0), 5);
    assert_eq!(rt; class_of_largest(5_000.0), 6);
    assert_eq!(rt; class_of_largest(9_999.75), 6);
    assert_eq!(rt; class_of_largest(10_000.0), 7);
}

#[test]
fn below_missing_and_not_a_number_count_as_zero(rt: HostRuntime) {
    let below = assay::Reading::Below(50.0);
    let missing = assay::Reading::Missing;
    let strange = assay::Reading::Measured(f64::NAN);
    let found = assay::Reading::Measured(12.0);
    assert_eq!(rt; Assay.class(&below, &missing, &strange, &below), 0);
    assert_eq!(rt; Assay.class(&strange, &below, &found, &missing), 1);
    assert_eq!(rt; class_of_largest(f64::INFINITY), 7);
}

#[test]
fn amounts_from_zero_to_a_million_are_admitted(rt: HostRuntime) {
    assert!(rt; Assay.admits(&assay::Reading::Measured(0.0)));
    assert!(rt; Assay.admits(&assay::Reading::Measured(-0.0)));
    assert!(rt; Assay.admits(&assay::Reading::Below(1_000_000.0)));
    assert!(rt; Assay.admits(&assay::Reading::Missing));
    assert!(rt; !Assay.admits(&assay::Reading::Measured(1_000_000.25)));
    assert!(rt; !Assay.admits(&assay::Reading::Below(-0.25)));
    assert!(rt; !Assay.admits(&assay::Reading::Measured(f64::INFINITY)));
    assert!(rt; !Assay.admits(&assay::Reading::Measured(f64::NAN)));
}

#[test]
fn assay_words_give_quarters(rt: HostRuntime) {
    assert_eq!(rt; Assay.decode(0, 39), Some(assay::Reading::Measured(9.75)));
    assert_eq!(rt; Assay.decode(1, 200), Some(assay::Reading::Below(50.0)));
    assert_eq!(rt; Assay.decode(2, 0), Some(assay::Reading::Missing));
    assert_eq!(rt; Assay.decode(2, 1), None);
    assert_eq!(rt; Assay.decode(3, 0), None);
}

#[test]
fn soil_is_what_most_points_have(rt: HostRuntime) {
    let sand = soil::Reading::Sand;
    let clay = soil::Reading::Clay;
    let peat = soil::Reading::Peat;
    let fill = soil::Reading::Fill;
    assert_eq!(rt; Soil.class(&clay, &clay, &sand, &sand), 0);
    assert_eq!(rt; Soil.class(&fill, &peat, &fill, &peat), 2);
    assert_eq!(rt; Soil.class(&fill, &clay, &fill, &fill), 3);
    assert_eq!(rt; Soil.class(&fill, &peat, &clay, &sand), 0);
}

#[test]
fn soil_words_are_codes(rt: HostRuntime) {
    assert_eq!(rt; Soil.decode(0, 1), Some(soil::Reading::Clay));
    assert_eq!(rt; Soil.decode(0, 3), Some(soil::Reading::Fill));
    assert_eq!(rt; Soil.decode(0, 4), None);
    assert_eq!(rt; Soil.decode(1, 0), None);
}
