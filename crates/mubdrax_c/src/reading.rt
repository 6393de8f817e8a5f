//! Readings as plain data.
ghost use Rattle.std.specs.Prelude.{◌≡◌};
ghost use Rattle.mubdrax_c.specs.Readings.{admitted_record, as_record, decoded_record, known_kind, record_class, stands_for};
ghost use Rattle.grading.specs.Largest.{front_swap, middle_swap, back_swap};
ghost use Rattle.std.proofs.Common.{rules};

use grading::assay::{Assay, Reading};
use grading::grading::Grading;

/// A reading as the caller's table holds it: kind 0 is measured, 1 below and 2 missing, where the amount is not
/// looked at. A survey admits no other kind, and counts one that stands in a table as missing.
///
/// C has no enum with values, so the numbers of the kinds are its interface.
#[repr(C)]
#[derive(Clone, Copy)]
pub struct ReadingRecord {
    pub kind: u32,
    pub amount: f64,
}

/// The kinds from 0 to this number are known.
const LAST_KIND: u32 = 2;

/// The record of a reading.
impl From<Reading> for ReadingRecord {
    ghost from_gives = { λ reading made. made ≡ as_record reading };

    fn from(reading: Reading) -> ReadingRecord {
        match reading {
            Reading::Measured(amount) => ReadingRecord { kind: 0, amount },
            Reading::Below(amount) => ReadingRecord { kind: 1, amount },
            Reading::Missing => ReadingRecord {
                kind: 2,
                amount: 0.0,
            },
        }
    }
}

/// The reading that a record stands for.
impl From<&ReadingRecord> for Reading {
    ghost from_gives = { λ kept reading. reading ≡ stands_for kept.now };

    fn from(kept: &ReadingRecord) -> Reading {
        match kept.kind {
            0 => Reading::Measured(kept.amount),
            1 => Reading::Below(kept.amount),
            _ => Reading::Missing,
        }
    }
}

impl ReadingRecord {
    fn is_known(&self) -> bool
        ensures { result ≡ known_kind self.now }
    {
        self.kind <= LAST_KIND
    }
}

/// The assay over such records.
#[derive(Clone, Copy)]
pub struct RecordAssay;

impl Grading for RecordAssay {
    type Reading = ReadingRecord;

    ghost admitted = { λ _ r. admitted_record r };

    ghost classed = { λ _ a b c d. record_class a b c d };

    ghost decoded = { λ _ tag value. decoded_record tag value };

    ghost eight = { Prim.search rules };

    ghost front = { λ g a b c d. front_swap (stands_for a) (stands_for b) (stands_for c) (stands_for d) };

    ghost middle = { λ g a b c d. middle_swap (stands_for a) (stands_for b) (stands_for c) (stands_for d) };

    ghost back = { λ g a b c d. back_swap (stands_for a) (stands_for b) (stands_for c) (stands_for d) };

    fn admits(&self, reading: &ReadingRecord) -> bool {
        reading.is_known() && Assay.admits(&Reading::from(reading))
    }

    fn class(
        &self,
        a: &ReadingRecord,
        b: &ReadingRecord,
        c: &ReadingRecord,
        d: &ReadingRecord,
    ) -> u8 {
        Assay.class(
            &Reading::from(a),
            &Reading::from(b),
            &Reading::from(c),
            &Reading::from(d),
        )
    }

    fn decode(&self, tag: u8, value: u32) -> Option<ReadingRecord> {
        Assay.decode(tag, value).map(ReadingRecord::from)
    }
}
