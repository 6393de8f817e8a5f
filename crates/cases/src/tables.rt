//! Small tables, and a survey over them.
use geometry::plain::Plain;
use grading::assay::{Assay, Reading};
use mesh::record::{TetRecord, big_record};
use std::process::Abort;
use std::test::Fail;
use survey::open::Open;
use survey::record::PointRecord;
use survey::refusal::Refusal;
use survey::site::{Place, Site};
use survey::statement::Statement;
use survey::tables::{Tables, TablesRef};

/// The tables of a small survey, as arrays.
#[derive(Clone, Copy)]
pub(crate) struct SmallTables {
    pub(crate) points: [PointRecord; 16],
    pub(crate) readings: [Reading; 16],
    pub(crate) tets: [TetRecord; 128],
}

impl SmallTables {
    /// The tables, for a call that may write them.
    pub(crate) fn lend(&mut self) -> Tables<'_, Reading> {
        let SmallTables {
            points,
            readings,
            tets,
        } = self;
        Tables {
            points,
            readings,
            tets,
        }
    }

    /// The tables, for a call that only reads them.
    pub(crate) fn show(&self) -> TablesRef<'_, Reading> {
        TablesRef {
            points: &self.points,
            readings: &self.readings,
            tets: &self.tets,
        }
    }
}

pub(crate) fn blank() -> SmallTables {
    SmallTables {
        points: [PointRecord::default(); 16],
        readings: [Reading::Missing; 16],
        tets: [big_record(); 128],
    }
}

pub(crate) fn created(t: &mut SmallTables) -> Result<Open<Plain, Assay>, Fail> {
    Open::create(Plain, Assay, &mut t.lend()).map_err(|_| Fail::new("not created"))
}

/// A site without a penalty.
pub(crate) fn site(x: u16, y: u16, z: u16) -> Site {
    Site {
        place: Place { x, y, z },
        penalty: 0,
    }
}

/// Adds a site with the reading 0.
pub(crate) fn added(
    survey: &mut Open<Plain, Assay>,
    t: &mut SmallTables,
    x: u16,
    y: u16,
    z: u16,
) -> Result<u16, Refusal> {
    survey.add(&mut t.lend(), site(x, y, z), Reading::Measured(0.0))
}

/// A survey with the site (100,100,100), whose records have the points 4 1 2 3, 0 4 2 3, 0 1 4 3 and
/// 0 1 2 4.
pub(crate) fn one_site(rt: &impl Abort, t: &mut SmallTables) -> Result<Open<Plain, Assay>, Fail> {
    let mut survey = created(t)?;
    assert_eq!(rt; added(&mut survey, t, 100, 100, 100), Ok(4));
    Ok(survey)
}

/// The statement of the survey, sealed.
pub(crate) fn stated(survey: Open<Plain, Assay>, t: &SmallTables) -> Result<Statement, Fail> {
    let mut statement = Statement::new();
    survey
        .seal()
        .state(&t.show(), &mut statement)
        .map_err(|_| Fail::new("not stated"))?;
    Ok(statement)
}
