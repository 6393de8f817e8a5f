//! A small survey under the weighted measure, graded by soil: its sites, one place located, and its statement.
#![tactic(auto)]

use anyhow::anyhow;
use geometry::weighted::Weighted;
use grading::soil::{Reading, Soil};
use mesh::record::big_record;
use survey::open::Open;
use survey::promise::every_past_is_upheld;
use survey::record::PointRecord;
use survey::refusal::Refusal;
use survey::site::{Place, Site};
use survey::statement::Statement;
use survey::tables::Tables;

/// What the survey answered: a number for each site or its refusal, the record that owns a place, and the statement.
#[derive(Drop)]
struct Answers {
    sites: [Result<u16, Refusal>; 7],
    owner: u16,
    statement: Statement,
}

/// A site at a place, with its penalty.
fn site(x: u16, y: u16, z: u16, penalty: u32) -> Site {
    Site {
        place: Place { x, y, z },
        penalty,
    }
}

/// The sites that are brought, each with its soil. The second has a place that is taken, and the last would leave the
/// one before it without a tetrahedron.
// A function and not a constant, since a constant cannot call `site`.
fn soil_sites() -> [(Site, Reading); 7] {
    [
        (site(300, 300, 300, 0), Reading::Clay),
        (site(300, 300, 300, 5), Reading::Peat),
        (site(310, 300, 300, 0), Reading::Clay),
        (site(300, 310, 300, 10), Reading::Sand),
        (site(300, 300, 310, 20), Reading::Sand),
        (site(100, 100, 100, 50_000), Reading::Fill),
        (site(101, 100, 100, 0), Reading::Fill),
    ]
}

/// Brings the sites to a new survey, locates a place in it and states it.
fn survey_soil(tables: &mut Tables<'_, Reading>) -> Result<Answers, Refusal> {
    let mut survey = Open::create(Weighted, Soil, tables)?;
    let sites = soil_sites().map(|(site, soil)| survey.add(tables, site, soil));
    let survey = survey.seal();
    let place = Place {
        x: 302,
        y: 302,
        z: 302,
    };
    let owner = survey.locate(&tables.shared(), place)?;
    let mut statement = Statement::new();
    survey.state(&tables.shared(), &mut statement)?;
    Ok(Answers {
        sites,
        owner,
        statement,
    })
}

fn print_answers(rt: &HostRuntime, answers: &Answers) -> anyhow::Result<()> {
    for site in &answers.sites {
        match site {
            Ok(number) => println!(rt; "site {number}")?,
            Err(refusal) => println!(rt; "refused {}", refusal.number())?,
        }
    }
    println!(rt; "owner {}", answers.owner)?;
    for line in &answers.statement.lines {
        println!(rt; "{} {}", line.tetrahedra, line.units)?;
    }
    println!(rt; "margin {}", answers.statement.margin)?;
    Ok(())
}

fn main(rt: HostRuntime) -> anyhow::Result<()> {
    every_past_is_upheld::<Weighted, Soil>();
    let mut points = [PointRecord::default(); 16];
    let mut readings = [Reading::Sand; 16];
    let mut tets = [big_record(); 64];
    let mut tables = Tables {
        points: &mut points,
        readings: &mut readings,
        tets: &mut tets,
    };
    let answers = survey_soil(&mut tables).map_err(|_| anyhow!("the survey is refused"))?;
    print_answers(&rt, &answers)
}
