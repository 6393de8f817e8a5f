//! Survey files, well formed and not: each fault at its word, with its layer and the last label.
use crate::files::{END, MEASURED, SITE, file};
use grading::assay::{Assay, Reading};
use std::alloc::{AllocError, Global};
use std::process::Abort;
use std::test::Fail;
use survey::site::Place;
use words::contents::read_contents;
use words::fault::{Fault, Layer, Problem};
use words::refusal::Refusal;
use words::token::Token;

const PENALTY: u32 = 0x7000_05dc;

const BELOW: u32 = 0x5000_00c8;

const MISSING: u32 = 0x6000_0000;

const LABEL: u32 = 0x8000_0000;

/// What becomes of a file: its refusal line, or how many tokens it has.
fn outcome(heap: Global, bytes: &[u8]) -> Result<String, AllocError> {
    let contents = read_contents(heap, bytes, &Assay)?;
    match contents.refusal {
        Some(refusal) => refusal.line(heap),
        None => {
            let tokens = contents.tokens.len();
            format!(in heap; "{tokens} tokens\n")
        }
    }
}

fn check_words(rt: &impl Abort, heap: Global, words: &[u32], expected: &str) -> Result<(), Fail> {
    let bytes = file(heap, words)?;
    let found = outcome(heap, bytes.as_slice())?;
    assert_eq!(rt; found.as_str(), expected);
    Ok(())
}

#[test]
fn wrong_lengths_are_20(rt: HostRuntime) -> Result<(), Fail> {
    let heap = rt.alloc();
    let line = "refused 20 word 0 layer words label -\n";
    assert_eq!(rt; outcome(heap, &[])?.as_str(), line);
    assert_eq!(rt; outcome(heap, &[0xc0, 0])?.as_str(), line);
    assert_eq!(rt; outcome(heap, &[0xc0, 0, 0, 0, 0])?.as_str(), line);
    check_words(&rt, heap, &[END], "1 tokens\n")
}

#[test]
fn a_rule_that_no_file_breaks_has_a_line_too(rt: HostRuntime) -> Result<(), Fail> {
    let problem = Problem::Other {
        number: 14,
        layer: Layer::Survey,
    };
    let refusal = Refusal {
        fault: Fault { word: 7, problem },
        label: Some("BH A1"),
    };
    let line = "refused 14 word 7 layer survey label BH A1\n";
    assert_eq!(rt; refusal.line(rt.alloc())?.as_str(), line);
    Ok(())
}

#[test]
fn the_longest_file_is_32768_bytes(rt: HostRuntime) -> Result<(), Fail> {
    let heap = rt.alloc();
    let mut words = [LABEL | 8, 0x6e6f_7274, 0x6820_3120].to_vec(heap)?;
    for _ in 0..4094 {
        words.push(SITE)?;
        words.push(MISSING)?;
    }
    words.push(END | 4094)?;
    check_words(&rt, heap, words.as_slice(), "4096 tokens\n")?;
    words.push(END | 4094)?;
    check_words(
        &rt,
        heap,
        words.as_slice(),
        "refused 20 word 0 layer words label -\n",
    )
}

#[test]
fn the_order_of_words_is_21(rt: HostRuntime) -> Result<(), Fail> {
    let heap = rt.alloc();
    check_words(
        &rt,
        heap,
        &[MEASURED, END],
        "refused 21 word 0 layer words label -\n",
    )?;
    check_words(
        &rt,
        heap,
        &[PENALTY, END],
        "refused 21 word 0 layer words label -\n",
    )?;
    check_words(
        &rt,
        heap,
        &[SITE, SITE],
        "refused 21 word 1 layer words label -\n",
    )?;
    check_words(
        &rt,
        heap,
        &[SITE, END | 1],
        "refused 21 word 1 layer words label -\n",
    )?;
    check_words(
        &rt,
        heap,
        &[SITE, PENALTY, PENALTY, MEASURED, END | 1],
        "refused 21 word 2 layer words label -\n",
    )?;
    check_words(
        &rt,
        heap,
        &[SITE, MEASURED, PENALTY, END | 1],
        "refused 21 word 2 layer words label -\n",
    )?;
    check_words(
        &rt,
        heap,
        &[SITE, LABEL | 1, 0x4100_0000, MEASURED, END | 1],
        "refused 21 word 1 layer words label -\n",
    )?;
    check_words(
        &rt,
        heap,
        &[SITE, PENALTY, LABEL],
        "refused 21 word 2 layer words label -\n",
    )
}

#[test]
fn a_file_that_stops_early_is_21_after_its_last_word(rt: HostRuntime) -> Result<(), Fail> {
    let heap = rt.alloc();
    check_words(
        &rt,
        heap,
        &[SITE],
        "refused 21 word 1 layer words label -\n",
    )?;
    check_words(
        &rt,
        heap,
        &[SITE, PENALTY],
        "refused 21 word 2 layer words label -\n",
    )?;
    check_words(
        &rt,
        heap,
        &[LABEL | 2, 0x4232_0000, SITE, BELOW],
        "refused 21 word 4 layer words label B2\n",
    )
}

#[test]
fn labels_have_1_to_12_printable_bytes(rt: HostRuntime) -> Result<(), Fail> {
    let heap = rt.alloc();
    check_words(&rt, heap, &[LABEL | 1, 0x7e00_0000, END], "2 tokens\n")?;
    check_words(
        &rt,
        heap,
        &[LABEL | 12, 0x2041_4243, 0x4445_4647, 0x4849_4a7e, END],
        "2 tokens\n",
    )?;
    check_words(
        &rt,
        heap,
        &[LABEL, END],
        "refused 22 word 0 layer words label -\n",
    )?;
    check_words(
        &rt,
        heap,
        &[
            LABEL | 13,
            0x4141_4141,
            0x4141_4141,
            0x4141_4141,
            0x4100_0000,
            END,
        ],
        "refused 22 word 0 layer words label -\n",
    )?;
    check_words(
        &rt,
        heap,
        &[LABEL | 1, 0x1f00_0000, END],
        "refused 22 word 0 layer words label -\n",
    )?;
    check_words(
        &rt,
        heap,
        &[LABEL | 1, 0x7f00_0000, END],
        "refused 22 word 0 layer words label -\n",
    )?;
    check_words(
        &rt,
        heap,
        &[LABEL | 2, 0x4141_0100, END],
        "refused 22 word 0 layer words label -\n",
    )?;
    check_words(
        &rt,
        heap,
        &[LABEL | 1, 0x4100_0000, LABEL | 5, 0x4142_4344],
        "refused 22 word 2 layer words label A\n",
    )?;
    check_words(
        &rt,
        heap,
        &[LABEL | 0x2000_0001, 0x4100_0000, END],
        "refused 22 word 0 layer words label -\n",
    )
}

#[test]
fn an_unknown_reading_word_is_23(rt: HostRuntime) -> Result<(), Fail> {
    let heap = rt.alloc();
    check_words(
        &rt,
        heap,
        &[SITE, 0x6000_0001, END | 1],
        "refused 23 word 1 layer grading label -\n",
    )?;
    check_words(
        &rt,
        heap,
        &[LABEL | 1, 0x4100_0000, SITE, PENALTY, 0x6000_0001],
        "refused 23 word 4 layer grading label A\n",
    )
}

#[test]
fn the_end_is_last_and_counts_the_sites(rt: HostRuntime) -> Result<(), Fail> {
    let heap = rt.alloc();
    check_words(&rt, heap, &[SITE, MISSING, END | 1], "2 tokens\n")?;
    check_words(
        &rt,
        heap,
        &[SITE, MISSING, END],
        "refused 24 word 2 layer words label -\n",
    )?;
    check_words(
        &rt,
        heap,
        &[SITE, MISSING, END | 2],
        "refused 24 word 2 layer words label -\n",
    )?;
    check_words(
        &rt,
        heap,
        &[SITE, MISSING, END | 0x2000_0001],
        "refused 24 word 2 layer words label -\n",
    )?;
    check_words(
        &rt,
        heap,
        &[END, SITE],
        "refused 24 word 0 layer words label -\n",
    )
}

#[test]
fn tokens_say_what_the_file_says(rt: HostRuntime) -> Result<(), Fail> {
    let heap = rt.alloc();
    let bytes = file(
        heap,
        &[LABEL | 2, 0x4232_0000, SITE, PENALTY, BELOW, END | 1],
    )?;
    let contents = read_contents(heap, bytes.as_slice(), &Assay)?;
    assert!(rt; contents.tokens.len() == 3);
    match contents.tokens[1] {
        Token::Site(entry) => {
            assert_eq!(rt; entry.word, 2);
            assert_eq!(rt;
                entry.site.place,
                Place {
                    x: 100,
                    y: 100,
                    z: 100
                }
            );
            assert_eq!(rt; entry.site.penalty, 1500);
            assert_eq!(rt; entry.reading, Reading::Below(50.0));
            Ok(())
        }
        _ => Err(Fail::new("the second token is no site")),
    }
}
