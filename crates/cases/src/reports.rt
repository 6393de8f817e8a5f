//! What is printed of whole files: statements, and refusals of every layer.
use crate::files::{END, MEASURED, SITE, file};
use report::error::ReportError;
use report::report::report_on;
use std::alloc::Global;
use std::process::Abort;
use std::test::Fail;

/// A label word for three bytes, and the word that holds them.
const LABEL: [u32; 2] = [0x8000_0003, 0x4142_4300];

/// The file's statement has this text.
fn check_stated(rt: &impl Abort, heap: Global, words: &[u32], text: &str) -> Result<(), Fail> {
    let bytes = file(heap, words)?;
    let printed = report_on(heap, bytes.as_slice())?;
    assert_eq!(rt; printed.as_str(), text);
    Ok(())
}

/// The file is refused with this line.
fn check_refused(rt: &impl Abort, heap: Global, words: &[u32], line: &str) -> Result<(), Fail> {
    let bytes = file(heap, words)?;
    match report_on(heap, bytes.as_slice()) {
        Ok(_) => Err(Fail::new("the file is stated")),
        Err(ReportError::Refused(printed)) => {
            assert_eq!(rt; printed.as_str(), line);
            Ok(())
        }
        Err(error) => Err(error.into()),
    }
}

#[test]
fn four_sites_are_stated(rt: HostRuntime) -> Result<(), Fail> {
    check_stated(
        &rt,
        rt.alloc(),
        &[
            SITE,
            MEASURED,
            0x06e1_9064,
            0x4000_0027,
            0x0641_b864,
            0x5000_00c8,
            0x0641_906e,
            0x6000_0000,
            END | 4,
        ],
        "0 1 1000\n1 0 0\n2 0 0\n3 0 0\n4 0 0\n5 0 0\n6 0 0\n7 0 0\nmargin 16777215000\n",
    )
}

#[test]
fn a_file_without_sites_is_all_margin(rt: HostRuntime) -> Result<(), Fail> {
    check_stated(
        &rt,
        rt.alloc(),
        &[END],
        "0 0 0\n1 0 0\n2 0 0\n3 0 0\n4 0 0\n5 0 0\n6 0 0\n7 0 0\nmargin 16777216000\n",
    )
}

#[test]
fn a_refused_site_is_a_fault_at_its_word(rt: HostRuntime) -> Result<(), Fail> {
    let heap = rt.alloc();
    let [label, text] = LABEL;
    check_refused(
        &rt,
        heap,
        &[label, text, 0x0001_9064, MEASURED, END | 1],
        "refused 4 word 2 layer survey label ABC\n",
    )?;
    check_refused(
        &rt,
        heap,
        &[SITE, 0x700f_4241, MEASURED, END | 1],
        "refused 5 word 0 layer survey label -\n",
    )?;
    check_refused(
        &rt,
        heap,
        &[SITE, 0x403d_0901, END | 1],
        "refused 6 word 0 layer survey label -\n",
    )?;
    check_refused(
        &rt,
        heap,
        &[SITE, MEASURED, label, text, SITE, MEASURED, END | 2],
        "refused 8 word 4 layer survey label ABC\n",
    )
}

#[test]
fn a_site_is_added_before_the_next_word_is_looked_at(rt: HostRuntime) -> Result<(), Fail> {
    let heap = rt.alloc();
    check_refused(
        &rt,
        heap,
        &[SITE, MEASURED, SITE, MEASURED, MEASURED],
        "refused 8 word 2 layer survey label -\n",
    )?;
    check_refused(
        &rt,
        heap,
        &[SITE, MEASURED],
        "refused 21 word 2 layer words label -\n",
    )
}

#[test]
fn faults_of_words_and_grading_go_up_as_they_are(rt: HostRuntime) -> Result<(), Fail> {
    let heap = rt.alloc();
    let [label, text] = LABEL;
    check_refused(&rt, heap, &[], "refused 20 word 0 layer words label -\n")?;
    check_refused(
        &rt,
        heap,
        &[label, text, SITE, 0x7000_000a, 0x7000_0005, END | 1],
        "refused 21 word 4 layer words label ABC\n",
    )?;
    check_refused(
        &rt,
        heap,
        &[label, text, 0x8000_000d, text, END],
        "refused 22 word 2 layer words label ABC\n",
    )?;
    check_refused(
        &rt,
        heap,
        &[0x0001_9064, 0x6000_0001, END | 1],
        "refused 23 word 1 layer grading label -\n",
    )?;
    check_refused(
        &rt,
        heap,
        &[SITE, MEASURED, END | 2],
        "refused 24 word 2 layer words label -\n",
    )
}
