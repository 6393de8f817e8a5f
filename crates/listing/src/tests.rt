//! What the program prints of files that its own run cannot try, since they are refused.
use crate::lines::listing;
use grading::assay::Assay;
use std::test::Fail;
use words::contents::read_contents;

#[test]
fn items_before_a_fault_are_listed(rt: HostRuntime) -> Result<(), Fail> {
    let file =
        b"\x80\0\0\x03ABC\0\x06\x41\x90\x64\x70\0\x05\xdc\x40\0\0\x27\x06\x41\x90\x64\x70\0\0\x0a\x70\0\0\x05";
    let contents = read_contents(rt.alloc(), file, &Assay)?;
    let text = listing(rt.alloc(), &contents)?;
    assert_eq!(rt;
        text.as_str(),
        "label ABC\nsite 4 100 100 100 penalty 1500 measured 9.75\nrefused 21 word 7 layer words label ABC\n"
    );
    Ok(())
}

#[test]
fn a_file_of_no_length_has_only_its_refusal(rt: HostRuntime) -> Result<(), Fail> {
    let contents = read_contents(rt.alloc(), b"", &Assay)?;
    let text = listing(rt.alloc(), &contents)?;
    assert_eq!(rt; text.as_str(), "refused 20 word 0 layer words label -\n");
    Ok(())
}

#[test]
fn amounts_and_places_are_shown_as_written(rt: HostRuntime) -> Result<(), Fail> {
    let file = b"\0\0\0\0\x4f\xff\xff\xff\x3f\xff\xff\xff\x50\0\0\x02\xc0\0\0\x02";
    let contents = read_contents(rt.alloc(), file, &Assay)?;
    let text = listing(rt.alloc(), &contents)?;
    assert_eq!(rt;
        text.as_str(),
        "site 4 0 0 0 penalty 0 measured 67108863.75\nsite 5 1023 1023 1023 penalty 0 below 0.5\nend 2\n"
    );
    Ok(())
}
