//! Reads a survey file and prints the statement of its survey, or why it is refused.
#![tactic(auto)]

use report::error::ReportError;
use report::report::report_on;
use std::io::Read;
use words::reader::ENOUGH;

fn main(rt: HostRuntime) -> anyhow::Result<()> {
    let heap = rt.alloc();
    let mut file = Vec::new(heap);
    // Each program reads its input itself: no contract can say what a stream gives.
    rt.stdin().take(ENOUGH).read_to_end(&mut file)?;
    match report_on(heap, &file) {
        Ok(text) => print!(rt; "{text}")?,
        Err(error) => {
            if let ReportError::Refused(line) = &error {
                print!(rt; "{line}")?;
            }
            return Err(error.into());
        }
    }
    Ok(())
}
