//! Prints what a survey file says: one line for each item, or for the first fault.
#![tactic(auto)]

use anyhow::ensure;
use grading::assay::Assay;
use std::io::Read;
use words::contents::read_contents;
use words::reader::ENOUGH;

mod amount;
mod lines;
#[cfg(test)]
mod tests;

fn main(rt: HostRuntime) -> anyhow::Result<()> {
    let heap = rt.alloc();
    let mut file = Vec::new(heap);
    // Each program reads its input itself: no contract can say what a stream gives.
    rt.stdin().take(ENOUGH).read_to_end(&mut file)?;
    let contents = read_contents(heap, &file, &Assay)?;
    let text = lines::listing(heap, &contents)?;
    print!(rt; "{text}")?;
    ensure!(contents.refusal.is_none(), "the file is refused");
    Ok(())
}
