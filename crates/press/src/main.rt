// Reads a book from standard input and prints the proofreading report on it.
#![tactic(auto)]

use book::proofread;
use std::io::Read;

fn run(rt: &HostRuntime) -> anyhow::Result<()> {
    let heap = rt.alloc();
    let mut book = Vec::new(heap);
    rt.stdin().read_to_end(&mut book)?;
    let report = proofread(heap, book.as_slice())?;
    rt.print(report)?;
    Ok(())
}

fn main(rt: HostRuntime) -> anyhow::Result<()> {
    run(&rt)
}
