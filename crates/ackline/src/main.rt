// Reads a trace on standard input and prints the line of its report or of its fault.
#![tactic(auto)]

use std::io::Read;
use trace::answers::answer;
use trace::files::LONGEST;

fn run(rt: &HostRuntime) -> anyhow::Result<()> {
    let heap = rt.alloc();
    let mut bytes = Vec::new(heap);
    // One byte more than the longest trace tells that it is too long.
    rt.stdin().take(LONGEST as u64 + 1).read_to_end(&mut bytes)?;
    rt.println(answer(heap, bytes.as_slice())?)?;
    Ok(())
}

fn main(rt: HostRuntime) -> anyhow::Result<()> {
    run(&rt)
}
