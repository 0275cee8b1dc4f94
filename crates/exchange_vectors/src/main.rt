// Compares outside vectors of exchanges from standard input with what both cards do.
#![tactic(auto)]

mod failures;
mod numbers;
mod outcomes;
mod scripts;
mod vectors;

use anyhow::Context;
use outside::vectors::{LONGEST, TOO_LONG};
use outside::{is_passed_over, read_input};
use vectors::is_as_said;

// Compares the lines in turn, prints those that differ, and counts both. By two counters: the tally of `conformance` counts its verdicts, with room
// for one more that an invariant of its loop keeps, and no contract asks for either here.
fn run(rt: &HostRuntime) -> anyhow::Result<()> {
    let text = read_input(rt.alloc(), rt.stdin(), LONGEST)?.context(TOO_LONG)?;
    let mut compared: u64 = 0;
    let mut differ: u64 = 0;
    for (i, line) in text.as_str().lines().enumerate() {
        if is_passed_over(line) {
            continue;
        }
        compared = compared.saturating_add(1);
        if !is_as_said(rt.alloc(), line)? {
            differ = differ.saturating_add(1);
            let number = i + 1;
            println!(rt; "line {number} differs")?;
        }
    }
    println!(rt; "{compared} compared, {differ} differ")?;
    Ok(())
}

fn main(rt: HostRuntime) -> anyhow::Result<()> {
    run(&rt)
}
