// Compares outside vectors from standard input with what the library answers.
#![tactic(auto)]

mod hex;
#[cfg(test)]
mod tests;
mod verdicts;

ghost use Rattle.std.specs.Prelude.{◌≤◌, IfOk};

use anyhow::Context;
use outside::read_input;
use outside::vectors::{LONGEST, TOO_LONG};
use verdicts::{Tally, judge_line};

// Compares the lines in turn and prints those that differ.
fn compare_lines(rt: &HostRuntime, text: &str) -> anyhow::Result<Tally>
    ensures { IfOk result (λ t. t.differ ≤ t.compared) }
{
    let mut tally = Tally::default();
    for (i, line) in text.lines().enumerate() {
        let number = i + 1;
        let verdict = judge_line(rt.alloc(), line)?;
        if verdict.is_difference() {
            println!(rt; "line {number}: {verdict}")?;
        }
        tally = tally.count(&verdict);
    }
    Ok(tally)
}

fn run(rt: &HostRuntime) -> anyhow::Result<()> {
    let text = read_input(rt.alloc(), rt.stdin(), LONGEST)?.context(TOO_LONG)?;
    let tally = compare_lines(rt, text.as_str())?;
    rt.println(tally)?;
    Ok(())
}

fn main(rt: HostRuntime) -> anyhow::Result<()> {
    run(&rt)
}
