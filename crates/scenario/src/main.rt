// Plays scenarios from standard input through both cards, losing assignments to order, and tells what happened.
#![tactic(auto)]

mod answers;
mod failures;
mod lengths;
mod lines;
mod losses;
mod playing;
mod scenarios;
mod telling;

use answers::answer;
use outside::read_input;

// The longest input, in bytes.
const LONGEST: u32 = 65_536;

fn run(rt: &HostRuntime) -> anyhow::Result<()> {
    let Some(text) = read_input(rt.alloc(), rt.stdin(), LONGEST)? else {
        rt.println("the input is longer than 65536 bytes")?;
        return Ok(());
    };
    rt.print(answer(rt.alloc(), text.as_str())?)?;
    Ok(())
}

fn main(rt: HostRuntime) -> anyhow::Result<()> {
    run(&rt)
}
