// Exchanges played through both cards.
ghost use Rattle.std.specs.Prelude.{◌≡◌, map, IfOk, IfErr, string_bytes};
ghost use Rattle.sink.specs.Digits.{digit};
ghost use Rattle.replay.specs.Ways.{told};
ghost use Rattle.replay.specs.Scripts.{exchange_in};
ghost use Rattle.replay.specs.Played.{Plays, Fails};

use crate::answers::{answer_calls, numbered_after};
use crate::failures::Failure;
use crate::running::{Way, run};
use crate::scripts::Script;
use gnb::{GrantEntry, Mark};
use harq::Refusal;
use link::Exchanged;
use std::alloc::{AllocError, Global};
use ue::LONGEST_REPORT;

// What both cards leave.
#[derive(Drop)]
pub struct Played {
    // What each numbering call answers.
    pub answers: Vec<Result<u32, Refusal>>,
    pub exchanged: Exchanged,
    // The assignments sent, with their marks.
    pub sent: Vec<GrantEntry>,
    // The marks of the SPS entries.
    pub marks: Vec<Mark>,
    // The bits of the report.
    pub digits: String,
}

// A digit of the report, by the one that the sink's text has for it: an inverter has flipped it. What is no `1` says the bit of `0`.
fn told(way: Way, byte: u8) -> char
    ensures { result ≡ told way byte }
{
    let one = byte == b'1';
    let bit = match way {
        Way::Plain => one,
        Way::Inverted => !one,
    };
    if bit { '1' } else { '0' }
}

// The text of the report whose digits the sink took.
fn text_of(heap: Global, way: Way, digits: &[u8]) -> Result<String, AllocError>
    ensures { IfOk result (λ s. string_bytes s ≡ map (told way) digits.now) }
{
    digits.iter().map(|byte| told(way, *byte)).collect(heap)
}

// Plays a script through both cards, and makes its numbering calls once more for what each of them answers.
pub fn play(heap: Global, script: &Script, way: Way) -> Result<Played, Failure>
    ensures plays { IfOk result (Plays (exchange_in script.now)) }
    ensures fails { IfErr result (Fails (exchange_in script.now)) }
{
    let calls = script.calls(heap)?;
    let answers = answer_calls(heap, script, calls.as_slice())?;
    let mut sent = vec![in heap; GrantEntry::default(); script.table]?;
    let mut marks = vec![in heap; Mark::default(); script.sps.len()]?;
    let mut bytes = vec![in heap; b'0'; LONGEST_REPORT]?;
    let exchanged = run(
        script,
        way,
        calls.as_slice(),
        sent.as_mut_slice(),
        marks.as_mut_slice(),
        bytes.as_mut_slice(),
    )?;
    sent.truncate(numbered_after(answers.as_slice()));
    // The rest of the table, which may be long, is not kept.
    sent.shrink_to_fit();
    bytes.truncate(exchanged.report.unwrap_or(0));
    let digits = text_of(heap, way, bytes.as_slice())?;
    Ok(Played {
        answers,
        exchanged,
        sent,
        marks,
        digits,
    })
}
