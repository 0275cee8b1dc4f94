// A scenario played through both cards. What they do is taken from their own calls.
ghost use Rattle.std.specs.Prelude.{◌≡◌, map, IfOk};
ghost use Rattle.scenario.specs.Arrived.{with_fate};

use agreement::Fate;
use gnb::{GrantEntry, Mark};
use harq::{Config, Placer, Refusal};
use link::Exchanged;
use replay::{Failure, Played, Script, Way};
use std::alloc::{AllocError, Global};

// How many places a report has at most.
const PLACES: usize = 512;

// An assignment as it was sent, with its marks, and what became of it on the air.
#[derive(Clone, Copy)]
pub struct Sent {
    pub entry: GrantEntry,
    pub fate: Fate,
}

// What came of a scenario.
#[derive(Drop)]
pub struct Outcome {
    // What each numbering call answered.
    pub answers: Vec<Result<u32, Refusal>>,
    // What both cards in one call answered.
    pub exchanged: Exchanged,
    pub sent: Vec<Sent>,
    // The marks of the SPS entries.
    pub marks: Vec<Mark>,
    // The number that stands at each place of the report, if one does.
    pub holders: Vec<Option<u32>>,
    // The bits of the report as digits.
    pub digits: String,
}

// The assignments with their fates.
fn with_fates(heap: Global, fates: &[Fate], entries: &[GrantEntry]) -> Result<Vec<Sent>, AllocError>
    ensures { IfOk result (λ v. v.items ≡ map (with_fate fates.now) entries.now) }
{
    entries
        .iter()
        .map(|e| Sent {
            entry: *e,
            fate: Fate::of(fates, e.number),
        })
        .collect(heap)
}

// Places the numbers that arrived as the report places their outcomes.
fn place_numbers(config: &Config, sent: &[Sent], holders: &mut [Option<u32>]) {
    let mut placer = Placer::new(config.span());
    for s in sent {
        let e = &s.entry;
        if s.fate.arrived
            && let Some((counter, _)) = config.read_dai(e.format, e.field)
        {
            let _ = placer.place(holders, counter, Some(e.number));
        }
    }
}

// What came of a script whose opening was not declined.
fn outcome_of(heap: Global, script: &Script, played: Played) -> Result<Outcome, AllocError> {
    let Played {
        answers,
        exchanged,
        sent,
        marks,
        digits,
    } = played;
    let sent = with_fates(heap, script.fates.as_slice(), sent.as_slice())?;
    let mut holders = vec![in heap; None; PLACES]?;
    place_numbers(&script.config, sent.as_slice(), holders.as_mut_slice());
    Ok(Outcome {
        answers,
        exchanged,
        sent,
        marks,
        holders,
        digits,
    })
}

// Plays a script, or tells why opening is declined.
pub fn play(heap: Global, script: &Script) -> Result<Result<Outcome, Refusal>, AllocError> {
    match replay::play(heap, script, Way::Plain) {
        Ok(played) => Ok(Ok(outcome_of(heap, script, played)?)),
        Err(Failure::Declined(refusal)) => Ok(Err(refusal)),
        Err(Failure::Memory(failure)) => Err(failure),
    }
}
