// Lines of outside vectors: an exchange, and what comes of it.
use crate::failures::Failure;
use crate::outcomes::{declined_line, outcome_line};
use crate::scripts::read_script;
use anyhow::anyhow;
use harq::Refusal;
use outside::read_vector;
use replay::{Way, play};
use std::alloc::Global;

// The line of an exchange that is played, or why opening is declined.
fn exchange_line(heap: Global, way: Way, input: &str) -> Result<Result<String, Refusal>, Failure> {
    let script = read_script(heap, input)?;
    match play(heap, &script, way) {
        Ok(played) => Ok(Ok(outcome_line(heap, &played)?)),
        Err(replay::Failure::Declined(refusal)) => Ok(Err(refusal)),
        Err(replay::Failure::Memory(failure)) => Err(failure.into()),
    }
}

// What comes of an exchange; none where it cannot be read as one.
fn outcome(heap: Global, way: Way, input: &str) -> anyhow::Result<Option<String>> {
    match exchange_line(heap, way, input) {
        Ok(Ok(line)) => Ok(Some(line)),
        Ok(Err(refusal)) => Ok(Some(declined_line(heap, refusal)?)),
        Err(Failure::Unreadable) => Ok(None),
        Err(Failure::Memory(_)) => Err(anyhow!("no memory is left")),
    }
}

fn way_of(kind: &str) -> Option<Way> {
    match kind {
        "exchange" => Some(Way::Plain),
        "inverted" => Some(Way::Inverted),
        _ => None,
    }
}

// Whether that comes of the exchange of a line which the line says.
pub fn is_as_said(heap: Global, line: &str) -> anyhow::Result<bool> {
    let Some(vector) = read_vector(line) else {
        return Ok(false);
    };
    let Some(way) = way_of(vector.kind) else {
        return Ok(false);
    };
    match outcome(heap, way, vector.input)? {
        Some(came) => Ok(came.as_str() == vector.expected),
        None => Ok(false),
    }
}
