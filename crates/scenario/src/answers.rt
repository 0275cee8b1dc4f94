// The answer to an input: every scenario told in turn, and what is wrong with the input, if something is.
use crate::failures::Failure;
use crate::lines::Line;
use crate::playing::play;
use crate::scenarios::{Draft, Scenario};
use crate::telling::Story;
use std::alloc::{AllocError, Global};

// The name that a heading gives, none where a line is no heading.
fn heading<'a>(line: &Line<'a>) -> Option<&'a str> {
    if *line.words.first()? != "scenario" {
        return None;
    }
    Some(line.text.trim().strip_prefix("scenario")?.trim())
}

// Reads the scenarios in turn, up to the first mistake.
fn read_scenarios<'a>(
    heap: Global,
    text: &'a str,
    scenarios: &mut Vec<Scenario>,
) -> Result<(), Failure<'a>> {
    let mut draft = Draft::new(heap)?;
    let mut last = 1;
    for (i, line) in text.lines().enumerate() {
        let line = Line::read(heap, i + 1, line)?;
        match heading(&line) {
            Some(name) => {
                let done = std::mem::replace(&mut draft, Draft::headed(heap, name)?);
                if done.is_begun() {
                    scenarios.push(done.finish(heap, last)?)?;
                }
            }
            None => draft.take(heap, &line)?,
        }
        last = line.number;
    }
    scenarios.push(draft.finish(heap, last)?)?;
    Ok(())
}

// Tells each scenario, an empty line between two.
fn tell_each(heap: Global, scenarios: Vec<Scenario>, out: &mut String) -> Result<(), AllocError> {
    for scenario in scenarios {
        if !out.is_empty() {
            out.push_str("\n")?;
        }
        let outcome = play(heap, &scenario.script)?;
        let story = Story { scenario, outcome };
        write!(out, "{story}")?;
    }
    Ok(())
}

// What is printed for an input.
pub fn answer(heap: Global, text: &str) -> Result<String, AllocError> {
    let mut scenarios = Vec::new(heap);
    let mut out = String::new(heap);
    let read = read_scenarios(heap, text, &mut scenarios);
    tell_each(heap, scenarios, &mut out)?;
    match read {
        Ok(()) => {}
        Err(Failure::Memory(failure)) => return Err(failure),
        Err(failure) => {
            if !out.is_empty() {
                out.push_str("\n")?;
            }
            writeln!(out, "{failure}")?;
        }
    }
    Ok(out)
}
