// A scenario: what both cards are set to, what the gNB is asked to number, and what becomes of it on the air.
use crate::failures::Failure;
use crate::lines::Line;
use agreement::Fate;
use gnb::Grant;
use harq::{Config, Format, SpsEntry};
use replay::{Request, Script};
use std::alloc::{AllocError, Global};
use ue::SpsOutcome;

// The most assignments that a batch has: 16 cells, 32 occasions.
pub const MOST: u32 = 512;

// An assignment that arrives, with both its blocks decoded.
const DECODED: Fate = Fate {
    arrived: true,
    outcomes: [1; 2],
};

#[derive(Drop)]
pub struct Scenario {
    pub name: String,
    pub script: Script,
}

// A scenario as far as its lines have been read.
#[derive(Drop)]
pub struct Draft<'a> {
    name: &'a str,
    cells: Option<u32>,
    occasions: Option<u32>,
    width: Option<u32>,
    mode: Option<u32>,
    first: Option<[u32; 16]>,
    entries: Option<u32>,
    sps: Vec<SpsOutcome>,
    requests: Vec<Request>,
    fates: Vec<Fate>,
    // Whether it has a heading or a line of its own. A flag, since no value comes with it: a heading may name nothing, and a line may set nothing.
    begun: bool,
}

// Makes a setting by what is read, which is an error where it has been made.
fn set<T: Copy, E: Drop, F: FnOnce() -> Result<T, E>>(
    setting: &mut Option<T>,
    twice: E,
    read: F,
) -> Result<(), E>
where
    F: Drop,
    requires { F.IsAlwaysCallable read }
{
    if setting.is_some() {
        return Err(twice);
    }
    *setting = Some(read()?);
    Ok(())
}

// The only number of a line.
fn only<'a>(line: &Line<'a>, most: u32, expected: &'static str) -> Result<u32, Failure<'a>> {
    let number = line.number(1, most, expected)?;
    line.end(2)?;
    Ok(number)
}

// The format that a word writes: only scenarios read formats as words.
fn format_of<'a>(line: &Line<'a>, at: usize) -> Result<u32, Failure<'a>> {
    let expected = "a format, 1_0, 1_1 or 1_2";
    let format = match line.word(at, expected)? {
        "1_0" => Format::OneZero,
        "1_1" => Format::OneOne,
        "1_2" => Format::OneTwo,
        found => return Err(line.other(expected, found)),
    };
    Ok(format.into())
}

// The outcome at a place of the line.
fn outcome_of<'a>(line: &Line<'a>, at: usize) -> Result<u8, Failure<'a>> {
    let outcome = line.number(at, 1, "an outcome, 0 or 1")?;
    Ok(u8::from(outcome == 1))
}

// An SPS reception: cell, configuration, slot and outcome.
fn sps_of<'a>(line: &Line<'a>) -> Result<SpsOutcome, Failure<'a>> {
    let cell = line.number(1, u32::MAX, "a cell number")?;
    let configuration = line.number(2, u32::MAX, "an SPS configuration")?;
    let slot = line.number(3, u32::MAX, "a slot number")?;
    let outcome = outcome_of(line, 4)?;
    line.end(5)?;
    let entry = SpsEntry {
        cell,
        configuration,
        slot,
    };
    Ok(SpsOutcome { entry, outcome })
}

// A grant: cell, format and blocks.
fn grant_of<'a>(line: &Line<'a>) -> Result<Grant, Failure<'a>> {
    let cell = line.number(1, u32::MAX, "a cell number")?;
    let format = format_of(line, 2)?;
    let blocks = line.number(3, u32::MAX, "a number of blocks")?;
    line.end(4)?;
    Ok(Grant {
        cell,
        format,
        blocks,
    })
}

// The first counted occasions, one for each cell that has one.
fn firsts_of<'a>(line: &Line<'a>) -> Result<[u32; 16], Failure<'a>> {
    let mut first = [0; 16];
    // At least one is expected.
    for (at, occasion) in (1..line.words.len().max(2)).zip(first.iter_mut()) {
        *occasion = line.number(at, u32::MAX, "an occasion")?;
    }
    line.end(17)?;
    Ok(first)
}

// Loses the numbers from `from` to `to`.
fn lose(fates: &mut [Fate], from: u32, to: u32) {
    let before = (from as usize).saturating_sub(1);
    for fate in fates.iter_mut().take(to as usize).skip(before) {
        fate.arrived = false;
    }
}

impl<'a> Draft<'a> {
    // Before the first line, with no heading.
    pub fn new(heap: Global) -> Result<Draft<'a>, AllocError> {
        let fates = vec![in heap; DECODED; 512]?;
        Ok(Draft {
            name: "",
            cells: None,
            occasions: None,
            width: None,
            mode: None,
            first: None,
            entries: None,
            sps: Vec::new(heap),
            requests: Vec::new(heap),
            fates,
            begun: false,
        })
    }

    // Below a heading.
    pub fn headed(heap: Global, name: &'a str) -> Result<Draft<'a>, AllocError> {
        let mut draft = Draft::new(heap)?;
        draft.name = name;
        draft.begun = true;
        Ok(draft)
    }

    // Whether it has a heading or a line of its own.
    pub fn is_begun(&self) -> bool {
        self.begun
    }

    fn take_call(&mut self, heap: Global, line: &Line<'a>) -> Result<(), Failure<'a>> {
        let occasion = line.number(1, u32::MAX, "an occasion")?;
        line.end(2)?;
        self.requests.push(Request {
            occasion,
            grants: Vec::new(heap),
        })?;
        Ok(())
    }

    fn take_grant(&mut self, line: &Line<'a>) -> Result<(), Failure<'a>> {
        let grant = grant_of(line)?;
        let request = self
            .requests
            .last_mut()
            .ok_or(Failure::NoCall { line: line.number })?;
        request.grants.push(grant)?;
        Ok(())
    }

    fn take_losses(&mut self, line: &Line<'a>) -> Result<(), Failure<'a>> {
        let expected = "an assignment's number, 1 to 512, or a range such as 2-4";
        line.word(1, expected)?;
        for word in line.words.iter().skip(1).copied() {
            let (from, to) = line.range(word, MOST, expected)?;
            lose(self.fates.as_mut_slice(), from, to);
        }
        Ok(())
    }

    fn take_outcomes(&mut self, line: &Line<'a>) -> Result<(), Failure<'a>> {
        let expected = "an assignment's number, 1 to 512";
        let found = line.word(1, expected)?;
        let number = line.number(1, MOST, expected)?;
        let first = outcome_of(line, 2)?;
        let second = if line.words.len() > 3 {
            outcome_of(line, 3)?
        } else {
            1
        };
        line.end(4)?;
        let at = (number as usize).wrapping_sub(1);
        let fate = self.fates.get_mut(at).ok_or(line.other(expected, found))?;
        fate.outcomes = [first, second];
        Ok(())
    }

    // Takes a line that is no setting.
    fn take_event(
        &mut self,
        heap: Global,
        line: &Line<'a>,
        word: &'a str,
    ) -> Result<(), Failure<'a>> {
        match word {
            "sps" => {
                self.sps.push(sps_of(line)?)?;
                Ok(())
            }
            "call" => self.take_call(heap, line),
            "grant" => self.take_grant(line),
            "lost" => self.take_losses(line),
            "outcome" => self.take_outcomes(line),
            _ => Err(line.other("a line's first word, as 'cells' or 'call'", word)),
        }
    }

    // Takes a line, which may be empty.
    pub fn take(&mut self, heap: Global, line: &Line<'a>) -> Result<(), Failure<'a>> {
        let Some(word) = line.words.first().copied() else {
            return Ok(());
        };
        self.begun = true;
        let any = u32::MAX;
        let twice = |setting| Failure::Twice {
            line: line.number,
            setting,
        };
        match word {
            "cells" => set(
                &mut self.cells,
                twice("cells"),
                || only(line, any, "a number of cells"),
            ),
            "occasions" => set(
                &mut self.occasions,
                twice("occasions"),
                || only(line, any, "a number of occasions"),
            ),
            "width" => set(
                &mut self.width,
                twice("width"),
                || only(line, any, "a width in bits"),
            ),
            "mode" => set(&mut self.mode, twice("mode"), || only(line, any, "a mode")),
            "table" => set(
                &mut self.entries,
                twice("table"),
                || only(line, MOST, "a number of entries up to 512"),
            ),
            "first" => set(&mut self.first, twice("first"), || firsts_of(line)),
            _ => self.take_event(heap, line, word),
        }
    }

    // The scenario whose last line has been read.
    pub fn finish(self, heap: Global, line: usize) -> Result<Scenario, Failure<'a>> {
        let needed = |setting| Failure::Unset { line, setting };
        let config = Config {
            cells: self.cells.ok_or(needed("cells"))?,
            occasions: self.occasions.ok_or(needed("occasions"))?,
            width: self.width.unwrap_or(0),
            mode: self.mode.unwrap_or(0),
            first: self.first.unwrap_or_default(),
        };
        let Draft {
            name,
            entries,
            sps,
            requests,
            fates,
            ..
        } = self;
        Ok(Scenario {
            name: String::from_str(heap, name)?,
            script: Script {
                config,
                sps,
                table: entries.unwrap_or(MOST) as usize,
                requests,
                fates,
            },
        })
    }
}
