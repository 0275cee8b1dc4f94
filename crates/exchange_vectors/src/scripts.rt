// What goes into an exchange, read from numbers.
use crate::failures::Failure;
use crate::numbers::{Numbers, read_numbers};
use gnb::Grant;
use harq::{Config, SpsEntry};
use link::Fate;
use replay::{Request, Script};
use std::alloc::Global;
use ue::SpsOutcome;

// The longest grant table.
const LONGEST_TABLE: u32 = 65_536;

// What a few numbers stand for.
pub trait FromNumbers {
    fn read(heap: Global, numbers: &mut Numbers) -> Result<Self, Failure>
    where
        Self: Sized;
}

// How many there are, and each of them.
fn read_list<T: FromNumbers + Drop>(
    heap: Global,
    numbers: &mut Numbers,
) -> Result<Vec<T>, Failure> {
    let mut list = Vec::new(heap);
    for _ in 0..numbers.number()? {
        list.push(T::read(heap, numbers)?)?;
    }
    Ok(list)
}

impl FromNumbers for SpsOutcome {
    fn read(_heap: Global, numbers: &mut Numbers) -> Result<SpsOutcome, Failure> {
        let cell = numbers.number()?;
        let configuration = numbers.number()?;
        let slot = numbers.number()?;
        let outcome = numbers.byte()?;
        Ok(SpsOutcome {
            entry: SpsEntry {
                cell,
                configuration,
                slot,
            },
            outcome,
        })
    }
}

impl FromNumbers for Grant {
    fn read(_heap: Global, numbers: &mut Numbers) -> Result<Grant, Failure> {
        let cell = numbers.number()?;
        let format = numbers.number()?;
        let blocks = numbers.number()?;
        Ok(Grant {
            cell,
            format,
            blocks,
        })
    }
}

impl FromNumbers for Request {
    fn read(heap: Global, numbers: &mut Numbers) -> Result<Request, Failure> {
        let occasion = numbers.number()?;
        let grants = read_list(heap, numbers)?;
        Ok(Request { occasion, grants })
    }
}

impl FromNumbers for Fate {
    fn read(_heap: Global, numbers: &mut Numbers) -> Result<Fate, Failure> {
        let arrived = numbers.flag()?;
        let first = numbers.byte()?;
        let second = numbers.byte()?;
        Ok(Fate {
            arrived,
            outcomes: [first, second],
        })
    }
}

// The first occasions of so many cells, at most 16; of others 0.
fn read_firsts(numbers: &mut Numbers, cells: u32) -> Result<[u32; 16], Failure> {
    let mut first = [0; 16];
    let counted = first.get_mut(..cells as usize).ok_or(Failure::Unreadable)?;
    for occasion in counted {
        *occasion = numbers.number()?;
    }
    Ok(first)
}

impl FromNumbers for Config {
    fn read(_heap: Global, numbers: &mut Numbers) -> Result<Config, Failure> {
        let cells = numbers.number()?;
        let occasions = numbers.number()?;
        let width = numbers.number()?;
        let mode = numbers.number()?;
        let first = read_firsts(numbers, cells)?;
        Ok(Config {
            cells,
            occasions,
            width,
            mode,
            first,
        })
    }
}

fn read_length(numbers: &mut Numbers) -> Result<usize, Failure> {
    let length = numbers.number()?;
    if length > LONGEST_TABLE {
        return Err(Failure::Unreadable);
    }
    Ok(length as usize)
}

impl FromNumbers for Script {
    fn read(heap: Global, numbers: &mut Numbers) -> Result<Script, Failure> {
        let config = Config::read(heap, numbers)?;
        let sps = read_list(heap, numbers)?;
        let table = read_length(numbers)?;
        let requests = read_list(heap, numbers)?;
        let fates = read_list(heap, numbers)?;
        Ok(Script {
            config,
            sps,
            table,
            requests,
            fates,
        })
    }
}

// The script that a text says with all its numbers.
pub fn read_script(heap: Global, text: &str) -> Result<Script, Failure> {
    let all = read_numbers(heap, text.as_bytes())?.ok_or(Failure::Unreadable)?;
    let mut numbers = Numbers::new(all.as_slice());
    let script = Script::read(heap, &mut numbers)?;
    if !numbers.is_empty() {
        return Err(Failure::Unreadable);
    }
    Ok(script)
}
