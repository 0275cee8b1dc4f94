// A line of a scenario and its words.
use crate::failures::Failure;
use std::alloc::{AllocError, Global};

#[derive(Drop)]
pub struct Line<'a> {
    // Counted from 1.
    pub number: usize,
    // The line without its comment.
    pub text: &'a str,
    pub words: Vec<&'a str>,
}

// What stands before a comment.
fn without_comment(text: &str) -> &str {
    text.split_once('#').map_or(text, |(before, _)| before)
}

// The number that digits write, none where a word is not such or the number is too large. Not that of `exchange_vectors`, which reads bytes under a
// definition; this reads one word under none.
fn number_in(word: &str) -> Option<u32> {
    if word.starts_with('+') {
        return None;
    }
    word.parse::<u32>().ok()
}

impl<'a> Line<'a> {
    pub fn read(heap: Global, number: usize, line: &'a str) -> Result<Line<'a>, AllocError> {
        let text = without_comment(line);
        Ok(Line {
            number,
            text,
            words: text.split_whitespace().collect(heap)?,
        })
    }

    // The word at a place, from 0.
    pub fn word(&self, at: usize, expected: &'static str) -> Result<&'a str, Failure<'a>> {
        self.words.get(at).copied().ok_or(Failure::Ended {
            line: self.number,
            expected,
        })
    }

    // The number at a place, at most `most`.
    pub fn number(&self, at: usize, most: u32, expected: &'static str) -> Result<u32, Failure<'a>> {
        let found = self.word(at, expected)?;
        number_in(found)
            .filter(|number| *number <= most)
            .ok_or(self.other(expected, found))
    }

    // The numbers that a word writes as one number or as a range, both ends among them.
    pub fn range(
        &self,
        found: &'a str,
        most: u32,
        expected: &'static str,
    ) -> Result<(u32, u32), Failure<'a>> {
        let (from, to) = found.split_once('-').unwrap_or((found, found));
        match (number_in(from), number_in(to)) {
            (Some(from), Some(to)) if 1 <= from && from <= to && to <= most => Ok((from, to)),
            _ => Err(self.other(expected, found)),
        }
    }

    // No word stands at a place or behind it.
    pub fn end(&self, at: usize) -> Result<(), Failure<'a>> {
        match self.words.get(at).copied() {
            None => Ok(()),
            Some(found) => Err(self.other("the end of the line", found)),
        }
    }

    // That a word is none that is expected.
    pub fn other(&self, expected: &'static str, found: &'a str) -> Failure<'a> {
        Failure::Other {
            line: self.number,
            expected,
            found,
        }
    }
}
