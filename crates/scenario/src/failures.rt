// What is wrong with an input, told with the number of its line.
use std::alloc::AllocError;
use thiserror::Error;

#[derive(Debug, Drop, Error)]
pub enum Failure<'a> {
    // Something else stands where a word is expected.
    #[error("line {line}: expected {expected}, found '{found}'")]
    Other {
        line: usize,
        expected: &'static str,
        found: &'a str,
    },
    // The line ends where a word is expected.
    #[error("line {line}: expected {expected}, found the end of the line")]
    Ended {
        line: usize,
        expected: &'static str,
    },
    // A setting that the scenario has already.
    #[error("line {line}: expected '{setting}' once in a scenario, found it again")]
    Twice {
        line: usize,
        setting: &'static str,
    },
    // A setting that the scenario lacks; the line is its last one.
    #[error("line {line}: expected '{setting}' in the scenario that ends here")]
    Unset {
        line: usize,
        setting: &'static str,
    },
    // A grant before the first call.
    #[error("line {line}: expected a call before its grants, found none")]
    NoCall {
        line: usize,
    },
    #[error("out of memory")]
    Memory(#[from(alloc)] AllocError),
}
