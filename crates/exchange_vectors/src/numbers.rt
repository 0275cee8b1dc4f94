// A text of numbers, apart by one space.
ghost use Rattle.std.specs.Prelude.{◌≡◌, ◌+◌, ◌*◌, ◌<◌, drop, IfOk, vec_items};
ghost use Rattle.std.specs.Option.{option_map};
ghost use Rattle.exchange_vectors.specs.Numbers.{decimal_value, if_small, with_digit, numbers_in, first_in};

use crate::failures::Failure;
use std::alloc::{AllocError, Global};

// The value of a decimal digit, none where it is not one.
fn decimal_value(c: u8) -> Option<u32>
    ensures { result ≡ decimal_value c }
{
    match c {
        b'0'..=b'9' => Some(u32::from(c - b'0')),
        _ => None,
    }
}

// A number with a digit more, none where it passes 32 bits.
fn append_digit(number: u32, digit: u32) -> Option<u32>
    ensures { result ≡ if_small (number * 10 + digit) }
{
    number.checked_mul(10)?.checked_add(digit)
}

// A number with a character more behind what has been read of it, none where that is no digit.
fn with_digit(number: Option<u32>, c: u8) -> Option<u32>
    ensures { result ≡ with_digit number c }
{
    append_digit(number.unwrap_or(0), decimal_value(c)?)
}

// The numbers of an ASCII text, none where it is not such. One pass over the bytes: the contract reads them one by one, and `parse` would read a `+` too, which is refused here.
pub fn read_numbers(heap: Global, text: &[u8]) -> Result<Option<Vec<u32>>, AllocError>
    ensures { IfOk result (λ o. option_map vec_items o ≡ numbers_in text.now) }
{
    let mut numbers = Vec::new(heap);
    let mut number = None;
    for c in text {
        if *c == b' ' {
            let Some(n) = number else {
                return Ok(None);
            };
            numbers.push(n)?;
            number = None;
        } else {
            let Some(n) = with_digit(number, *c) else {
                return Ok(None);
            };
            number = Some(n);
        }
    }
    let Some(last) = number else {
        return Ok(None);
    };
    numbers.push(last)?;
    Ok(Some(numbers))
}

// What is left of a list of numbers.
#[derive(Drop)]
pub struct Numbers<'a> {
    rest: &'a [u32],
}

impl<'a> Numbers<'a> {
    pub fn new(rest: &'a [u32]) -> Self
        ensures { result.rest.now ≡ rest.now }
    {
        Self { rest }
    }

    pub fn is_empty(&self) -> bool {
        self.rest.is_empty()
    }

    // The first of them, which is no longer left.
    pub fn number(&mut self) -> Result<u32, Failure>
        ensures value { result ≡ first_in self.old.rest.now }
        ensures rest { self.new.rest.now ≡ drop 1 self.old.rest.now }
    {
        let [first, rest @ ..] = self.rest else {
            return Err(Failure::Unreadable);
        };
        self.rest = rest;
        Ok(*first)
    }

    // A number below 256.
    pub fn byte(&mut self) -> Result<u8, Failure> {
        u8::try_from(self.number()?).map_err(|_| Failure::Unreadable)
    }

    // 0 or 1.
    pub fn flag(&mut self) -> Result<bool, Failure> {
        match self.number()? {
            0 => Ok(false),
            1 => Ok(true),
            _ => Err(Failure::Unreadable),
        }
    }
}
