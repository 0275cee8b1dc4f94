// Reading on in the bytes of a record.
ghost use Rattle.std.specs.Prelude.{◌≡◌, ◌==◌, ◌<◌, ◌≤◌, length, drop, IfOk};
ghost use Rattle.trace.specs.Readers.{moved, reached};
ghost use Rattle.trace.specs.Records.{field_at, fields_at};

use super::faults::{Fault, Layer, broken};
use super::numbers::read_number;
use super::records::Part;

// What is left of a record: the trace as far as it goes, and the offset of the next byte.
#[derive(Drop)]
pub(crate) struct Reader<'a> {
    pub bytes: &'a [u8],
    // The offset of the record.
    pub at: usize,
    pub next: usize,
    ghost inside: { next ≤ length bytes.now },
}

impl<'a> Reader<'a> {
    // The record's number that is next; a record with no byte left is at fault.
    pub fn field(&mut self) -> Result<u32, Fault>
        ensures value { moved result self.new.next ≡ field_at self.old.bytes.now self.old.at self.old.next }
        ensures bytes { self.new.bytes ≡ self.old.bytes }
        ensures at { self.new.at ≡ self.old.at }
        ensures later { IfOk result (λ _. self.old.next < self.new.next) }
    {
        if self.next >= self.bytes.len() {
            return Err(broken(Layer::Record, self.at));
        }
        let (number, next) = read_number(self.bytes, self.next)?;
        self.next = next;
        Ok(number)
    }

    // Passes over some numbers.
    pub fn skip(&mut self, count: u32) -> Result<(), Fault>
        ensures value { reached result self.new.next ≡ fields_at self.old.bytes.now self.old.at self.old.next count }
        ensures bytes { self.new.bytes ≡ self.old.bytes }
        ensures at { self.new.at ≡ self.old.at }
    {
        for _field in 0..count {
            self.field()?;
        }
        Ok(())
    }

    // Whether no byte is left.
    pub fn is_empty(&self) -> bool
        ensures { result ≡ (self.now.next == length self.now.bytes.now) }
    {
        self.next == self.bytes.len()
    }

    // All bytes that are left.
    pub fn rest(&self) -> Part<'a>
        ensures { (result.at ≡ self.now.next) × (result.bytes.now ≡ drop self.now.next self.now.bytes.now) }
    {
        Part {
            at: self.next,
            bytes: &self.bytes[self.next..],
        }
    }
}
