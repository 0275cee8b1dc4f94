// A whole trace: its records in turn.
ghost use Rattle.std.specs.Prelude.{◌≡◌};
ghost use Rattle.trace.specs.Files.{length_checked, entries, Told};

use super::faults::{Failure, Fault, Layer, broken};
use super::records::{Record, next_record};
use std::alloc::Global;

// The longest trace, in bytes.
pub const LONGEST: usize = 65_536;

fn check_length(input: &[u8]) -> Result<(), Fault>
    ensures { result ≡ length_checked input.now }
{
    if input.len() > LONGEST {
        return Err(broken(Layer::Record, LONGEST));
    }
    Ok(())
}

// The records of a trace, in their order.
pub fn read_records<'a>(heap: Global, input: &'a [u8]) -> Result<Vec<Record<'a>>, Failure>
    ensures { Told result (entries input.now) }
{
    check_length(input)?;
    let mut records = Vec::new(heap);
    let mut at = 0;
    // An iterator of results would have to say what it yields behind a fault.
    while let Some((record, next)) = next_record(input, at)? {
        records.push(record)?;
        at = next;
    }
    Ok(records)
}
