// The report of a trace, and the line that is printed for it.
ghost use Rattle.std.specs.Prelude.{◌≡◌, map, length, IfOk, string_bytes};
ghost use Rattle.sink.specs.Digits.{digit};
ghost use Rattle.sink.specs.Written.{written};
ghost use Rattle.ue.specs.Reports.{report_answer, gained_by};
ghost use Rattle.trace.specs.Batches.{held};
ghost use Rattle.trace.specs.Answers.{offset_of, batch_line, line_of};

use super::batches::{Batch, read_batch};
use super::faults::{Failure, Fault, Layer};
use super::lines::{fault_line, report_line};
use sink::TextBits;
use std::alloc::{AllocError, Global};
use ue::{Decline, LONGEST_REPORT, Part, Received, Slot};

// The place that a decline blames: the first byte of the record that failed, or the end of the trace.
fn blamed_offset(batch: &Batch, end: usize, part: Part) -> usize
    ensures { result ≡ offset_of (held batch.now) end part }
{
    match part {
        Part::Configuration => 0,
        Part::Arrival(i) => batch.arrival_offsets.get(i).copied().unwrap_or(end),
        Part::Sps(i) => batch.sps_offsets.get(i).copied().unwrap_or(end),
        Part::Whole => end,
    }
}

// The report of a batch as digits.
fn report_digits(batch: &Batch, digits: &mut [u8]) -> Result<usize, Decline>
    ensures answer { result ≡ report_answer batch.now.config batch.now.arrivals.items batch.now.sps.items 1706 (length digits.old) }
    ensures digits { digits.new ≡ written digits.old 0 (map digit (gained_by batch.now.config batch.now.arrivals.items batch.now.sps.items result)) }
{
    let mut slots = [Slot::One(false); LONGEST_REPORT];
    let mut sink = TextBits::new(digits);
    let received = Received {
        config: &batch.config,
        arrivals: batch.arrivals.as_slice(),
        sps: batch.sps.as_slice(),
    };
    received.report_located(&mut slots, &mut sink)
}

// The line of a batch, whose trace ends at `end`.
fn batch_line(heap: Global, batch: &Batch, end: usize) -> Result<String, AllocError>
    ensures { IfOk result (λ s. string_bytes s ≡ batch_line (held batch.now) end) }
{
    let mut digits = [b'0'; LONGEST_REPORT];
    match report_digits(batch, &mut digits) {
        Ok(length) => report_line(heap, length, &digits[0..length]),
        Err(decline) => {
            let offset = blamed_offset(batch, end, decline.part);
            fault_line(
                heap,
                Fault {
                    refusal: decline.refusal,
                    layer: Layer::Report,
                    offset,
                },
            )
        }
    }
}

// The line that is printed for a trace, without its line feed.
pub fn answer(heap: Global, input: &[u8]) -> Result<String, AllocError>
    ensures { IfOk result (λ s. string_bytes s ≡ line_of input.now) }
{
    match read_batch(heap, input) {
        Ok(batch) => batch_line(heap, &batch, input.len()),
        Err(Failure::Fault(fault)) => fault_line(heap, fault),
        Err(Failure::Memory(e)) => Err(e),
    }
}
