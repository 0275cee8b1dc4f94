// The line that is printed for a trace: its report, or its fault.
ghost use Rattle.std.specs.Prelude.{◌≡◌, [], ◌∷◌, map, IfOk, Some, string_bytes};
ghost use Rattle.trace.specs.Lines.{fault_bytes, shown_digit, report_bytes, DigitsShown};

use super::faults::Fault;
use std::alloc::{AllocError, Global};
use std::fmt;

// The line of a fault, without its line feed.
pub fn fault_line(heap: Global, fault: Fault) -> Result<String, AllocError>
    ensures { IfOk result (λ s. string_bytes s ≡ fault_bytes fault) }
{
    format!(in heap; "{fault}")
}

fn shown_as(digit: u8) -> &'static str
    ensures { result.now ≡ shown_digit digit ∷ [] }
{
    if digit == b'1' { "1" } else { "0" }
}

// A report as it is printed: its length, and its bits as digits; a byte that is not `1` is shown as `0`.
#[derive(Clone, Copy)]
struct Report<'a> {
    length: usize,
    digits: &'a [u8],
}

impl fmt::Display for Report<'_> {
    ghost output = { λ r. Some (report_bytes r.length (map shown_digit r.digits.now)) };

    fn fmt<W: fmt::Write>(&self, f: &mut fmt::Formatter<W>) -> fmt::Result {
        let Report { length, digits } = *self;
        if length == 0 {
            return f.write_str("0");
        }
        write!(f, "{length} ")?;
        for digit in digits {
            f.write_str(shown_as(*digit))?;
        }
        Ok(())
    }
}

// The line of a report, without its line feed.
// Length and digits come apart, as the report answers the one and fills lent bytes with the other.
pub fn report_line(heap: Global, length: usize, digits: &[u8]) -> Result<String, AllocError>
    ensures { IfOk result (λ s. string_bytes s ≡ report_bytes length (map shown_digit digits.now)) }
{
    let report = Report { length, digits };
    format!(in heap; "{report}")
}

// Digits are shown as they are.
pub fn lines_stand()
    ensures { DigitsShown }
{}
