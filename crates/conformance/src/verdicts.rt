// What comparing a line comes to.
ghost use Rattle.std.specs.Prelude.{◌≡◌, ◌+◌, ◌^◌, ◌<◌, ◌≤◌, IfOk, Some, string_bytes};
ghost use Rattle.std.specs.Option.{option_map};
ghost use Rattle.outside.specs.Vectors.{said};
ghost use Rattle.conformance.specs.Hex.{written_bytes};
ghost use Rattle.conformance.specs.Verdicts.{compared, trace_outcome, said_outcome, line_outcome, outcome_of, is_compared, is_difference, counted, outcome_text, tally_text};

use crate::hex::read_bytes;
use outside::{Vector, is_passed_over, read_vector};
use std::alloc::{AllocError, Global};
use std::fmt;
use trace::answers::answer;

#[derive(Drop)]
pub enum Verdict<'a> {
    // A comment or an empty line.
    PassedOver,
    Agrees,
    Differs { expected: &'a str, came: String },
    Malformed,
    UnknownKind(&'a str),
    NotHex,
}

impl Verdict<'_> {
    // Whether the line was compared.
    pub fn is_compared(&self) -> bool
        ensures { result ≡ is_compared (outcome_of self.now) }
    {
        !matches!(self, Verdict::PassedOver)
    }

    // Whether the line does not agree.
    pub fn is_difference(&self) -> bool
        ensures { result ≡ is_difference (outcome_of self.now) }
    {
        !matches!(self, Verdict::PassedOver | Verdict::Agrees)
    }
}

impl fmt::Display for Verdict<'_> {
    ghost output = { λ v. Some (outcome_text (outcome_of v)) };

    fn fmt<W: fmt::Write>(&self, f: &mut fmt::Formatter<W>) -> fmt::Result {
        match self {
            Verdict::PassedOver => f.write_str("passed over"),
            Verdict::Agrees => f.write_str("agrees"),
            Verdict::Differs { expected, came } => {
                write!(f, "expected \"{expected}\", came \"{came}\"")
            }
            Verdict::Malformed => f.write_str("not KIND INPUT => EXPECTED"),
            Verdict::UnknownKind(kind) => write!(f, "unknown kind \"{kind}\""),
            Verdict::NotHex => f.write_str("input not in hexadecimal"),
        }
    }
}

// How many lines were compared, and how many of them differ.
#[derive(Clone, Copy, Default)]
pub struct Tally {
    pub compared: usize,
    pub differ: usize,
}

impl Tally {
    // With one more line.
    pub(crate) fn count(self, verdict: &Verdict) -> Tally
        requires { (self.compared + 1 < 2 ^ 64) × (self.differ ≤ self.compared) }
        ensures { result ≡ counted self (outcome_of verdict.now) }
    {
        Tally {
            compared: self.compared + usize::from(verdict.is_compared()),
            differ: self.differ + usize::from(verdict.is_difference()),
        }
    }
}

impl fmt::Display for Tally {
    ghost output = { λ t. Some (tally_text t) };

    fn fmt<W: fmt::Write>(&self, f: &mut fmt::Formatter<W>) -> fmt::Result {
        let Tally { compared, differ } = *self;
        write!(f, "{compared} compared, {differ} differ")
    }
}

// What came beside what was expected.
fn compare(expected: &str, came: String) -> Verdict<'_>
    ensures { outcome_of result ≡ compared expected.now (string_bytes came) }
{
    if came.as_str() == expected {
        Verdict::Agrees
    } else {
        Verdict::Differs { expected, came }
    }
}

// A trace beside the line that should be printed for it.
fn judge_trace<'a>(heap: Global, input: &str, expected: &'a str) -> Result<Verdict<'a>, AllocError>
    ensures { IfOk result (λ v. outcome_of v ≡ trace_outcome expected.now (written_bytes input.now)) }
{
    let Some(bytes) = read_bytes(heap, input)? else {
        return Ok(Verdict::NotHex);
    };
    let came = answer(heap, bytes.as_slice())?;
    Ok(compare(expected, came))
}

// A vector, by its kind.
fn judge_vector<'a>(heap: Global, vector: Vector<'a>) -> Result<Verdict<'a>, AllocError>
    ensures { IfOk result (λ v. outcome_of v ≡ said_outcome (said vector.entry)) }
{
    match vector.kind {
        "trace" => judge_trace(heap, vector.input, vector.expected),
        kind => Ok(Verdict::UnknownKind(kind)),
    }
}

// The verdict on a line.
pub fn judge_line(heap: Global, line: &str) -> Result<Verdict<'_>, AllocError>
    ensures { IfOk result (λ v. outcome_of v ≡ line_outcome line.now) }
{
    if is_passed_over(line) {
        return Ok(Verdict::PassedOver);
    }
    let Some(vector) = read_vector(line) else {
        return Ok(Verdict::Malformed);
    };
    judge_vector(heap, vector)
}
