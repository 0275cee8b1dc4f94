// Records of a trace: kind, length and body, as parts of the input with their place.
ghost use Rattle.std.specs.Prelude.{◌≡◌, ℕ, ◌<◌, ◌≤◌, length, take, IfSome, IfOk};
ghost use Rattle.trace.specs.Kinds.{kind_number};
ghost use Rattle.trace.specs.Records.{entry_of, offset_of, configuration_at, assignment_at, sps_at, body_at, head_at, record_at, viewed, viewed_next};
ghost use Rattle.trace.specs.Heads.{headed};

use super::faults::{Fault, Layer, broken};
use super::kinds::Kind;
use super::readers::Reader;

// Bytes of the trace, and the offset of the first.
#[derive(Clone, Copy)]
pub struct Part<'a> {
    pub at: usize,
    pub bytes: &'a [u8],
}

// A record; `at` is the offset of its first byte.
#[derive(Clone, Copy)]
pub enum Record<'a> {
    // `first` has a number for each cell.
    Configuration {
        at: usize,
        cells: u32,
        occasions: u32,
        width: u32,
        mode: u32,
        first: Part<'a>,
    },
    // `outcomes` has a byte for each block.
    Assignment {
        at: usize,
        cell: u32,
        occasion: u32,
        format: u32,
        field: u32,
        blocks: u32,
        outcomes: Part<'a>,
    },
    Sps {
        at: usize,
        cell: u32,
        configuration: u32,
        slot: u32,
        outcome: u8,
    },
}

impl Record<'_> {
    // The offset of its first byte.
    pub fn offset(&self) -> usize
        ensures { result ≡ offset_of (entry_of self.now) }
    {
        match *self {
            Record::Configuration { at, .. }
            | Record::Assignment { at, .. }
            | Record::Sps { at, .. } => at,
        }
    }
}

// The body of a configuration: its limits, then the first occasion that counts on each cell.
fn read_configuration<'a>(mut body: Reader<'a>) -> Result<Record<'a>, Fault>
    ensures { viewed result ≡ configuration_at body.entry.bytes.now body.entry.at body.entry.next }
{
    let cells = body.field()?;
    let occasions = body.field()?;
    let width = body.field()?;
    let mode = body.field()?;
    let first = body.rest();
    body.skip(cells)?;
    if !body.is_empty() {
        return Err(broken(Layer::Record, body.at));
    }
    Ok(Record::Configuration {
        at: body.at,
        cells,
        occasions,
        width,
        mode,
        first,
    })
}

// The body of an assignment: five numbers, then an outcome byte for each block.
fn read_assignment<'a>(mut body: Reader<'a>) -> Result<Record<'a>, Fault>
    ensures { viewed result ≡ assignment_at body.entry.bytes.now body.entry.at body.entry.next }
{
    let cell = body.field()?;
    let occasion = body.field()?;
    let format = body.field()?;
    let field = body.field()?;
    let blocks = body.field()?;
    let outcomes = body.rest();
    if outcomes.bytes.len() != blocks as usize {
        return Err(broken(Layer::Record, body.at));
    }
    Ok(Record::Assignment {
        at: body.at,
        cell,
        occasion,
        format,
        field,
        blocks,
        outcomes,
    })
}

// The body of an SPS entry: three numbers and the outcome byte.
fn read_sps(mut body: Reader<'_>) -> Result<Record<'_>, Fault>
    ensures { viewed result ≡ sps_at body.entry.bytes.now body.entry.at body.entry.next }
{
    let cell = body.field()?;
    let configuration = body.field()?;
    let slot = body.field()?;
    let [outcome] = body.rest().bytes else {
        return Err(broken(Layer::Record, body.at));
    };
    Ok(Record::Sps {
        at: body.at,
        cell,
        configuration,
        slot,
        outcome: *outcome,
    })
}

// A body, by its kind.
fn read_body<'a>(kind: Kind, body: Reader<'a>) -> Result<Record<'a>, Fault>
    ensures { viewed result ≡ body_at (kind_number kind) body.entry.bytes.now body.entry.at body.entry.next }
{
    match kind {
        Kind::Configuration => read_configuration(body),
        Kind::Assignment => read_assignment(body),
        Kind::Sps => read_sps(body),
    }
}

// The kind of the record at `at`, and its body.
fn read_head<'a>(input: &'a [u8], at: usize) -> Result<(Kind, Reader<'a>), Fault>
    requires { at ≤ length input.now }
    ensures value { headed result ≡ head_at input.now at }
    ensures body { IfOk result (λ h. (h.1.bytes.now ≡ take (length h.1.bytes.now) input.now) × ((h.1.at ≡ at) × ((at < h.1.next) × (length h.1.bytes.now ≤ length input.now)))) }
{
    let mut head = Reader {
        bytes: input,
        at,
        next: at,
    };
    let Ok(kind) = Kind::try_from(head.field()?) else {
        return Err(broken(Layer::Record, at));
    };
    if !kind.may_stand_at(at) {
        return Err(broken(Layer::Record, at));
    }
    let size = head.field()? as usize;
    if size > input.len() - head.next {
        return Err(broken(Layer::Record, at));
    }
    head.bytes = &input[..head.next + size];
    Ok((kind, head))
}

// The record at `at` and the offset after it, or none at the end of a trace that has a record.
pub(crate) fn next_record<'a>(
    input: &'a [u8],
    at: usize,
) -> Result<Option<(Record<'a>, usize)>, Fault>
    ensures value { viewed_next result ≡ record_at input.now at }
    ensures within { IfOk result (λ o. IfSome o (λ p. (at < p.1) × (p.1 ≤ length input.now))) }
{
    if at > 0 && at >= input.len() {
        return Ok(None);
    }
    let (kind, body) = read_head(input, at)?;
    let end = body.bytes.len();
    let record = read_body(kind, body)?;
    Ok(Some((record, end)))
}
