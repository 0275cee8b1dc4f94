// What the UE has of a trace: the configuration, the arrivals and the SPS receptions, with the offsets of their records.
ghost use Rattle.std.specs.Prelude.{◌≡◌, map, IfOk, Option, slice_index, slice_index_or};
ghost use Rattle.std.specs.List.{filter_map};
ghost use Rattle.trace.specs.Records.{Entry, entry_of};
ghost use Rattle.trace.specs.Batches.{numbers_from, no_config, config_of, config_in, arrival_of, sps_of, offsets_by, contents, Batched};

use super::faults::Failure;
use super::files::read_records;
use super::numbers::read_number;
use super::records::Record;
use harq::{Config, SpsEntry};
use std::alloc::{AllocError, Global};
use ue::{Arrival, SpsOutcome};

// Offsets stand apart from what they are of: the report takes a slice of arrivals alone, and a batch that kept the records would have to borrow
// the trace.
#[derive(Drop)]
pub struct Batch {
    pub config: Config,
    pub arrivals: Vec<Arrival>,
    // The offset of each arrival's record.
    pub arrival_offsets: Vec<usize>,
    pub sps: Vec<SpsOutcome>,
    // The offset of each SPS reception's record.
    pub sps_offsets: Vec<usize>,
}

// The first occasions as far as there are, at most 16, the others 0.
fn first_occasions(bytes: &[u8]) -> [u32; 16]
    ensures { result ≡ numbers_from 16 bytes.now 0 }
{
    let mut first = [0; 16];
    let mut at = 0;
    for occasion in &mut first {
        let (number, next) = read_number(bytes, at).unwrap_or((0, at));
        *occasion = number;
        at = next;
    }
    first
}

// The outcome of a block, 0 where it is missing.
fn outcome_of(bytes: &[u8], block: usize) -> u8
    ensures { result ≡ slice_index bytes.now block }
{
    bytes.get(block).copied().unwrap_or(0)
}

// A configuration that has nothing.
fn no_config() -> Config
    ensures { result ≡ no_config }
{
    Config::default()
}

// The configuration that a record says, or none.
fn config_of(source: &Record) -> Config
    ensures { result ≡ config_of (entry_of source.now) }
{
    match source {
        Record::Configuration {
            cells,
            occasions,
            width,
            mode,
            first,
            ..
        } => {
            let first = first_occasions(first.bytes);
            Config {
                cells: *cells,
                occasions: *occasions,
                width: *width,
                mode: *mode,
                first,
            }
        }
        _ => no_config(),
    }
}

// The configuration of the first record.
fn configuration(records: &[Record]) -> Config
    ensures { result ≡ config_in (map entry_of records.now) }
{
    records.first().map_or(no_config(), config_of)
}

// What a record of one kind says; the error of a `TryFrom` is one that nothing would read.
pub(crate) trait FromRecord {
    ghost said: { Entry → Option Self };

    // What the record says, if it is of that kind.
    fn from_record(source: &Record) -> Option<Self>
        ensures { result ≡ said (entry_of source.now) };
}

impl FromRecord for Arrival {
    ghost said = { arrival_of };

    fn from_record(source: &Record) -> Option<Arrival> {
        match source {
            Record::Assignment {
                cell,
                occasion,
                format,
                field,
                blocks,
                outcomes,
                ..
            } => Some(Arrival {
                cell: *cell,
                occasion: *occasion,
                format: *format,
                field: *field,
                blocks: *blocks,
                outcomes: [outcome_of(outcomes.bytes, 0), outcome_of(outcomes.bytes, 1)],
            }),
            _ => None,
        }
    }
}

impl FromRecord for SpsOutcome {
    ghost said = { sps_of };

    fn from_record(source: &Record) -> Option<SpsOutcome> {
        match source {
            Record::Sps {
                cell,
                configuration,
                slot,
                outcome,
                ..
            } => Some(SpsOutcome {
                entry: SpsEntry {
                    cell: *cell,
                    configuration: *configuration,
                    slot: *slot,
                },
                outcome: *outcome,
            }),
            _ => None,
        }
    }
}

// What the records of one kind say, in their order.
fn said_by<T: FromRecord + Drop>(heap: Global, records: &[Record]) -> Result<Vec<T>, AllocError>
    ensures { IfOk result (λ v. v.items ≡ filter_map (λ r. T.FromRecord.said (entry_of r)) records.now) }
{
    records
        .iter()
        .filter_map(|record| T::from_record(record))
        .collect(heap)
}

// The offsets of the records of one kind, in their order.
fn offsets_of<T: FromRecord + Drop>(
    heap: Global,
    records: &[Record],
) -> Result<Vec<usize>, AllocError>
    ensures { IfOk result (λ v. v.items ≡ offsets_by T.FromRecord.said (map entry_of records.now)) }
{
    records
        .iter()
        .filter(|record| T::from_record(*record).is_some())
        .map(|record| record.offset())
        .collect(heap)
}

// The batch of a trace.
pub fn read_batch(heap: Global, input: &[u8]) -> Result<Batch, Failure>
    ensures { Batched result (contents input.now) }
{
    let records = read_records(heap, input)?;
    let config = configuration(records.as_slice());
    let arrivals = said_by(heap, records.as_slice())?;
    let arrival_offsets = offsets_of::<Arrival>(heap, records.as_slice())?;
    let sps = said_by(heap, records.as_slice())?;
    let sps_offsets = offsets_of::<SpsOutcome>(heap, records.as_slice())?;
    Ok(Batch {
        config,
        arrivals,
        arrival_offsets,
        sps,
        sps_offsets,
    })
}
