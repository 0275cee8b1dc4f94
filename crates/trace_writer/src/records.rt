// Records of a trace: kind, length and body.
ghost use Rattle.std.specs.Prelude.{◌≡◌, ℕ, ◌^◌, ◌<◌, ◌≤◌, List, ◌++◌, length, take, IfOk, vec_len, OnOk};
ghost use Rattle.std.specs.List.{flat_map};
ghost use Rattle.trace.specs.declared.kinds.Kind.{Kind as RecordKind};
ghost use Rattle.trace.specs.declared.kinds.Kind.TheVariants as kind;
ghost use Rattle.trace.specs.Kinds.{kind_number};
ghost use Rattle.trace_writer.specs.Writing.{record_of, config_numbers, arrival_numbers, sps_numbers, config_body, arrival_body, sps_body};

use super::numbers::{write_number, write_numbers};
use harq::Config;
use std::alloc::{AllocError, Global};
use trace::Kind;
use ue::{Arrival, SpsOutcome};

// The first `count` items, or all where there are not as many.
fn up_to<T>(items: &[T], count: u32) -> &[T]
    ensures value { result.now ≡ take count items.now }
    ensures bound { length result.now ≤ length items.now }
{
    items.get(..count as usize).unwrap_or(items)
}

// The numbers of a configuration before the first occasions.
fn config_numbers(config: &Config) -> [u32; 4]
    ensures { result ≡ config_numbers config.now }
{
    [config.cells, config.occasions, config.width, config.mode]
}

fn arrival_numbers(arrival: &Arrival) -> [u32; 5]
    ensures { result ≡ arrival_numbers arrival.now }
{
    [
        arrival.cell,
        arrival.occasion,
        arrival.format,
        arrival.field,
        arrival.blocks,
    ]
}

fn sps_numbers(sps: &SpsOutcome) -> [u32; 3]
    ensures { result ≡ sps_numbers sps.now }
{
    [sps.entry.cell, sps.entry.configuration, sps.entry.slot]
}

// What a trace has a record of.
pub(crate) trait ToRecord {
    // The kind of its record.
    const KIND: Kind;

    ghost KIND: { RecordKind };

    ghost content: { Self → List ℕ };

    // Its record's body.
    fn body(&self, heap: Global) -> Result<Vec<u8>, AllocError>
        ensures value { IfOk result (λ v. v.items ≡ content self.now) }
        ensures short { IfOk result (λ v. vec_len v < 2 ^ 32) };

    // Writes the record: kind, length of the body, body.
    fn write(&self, heap: Global, out: &mut Vec<u8>) -> Result<(), AllocError>
        ensures { OnOk result (out.new.items ≡ out.old.items ++ record_of (kind_number KIND) (content self.now)) }
    {
        let body = self.body(heap)?;
        write_number(out, u32::from(Self::KIND))?;
        write_number(out, body.len() as u32)?;
        out.extend_from_slice(body.as_slice())?;
        Ok(())
    }
}

impl ToRecord for Config {
    const KIND: Kind = Kind::Configuration;

    ghost KIND = { kind.Configuration };

    ghost content = { config_body };

    // The limits, then the first occasion of each cell, of at most 16.
    fn body(&self, heap: Global) -> Result<Vec<u8>, AllocError> {
        let mut body = Vec::new(heap);
        write_numbers(&mut body, &config_numbers(self))?;
        write_numbers(&mut body, up_to(&self.first, self.cells))?;
        Ok(body)
    }
}

impl ToRecord for Arrival {
    const KIND: Kind = Kind::Assignment;

    ghost KIND = { kind.Assignment };

    ghost content = { arrival_body };

    // Five numbers, then the outcome of each block, of at most two.
    fn body(&self, heap: Global) -> Result<Vec<u8>, AllocError> {
        let mut body = Vec::new(heap);
        write_numbers(&mut body, &arrival_numbers(self))?;
        body.extend_from_slice(up_to(&self.outcomes, self.blocks))?;
        Ok(body)
    }
}

impl ToRecord for SpsOutcome {
    const KIND: Kind = Kind::Sps;

    ghost KIND = { kind.Sps };

    ghost content = { sps_body };

    // Three numbers, then the outcome.
    fn body(&self, heap: Global) -> Result<Vec<u8>, AllocError> {
        let mut body = Vec::new(heap);
        write_numbers(&mut body, &sps_numbers(self))?;
        body.push(self.outcome)?;
        Ok(body)
    }
}

// Writes a record of each, in their order.
pub(crate) fn write_each<T: ToRecord>(
    heap: Global,
    out: &mut Vec<u8>,
    items: &[T],
) -> Result<(), AllocError>
    ensures { OnOk result (out.new.items ≡ out.old.items ++ flat_map (λ x. record_of (kind_number T.ToRecord.KIND) (T.ToRecord.content x)) items.now) }
{
    for item in items {
        item.write(heap, out)?;
    }
    Ok(())
}
