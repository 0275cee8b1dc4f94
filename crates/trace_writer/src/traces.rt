// A whole trace.
ghost use Rattle.std.specs.Prelude.{◌≡◌, IfOk};
ghost use Rattle.trace_writer.specs.Example.{Worked};
ghost use Rattle.trace_writer.specs.Laws.{ReadsWritten};
ghost use Rattle.trace_writer.specs.Writing.{trace_of};

use super::records::{ToRecord, write_each};
use harq::Config;
use std::alloc::{AllocError, Global};
use ue::{Arrival, SpsOutcome};

// The trace of a batch: its configuration, its arrivals, its SPS receptions.
pub fn write_trace(
    heap: Global,
    config: &Config,
    arrivals: &[Arrival],
    sps: &[SpsOutcome],
) -> Result<Vec<u8>, AllocError>
    ensures { IfOk result (λ v. v.items ≡ trace_of config.now arrivals.now sps.now) }
{
    let mut out = Vec::new(heap);
    config.write(heap, &mut out)?;
    write_each(heap, &mut out, arrivals)?;
    write_each(heap, &mut out, sps)?;
    Ok(out)
}

// A batch that was written is read back as it was; and a worked trace, byte for byte.
pub fn traces_stand()
    ensures reads { ReadsWritten }
    ensures worked { Worked }
{}
