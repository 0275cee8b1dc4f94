// Why a trace is declined: the refusal, the layer that found it, and the place.
ghost use Rattle.std.specs.Prelude.{◌≡◌, Some, alloc_error};
ghost use Rattle.trace.specs.Faults.{layer_number, broken_at};
ghost use Rattle.trace.specs.Lines.{fault_bytes};
ghost use Rattle.trace.specs.declared.faults.Failure.TheVariants as failure;

use harq::Refusal;
use std::alloc::{AllocError, AllocFailed};
use std::fmt;

// Who found the fault.
#[derive(Clone, Copy, Debug, PartialEq, Eq)]
pub enum Layer {
    // A number that is cut short, too large or not in its shortest form.
    Number = 1,
    // A record of the wrong kind, or whose length or body is wrong.
    Record = 2,
    // Records that the report declines.
    Report = 3,
}

impl Layer {
    // The number by which the layer is told.
    pub fn number(self) -> u32
        ensures { result ≡ layer_number self }
    {
        self as u32
    }
}

#[derive(Clone, Copy, Debug, PartialEq, Eq)]
pub struct Fault {
    pub refusal: Refusal,
    pub layer: Layer,
    // The byte of the trace that the fault speaks of.
    pub offset: usize,
}

// The line of a fault, without its line feed.
impl fmt::Display for Fault {
    ghost output = { λ f. Some (fault_bytes f) };

    fn fmt<W: fmt::Write>(&self, f: &mut fmt::Formatter<W>) -> fmt::Result {
        let refusal = self.refusal.number();
        let layer = self.layer.number();
        let offset = self.offset;
        write!(f, "fault {refusal} {layer} {offset}")
    }
}

// The trace is broken.
pub(crate) fn broken(layer: Layer, offset: usize) -> Fault
    ensures { result ≡ broken_at layer offset }
{
    Fault {
        refusal: Refusal::Trace,
        layer,
        offset,
    }
}

// Why there is no answer: the trace is at fault, or memory is short.
#[derive(Debug, Drop)]
pub enum Failure {
    Fault(Fault),
    Memory(AllocError),
}

// These three by hand: contracts name the failure that `?` makes, and a derived `From` has no contract.
impl From<Fault> for Failure {
    ghost from_gives = { λ f r. r ≡ failure.Fault f };

    fn from(f: Fault) -> Failure {
        Failure::Fault(f)
    }
}

impl From<AllocError> for Failure {
    ghost from_gives = { λ e r. r ≡ failure.Memory e };

    fn from(e: AllocError) -> Failure {
        Failure::Memory(e)
    }
}

impl<T: Drop> From<AllocFailed<T>> for Failure {
    ghost from_gives = { λ _ r. r ≡ failure.Memory alloc_error };

    fn from(e: AllocFailed<T>) -> Failure {
        Failure::Memory(AllocError::from(e))
    }
}
