// The ways of a report into the sink, and of its bits back to the gNB.
ghost use Rattle.std.specs.Prelude.{◌≡◌, Bool, not, List, map, length};
ghost use Rattle.std.proofs.Common.{refl};
ghost use Rattle.std.proofs.lemmas.List.{length-map};
ghost use Rattle.sink.specs.Bits.{bits_of};
ghost use Rattle.sink.specs.Ends.{capacity};
ghost use Rattle.sink.specs.Sink.{all_answer, accepted};
ghost use Rattle.sink.specs.Written.{written};
ghost use Rattle.sink.proofs.Laws.{flip_twice};
ghost use Rattle.link.specs.Reported.{IsReported};

use harq::Refusal;
use sink::{BitSink, pack, pack_inverted};
use ue::{Received, Slot};

pub trait Way {
    // The bits of a report as the sink takes them.
    ghost aired: { List Bool → List Bool };

    // Puts the UE's report into the sink.
    fn report<S: BitSink>(
        received: &Received,
        slots: &mut [Slot],
        sink: &mut S,
    ) -> Result<usize, Refusal>
        ensures { IsReported S.taken S.room S.took aired received.now.config.now received.now.arrivals.now received.now.sps.now slots.old sink.old result slots.new sink.new };

    // Packs the bits that the sink took as the report has them.
    fn pack(bits: &[bool], bytes: &mut [u8]) -> Result<usize, Refusal>
        ensures answer { result ≡ all_answer (capacity (length bytes.old)) bits.now }
        ensures bytes { bits_of bytes.new ≡ written (bits_of bytes.old) 0 (accepted (capacity (length bytes.old)) (aired bits.now)) };

    ghost same_length: { (bits : List Bool) → length (aired bits) ≡ length bits };

    ghost undoes: { (bits : List Bool) → aired (aired bits) ≡ bits };
}

// As it is.
pub struct Plain;

impl Way for Plain {
    ghost aired = { λ bits. bits };

    ghost same_length = { λ bits. refl };

    ghost undoes = { λ bits. refl };

    fn report<S: BitSink>(
        received: &Received,
        slots: &mut [Slot],
        sink: &mut S,
    ) -> Result<usize, Refusal> {
        received.report(slots, sink)
    }

    fn pack(bits: &[bool], bytes: &mut [u8]) -> Result<usize, Refusal> {
        pack(bits, bytes)
    }
}

// Through an inverter over the sink, and each bit flipped back.
pub struct Inverted;

impl Way for Inverted {
    ghost aired = { map not };

    ghost same_length = { λ bits. length-map bits not };

    ghost undoes = { flip_twice };

    fn report<S: BitSink>(
        received: &Received,
        slots: &mut [Slot],
        sink: &mut S,
    ) -> Result<usize, Refusal> {
        received.report_inverted(slots, sink)
    }

    fn pack(bits: &[bool], bytes: &mut [u8]) -> Result<usize, Refusal> {
        pack_inverted(bits, bytes)
    }
}
