// A layer that keeps the bits which the sink below it takes.
ghost use Rattle.std.specs.Prelude.{◌≡◌, ◌+◌, ◌≤◌, [], ◌++◌, length};
ghost use Rattle.link.specs.declared.recorders.TheConstants.{REPORT_BITS};

use arrayvec::ArrayVec;
use harq::Refusal;
use sink::BitSink;
use ue::LONGEST_REPORT;

// The bytes that hold the longest report.
pub(crate) const REPORT_BYTES: usize = (LONGEST_REPORT + 7) / 8;

// The bits that these hold.
const REPORT_BITS: usize = 8 * REPORT_BYTES;

// Passes each bit down, and keeps those that are taken: as many as the bytes of the longest report hold, which it does not fill.
#[derive(Drop)]
pub struct Recorder<S> {
    below: S,
    bits: ArrayVec<bool, REPORT_BITS>,
}

impl<S: BitSink> Recorder<S> {
    pub fn new(below: S) -> Self
        ensures under { result.below ≡ below }
        ensures empty { result.bits.items ≡ [] }
    {
        Self {
            below,
            bits: ArrayVec::new(),
        }
    }

    // The bits taken.
    pub fn bits(&self) -> &[bool]
        ensures { result.now ≡ self.now.bits.items }
    {
        self.bits.as_slice()
    }
}

impl<S: BitSink> BitSink for Recorder<S> {
    ghost taken = { λ s. S.BitSink.taken s.below };

    ghost room = { λ s. S.BitSink.room s.below };

    // It kept the bits, as far as they go.
    ghost took = { λ s bits t. S.BitSink.took s.below bits t.below × (length s.bits.items + length bits ≤ REPORT_BITS → t.bits.items ≡ s.bits.items ++ bits) };

    fn put(&mut self, bit: bool) -> Result<(), Refusal> {
        self.below.put(bit)?;
        // A bit past REPORT_BITS is passed on and not kept.
        let _ = self.bits.try_push(bit);
        Ok(())
    }

    fn room_left(&self) -> usize {
        self.below.room_left()
    }
}
