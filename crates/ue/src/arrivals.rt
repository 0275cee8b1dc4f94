// What the UE has of a batch.
ghost use Rattle.std.specs.Prelude.{◌≡◌, nat_le};

use harq::sps::SpsListed;
use harq::{Config, SpsEntry};

// A DCI assignment that arrived, with the outcomes of its blocks (1 ACK, 0 NACK); only the first `blocks` of them count.
// All are plain numbers, since a card gets any number: the checks refuse a format, a block count or an outcome that is none.
#[derive(Clone, Copy, Debug, Default, PartialEq, Eq)]
pub struct Arrival {
    pub cell: u32,
    pub occasion: u32,
    // The number of a `Format`.
    pub format: u32,
    // The DAI field.
    pub field: u32,
    // Transport blocks; 0 is an SPS release or a dormancy message.
    pub blocks: u32,
    // Of a fixed length: the cards have no heap.
    pub outcomes: [u8; 2],
}

// An SPS reception with its outcome.
#[derive(Clone, Copy, Debug, Default, PartialEq, Eq)]
pub struct SpsOutcome {
    pub entry: SpsEntry,
    pub outcome: u8,
}

impl SpsListed for SpsOutcome {
    ghost listed = { λ s. s.entry };

    ghost sound = { λ s. nat_le s.outcome 1 };

    fn entry(&self) -> SpsEntry {
        self.entry
    }

    fn is_sound(&self) -> bool {
        self.outcome <= 1
    }
}

// The configuration of a batch, the assignments that arrived, and the SPS receptions.
#[derive(Clone, Copy)]
pub struct Received<'a> {
    pub config: &'a Config,
    pub arrivals: &'a [Arrival],
    pub sps: &'a [SpsOutcome],
}
