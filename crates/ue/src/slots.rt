// What a slot of the report holds, and the bits that are read from it.
ghost use Rattle.std.specs.Prelude.{◌≡◌, Bool};
ghost use Rattle.ue.specs.Slots.{slot_of, first_bit, second_bit};

use crate::arrivals::Arrival;
use harq::Mode;

// The outcomes that an arrival brought, true for ACK: one or two. A place that no arrival has is one NACK.
// The gNB's Marks are one or two as well, but share no method with it, and a type of harq could have none of its own here.
#[derive(Clone, Copy, Debug, PartialEq, Eq)]
pub enum Slot {
    One(bool),
    Two(bool, bool),
}

// The slot of an arrival; an SPS release or a dormancy message is an ACK.
impl From<&Arrival> for Slot {
    ghost from_gives = { λ a s. s ≡ slot_of a.now };

    fn from(a: &Arrival) -> Slot {
        match a.blocks {
            0 => Slot::One(true),
            1 => Slot::One(a.outcomes[0] == 1),
            _ => Slot::Two(a.outcomes[0] == 1, a.outcomes[1] == 1),
        }
    }
}

impl Slot {
    // The first bit of the place, or the only one: both outcomes at once where they are bundled.
    // The mode as its number, as the configuration has it: a card gets any number.
    pub fn first_bit(self, mode: u32) -> bool
        ensures { result ≡ first_bit mode self }
    {
        let bundled = Mode::try_from(mode) == Ok(Mode::Bundled);
        match self {
            Slot::Two(first, second) if bundled => first && second,
            Slot::One(first) | Slot::Two(first, _) => first,
        }
    }

    // The second bit of a place that has two; NACK where no second outcome came.
    pub fn second_bit(self) -> bool
        ensures { result ≡ second_bit self }
    {
        match self {
            Slot::One(_) => false,
            Slot::Two(_, second) => second,
        }
    }
}
