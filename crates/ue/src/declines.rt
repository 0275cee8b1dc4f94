// Why a report is declined, and by what.
ghost use Rattle.std.specs.Prelude.{◌≡◌};

use harq::Refusal;

// The part of the input that failed a check, by its index in its list.
#[derive(Clone, Copy, Debug, PartialEq, Eq)]
pub enum Part {
    Configuration,
    Arrival(usize),
    Sps(usize),
    // All of it together: the length, the lent slots, the room.
    Whole,
}

#[derive(Clone, Copy, Debug, PartialEq, Eq)]
pub struct Decline {
    pub refusal: Refusal,
    pub part: Part,
}

impl Decline {
    pub(crate) fn new(refusal: Refusal, part: Part) -> Self
        ensures { result ≡ record { refusal = refusal; part = part } }
    {
        Self { refusal, part }
    }
}

// The refusal alone.
impl From<Decline> for Refusal {
    ghost from_gives = { λ d e. e ≡ d.refusal };

    fn from(decline: Decline) -> Refusal {
        decline.refusal
    }
}
