// What the gNB knows of a transport block.
ghost use Rattle.std.specs.Prelude.{◌≡◌, Some};
ghost use Rattle.std.specs.Fmt.{padded};
ghost use Rattle.gnb.specs.Marks.{mark_number, mark_name, mark_of_bit, blank, unanswered};

use std::fmt;

#[derive(Clone, Copy, Debug, Default, PartialEq, Eq)]
pub enum Mark {
    #[default]
    Negative = 0,
    Delivered = 1,
    Unanswered = 2,
}

impl Mark {
    // The number by which the mark is told.
    pub fn number(self) -> u32
        ensures { result ≡ mark_number self }
    {
        self as u32
    }
}

// The mark by the bit of a block.
impl From<bool> for Mark {
    ghost from_gives = { λ bit mark. mark ≡ mark_of_bit bit };

    fn from(bit: bool) -> Mark {
        if bit { Mark::Delivered } else { Mark::Negative }
    }
}

impl fmt::Display for Mark {
    ghost output = { λ mark. Some (mark_name mark) };

    ghost styled_output = { λ mark spec. Some (padded spec (mark_name mark)) };

    fn fmt<W: fmt::Write>(&self, f: &mut fmt::Formatter<W>) -> fmt::Result {
        f.pad(match self {
            Mark::Negative => "negative",
            Mark::Delivered => "delivered",
            Mark::Unanswered => "unanswered",
        })
    }
}

// One mark for each block of an assignment; one without a block has one too.
// A type of its own beside the UE's slot of outcomes: no method is common to both, so that one over any element would only rename them.
#[derive(Clone, Copy, Debug, PartialEq, Eq)]
pub enum Marks {
    One(Mark),
    Two(Mark, Mark),
}

// By hand: the default is a variant with a value.
impl Default for Marks {
    ghost is_default = { λ marks. marks ≡ blank };

    fn default() -> Marks {
        Marks::One(Mark::default())
    }
}

impl Marks {
    // The marks of an assignment that has not been answered.
    pub fn unanswered(blocks: u32) -> Marks
        ensures { result ≡ unanswered blocks }
    {
        if blocks < 2 {
            Marks::One(Mark::Unanswered)
        } else {
            Marks::Two(Mark::Unanswered, Mark::Unanswered)
        }
    }
}
