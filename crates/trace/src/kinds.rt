// The kinds of records.
ghost use Rattle.std.specs.Prelude.{◌≡◌};
ghost use Rattle.trace.specs.Kinds.{kind_number, kind_numbered};
ghost use Rattle.trace.specs.Records.{may_stand};

// A configuration stands first and nowhere else, the others mix freely.
#[derive(Clone, Copy, Debug, PartialEq, Eq)]
pub enum Kind {
    Configuration = 1,
    Assignment = 2,
    Sps = 3,
}

// A number of no kind.
#[derive(Clone, Copy, Debug, PartialEq, Eq)]
pub struct UnknownKind;

impl TryFrom<u32> for Kind {
    type Error = UnknownKind;

    ghost try_from_gives = { λ n r. r ≡ kind_numbered n };

    fn try_from(number: u32) -> Result<Kind, UnknownKind> {
        match number {
            1 => Ok(Kind::Configuration),
            2 => Ok(Kind::Assignment),
            3 => Ok(Kind::Sps),
            _ => Err(UnknownKind),
        }
    }
}

impl From<Kind> for u32 {
    ghost from_gives = { λ k n. n ≡ kind_number k };

    fn from(kind: Kind) -> u32 {
        kind as u32
    }
}

impl Kind {
    // Whether a record of that kind may stand at that offset.
    pub(crate) fn may_stand_at(self, at: usize) -> bool
        ensures { result ≡ may_stand (kind_number self) at }
    {
        match self {
            Kind::Configuration => at == 0,
            Kind::Assignment | Kind::Sps => at > 0,
        }
    }
}
