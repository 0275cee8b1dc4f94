// What an assignment carries, and how the report answers it.
ghost use Rattle.std.specs.Prelude.{◌≡◌, Some};
ghost use Rattle.std.specs.Fmt.{padded};
ghost use Rattle.harq.specs.Modes.{mode_numbered, mode_number, mode_name};

use std::fmt;

#[derive(Clone, Copy, Debug, PartialEq, Eq)]
pub enum Mode {
    // One block in each assignment.
    OneBlock = 0,
    // Two blocks, with a bit each.
    TwoBlocks = 1,
    // Two blocks, with one bit for both.
    Bundled = 2,
}

// A number of no mode.
#[derive(Clone, Copy, Debug, PartialEq, Eq)]
pub struct UnknownMode;

impl TryFrom<u32> for Mode {
    type Error = UnknownMode;

    ghost try_from_gives = { λ n r. r ≡ mode_numbered n };

    fn try_from(number: u32) -> Result<Mode, UnknownMode> {
        match number {
            0 => Ok(Mode::OneBlock),
            1 => Ok(Mode::TwoBlocks),
            2 => Ok(Mode::Bundled),
            _ => Err(UnknownMode),
        }
    }
}

impl From<Mode> for u32 {
    ghost from_gives = { λ m n. n ≡ mode_number m };

    fn from(mode: Mode) -> u32 {
        mode as u32
    }
}

impl fmt::Display for Mode {
    ghost output = { λ m. Some (mode_name m) };

    ghost styled_output = { λ m spec. Some (padded spec (mode_name m)) };

    fn fmt<W: fmt::Write>(&self, f: &mut fmt::Formatter<W>) -> fmt::Result {
        f.pad(match self {
            Mode::OneBlock => "one block",
            Mode::TwoBlocks => "two blocks",
            Mode::Bundled => "two blocks bundled",
        })
    }
}
