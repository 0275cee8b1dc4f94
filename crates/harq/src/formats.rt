// The DCI formats that schedule a reception.
ghost use Rattle.std.specs.Prelude.{◌≡◌, Some};
ghost use Rattle.std.specs.Fmt.{padded};
ghost use Rattle.harq.specs.Formats.{format_numbered, format_number, format_name};

use std::fmt;

#[derive(Clone, Copy, Debug, PartialEq, Eq)]
pub enum Format {
    OneZero = 0,
    OneOne = 1,
    OneTwo = 2,
}

// A number of no format.
#[derive(Clone, Copy, Debug, PartialEq, Eq)]
pub struct UnknownFormat;

impl TryFrom<u32> for Format {
    type Error = UnknownFormat;

    ghost try_from_gives = { λ n r. r ≡ format_numbered n };

    fn try_from(number: u32) -> Result<Format, UnknownFormat> {
        match number {
            0 => Ok(Format::OneZero),
            1 => Ok(Format::OneOne),
            2 => Ok(Format::OneTwo),
            _ => Err(UnknownFormat),
        }
    }
}

impl From<Format> for u32 {
    ghost from_gives = { λ f n. n ≡ format_number f };

    fn from(format: Format) -> u32 {
        format as u32
    }
}

impl fmt::Display for Format {
    ghost output = { λ f. Some (format_name f) };

    ghost styled_output = { λ f spec. Some (padded spec (format_name f)) };

    fn fmt<W: fmt::Write>(&self, f: &mut fmt::Formatter<W>) -> fmt::Result {
        f.pad(match self {
            Format::OneZero => "1_0",
            Format::OneOne => "1_1",
            Format::OneTwo => "1_2",
        })
    }
}
