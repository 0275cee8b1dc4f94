// The configuration that UE and gNB share.
ghost use Rattle.std.specs.Prelude.{◌≡◌, nat_le};
ghost use Rattle.std.specs.List.{list_all};
ghost use Rattle.harq.specs.Configs.{numbers_within, config_within, span, bits_per_place, layout_wide, layout_of, read_dai, blocks_within, in_range, counts};

use crate::formats::Format;
use crate::modes::Mode;
use dai::Layout;

// The numbers are as given, within limits or not: a card answers those that are not by a refusal's number.
#[derive(Clone, Copy, Debug, Default, PartialEq, Eq)]
pub struct Config {
    // Cells, numbered from 0.
    pub cells: u32,
    // PDCCH monitoring occasions, numbered from 0.
    pub occasions: u32,
    // Width in bits of format 1_2's DAI field; 0 bars the format.
    pub width: u32,
    // The number of a `Mode`.
    pub mode: u32,
    // Per cell the first occasion that counts after a bandwidth part change; from `cells` on not looked at. Of a fixed length: the cards have no heap.
    pub first: [u32; 16],
}

fn all_up_to(firsts: &[u32], limit: u32) -> bool
    ensures { result ≡ list_all (λ f. nat_le f limit) firsts.now }
{
    firsts.iter().all(|f| *f <= limit)
}

// The layout of format 1_2's field, by its width.
fn layout_wide(width: u32) -> Option<Layout>
    ensures { result ≡ layout_wide width }
{
    match width {
        1 => Some(Layout::One),
        2 => Some(Layout::Two),
        4 => Some(Layout::Four),
        _ => None,
    }
}

impl Config {
    fn numbers_within(&self) -> bool
        ensures { result ≡ numbers_within self.now }
    {
        let cells = (1..=16).contains(&self.cells);
        let occasions = (1..=32).contains(&self.occasions);
        let width = self.width <= 2 || (self.width == 4 && 1 < self.cells);
        cells && occasions && width && Mode::try_from(self.mode).is_ok()
    }

    // Whether the configuration is within limits.
    pub fn is_within(&self) -> bool
        ensures { result ≡ config_within self.now }
    {
        self.numbers_within() && all_up_to(&self.first[..self.cells as usize], self.occasions)
    }

    // How many values the counter DAI has.
    pub fn span(&self) -> u32
        ensures { result ≡ span self.now }
    {
        if self.width == 1 { 2 } else { 4 }
    }

    // How many bits of the report a place has.
    pub fn bits_per_place(&self) -> usize
        ensures { result ≡ bits_per_place self.now }
    {
        match Mode::try_from(self.mode) {
            Ok(Mode::TwoBlocks) => 2,
            _ => 1,
        }
    }

    // The DAI layout of the format of a number, or none where there is no such format or it is barred.
    pub fn layout(&self, format: u32) -> Option<Layout>
        ensures { result ≡ layout_of self.now format }
    {
        match Format::try_from(format).ok()? {
            Format::OneTwo => layout_wide(self.width),
            _ if self.width == 1 => None,
            Format::OneOne if 1 < self.cells => Some(Layout::Four),
            Format::OneZero | Format::OneOne => Some(Layout::Two),
        }
    }

    // The counter and the total of a DAI field, or none where the format is barred or the field too wide.
    pub fn read_dai(&self, format: u32, field: u32) -> Option<(u32, Option<u32>)>
        ensures { result ≡ read_dai self.now format field }
    {
        dai::read(self.layout(format)?, field)
    }

    // Whether there is such a cell and occasion.
    pub fn in_range(&self, cell: u32, occasion: u32) -> bool
        ensures { result ≡ in_range self.now cell occasion }
    {
        cell < self.cells && occasion < self.occasions
    }

    // Whether an occasion counts on a cell: not before the cell's first.
    pub fn counts(&self, cell: u32, occasion: u32) -> bool
        ensures { result ≡ counts self.now cell occasion }
    {
        self.first.get(cell as usize).copied().unwrap_or(0) <= occasion
    }

    // Whether the mode has that many blocks in an assignment.
    pub fn blocks_within(&self, blocks: u32) -> bool
        ensures { result ≡ blocks_within self.now blocks }
    {
        match Mode::try_from(self.mode) {
            Ok(Mode::OneBlock) => blocks <= 1,
            _ => blocks <= 2,
        }
    }
}
