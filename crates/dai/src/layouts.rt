// Layouts of a DAI field, each a type: how its counter and total are coded and read.
ghost use Rattle.std.specs.Prelude.{◌≡◌, ℕ, ◌*◌, ◌^◌, ◌<◌};
ghost use Rattle.dai.specs.Parts.{within_bits, number_code, counter_part, counter_at, total_at};
ghost use Rattle.dai.specs.Tables.{FollowsRule};
ghost use Rattle.std.proofs.Common.{rules};

use crate::tables::{OF_FOUR, OF_TWO, tables_follow};

// A layout with a counter DAI.
pub trait CounterLayout {
    // The width of the field in bits.
    const WIDTH: u32;

    // How many values the counter has.
    const SPAN: u32;

    // What the counter's lowest bit weighs in the field.
    const UNIT: u32;

    ghost WIDTH: { ℕ };

    ghost SPAN: { ℕ };

    ghost UNIT: { ℕ };

    // The values by their code: a method, since a clause cannot name a constant reference.
    fn table() -> &'static [u32]
        ensures { FollowsRule SPAN result.now };

    // The field, none where it is too wide.
    fn within(field: u32) -> Option<u32>
        ensures { result ≡ within_bits WIDTH field field }
    {
        (field < 2u32.pow(Self::WIDTH)).then_some(field)
    }

    // The code of a number's value.
    fn number_code(number: u32) -> u32
        ensures { result ≡ number_code SPAN number }
    {
        number.saturating_sub(1) % Self::SPAN
    }

    // The counter's part of the field of the assignment of that number.
    #[tactic(auto, using(crate::proofs::Spans::part_below))]
    fn code_counter(number: u32) -> u32
        ensures { result ≡ counter_part SPAN UNIT number }
    {
        Self::UNIT * Self::number_code(number)
    }

    // The counter of a field, none where the field is too wide.
    fn read_counter(field: u32) -> Option<u32>
        ensures { result ≡ within_bits WIDTH field (counter_at UNIT field) }
    {
        let code = Self::within(field)? / Self::UNIT;
        Some(Self::table()[code as usize])
    }

    // The counter has all bits from its unit up.
    ghost whole: { SPAN * UNIT ≡ 2 ^ WIDTH };

    // Every field is a u32.
    ghost narrow: { WIDTH < 32 };
}

// A layout with a total DAI below the counter.
pub trait TotalLayout: CounterLayout {
    // The total's part of the field, where that many are numbered.
    fn code_total(numbered: u32) -> u32
        ensures { result ≡ number_code Self.CounterLayout.SPAN numbered }
    {
        Self::number_code(numbered)
    }

    // The total of a field, none where the field is too wide.
    fn read_total(field: u32) -> Option<u32>
        ensures { result ≡ within_bits Self.CounterLayout.WIDTH field (total_at Self.CounterLayout.SPAN field) }
    {
        let code = Self::within(field)? % Self::SPAN;
        Some(Self::table()[code as usize])
    }

    // The total has all bits below the counter, and as many values.
    ghost below: { Self.CounterLayout.UNIT ≡ Self.CounterLayout.SPAN };
}

pub struct OneBit;

impl CounterLayout for OneBit {
    const WIDTH: u32 = 1;

    const SPAN: u32 = 2;

    const UNIT: u32 = 1;

    ghost WIDTH = { 1 };

    ghost SPAN = { 2 };

    ghost UNIT = { 1 };

    ghost whole = { Prim.search rules };

    ghost narrow = { Prim.search rules };

    fn table() -> &'static [u32] {
        tables_follow();
        &OF_TWO
    }
}

pub struct TwoBit;

impl CounterLayout for TwoBit {
    const WIDTH: u32 = 2;

    const SPAN: u32 = 4;

    const UNIT: u32 = 1;

    ghost WIDTH = { 2 };

    ghost SPAN = { 4 };

    ghost UNIT = { 1 };

    ghost whole = { Prim.search rules };

    ghost narrow = { Prim.search rules };

    fn table() -> &'static [u32] {
        tables_follow();
        &OF_FOUR
    }
}

pub struct FourBit;

impl CounterLayout for FourBit {
    const WIDTH: u32 = 4;

    const SPAN: u32 = 4;

    const UNIT: u32 = 4;

    ghost WIDTH = { 4 };

    ghost SPAN = { 4 };

    ghost UNIT = { 4 };

    ghost whole = { Prim.search rules };

    ghost narrow = { Prim.search rules };

    fn table() -> &'static [u32] {
        tables_follow();
        &OF_FOUR
    }
}

impl TotalLayout for FourBit {
    ghost below = { Prim.search rules };
}
