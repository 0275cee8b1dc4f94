// Downlink assignment index (DAI) fields: layouts of one, two and four bits.
#![tactic(auto)]

pub mod layouts;
mod tables;

ghost use Rattle.std.specs.Prelude.{◌≡◌, ◌+◌, Some, None};
ghost use Rattle.dai.specs.Values.{value};
ghost use Rattle.dai.specs.Fields.{span, width, reading, coded};
ghost use Rattle.dai.specs.Parts.{within_bits, number_code, counter_part, counter_at, total_at};
ghost use Rattle.dai.specs.Laws.{told, ValuesReturn, NumbersReturn, ValuesRead, FieldsReturn, AcceptedBelow};

pub use layouts::{CounterLayout, FourBit, OneBit, TotalLayout, TwoBit};
pub use tables::tables_follow;

#[derive(Clone, Copy, Debug, PartialEq, Eq)]
pub enum Layout {
    One,
    Two,
    Four,
}

// What a field of a layout without a total holds.
fn counter_alone<L: CounterLayout>(field: u32) -> Option<(u32, Option<u32>)>
    ensures { result ≡ within_bits L.CounterLayout.WIDTH field (counter_at L.CounterLayout.UNIT field, None) }
{
    Some((L::read_counter(field)?, None))
}

// What a field of a layout with a total holds.
fn counter_and_total<L: TotalLayout>(field: u32) -> Option<(u32, Option<u32>)>
    ensures { result ≡ within_bits L.CounterLayout.WIDTH field (counter_at L.CounterLayout.UNIT field, Some (total_at L.CounterLayout.SPAN field)) }
{
    Some((L::read_counter(field)?, Some(L::read_total(field)?)))
}

// The field of a layout with a total.
#[tactic(auto, using(crate::proofs::Spans::part_below, crate::proofs::Spans::code_below))]
fn both_coded<L: TotalLayout>(number: u32, numbered: u32) -> u32
    ensures { result ≡ counter_part L.CounterLayout.SPAN L.CounterLayout.UNIT number + number_code L.CounterLayout.SPAN numbered }
{
    L::code_counter(number) + L::code_total(numbered)
}

// The counter with the total, if the layout has one; none where the field is too wide.
// A match, since here a layout's enum becomes a type, and nothing is shorter.
pub fn read(layout: Layout, field: u32) -> Option<(u32, Option<u32>)>
    ensures { result ≡ reading layout field }
{
    match layout {
        Layout::One => counter_alone::<OneBit>(field),
        Layout::Two => counter_alone::<TwoBit>(field),
        Layout::Four => counter_and_total::<FourBit>(field),
    }
}

// The field of an assignment: its own number, counted from 1, and how many are numbered up to its occasion.
// A match, as in `read`.
pub fn code(layout: Layout, number: u32, numbered: u32) -> u32
    ensures { result ≡ coded layout number numbered }
{
    match layout {
        Layout::One => OneBit::code_counter(number),
        Layout::Two => TwoBit::code_counter(number),
        Layout::Four => both_coded::<FourBit>(number, numbered),
    }
}

// Code, then read: the values come back.
#[tactic(auto, using(crate::proofs::Returns::values_return, crate::proofs::Returns::numbers_return))]
pub fn values_return(layout: Layout, number: u32, numbered: u32) -> Option<(u32, Option<u32>)>
    ensures values { ValuesReturn }
    ensures numbers { NumbersReturn }
    ensures is { result ≡ Some (told layout (value (span layout) number) (value (span layout) numbered)) }
{
    read(layout, code(layout, number, numbered))
}

// Read, then code: the field comes back, unless it is too wide.
#[tactic(auto, using(crate::proofs::Returns::values_read, crate::proofs::Returns::fields_return, crate::proofs::Returns::accepted_below))]
pub fn fields_return(layout: Layout, field: u32) -> Option<u32>
    ensures within { ValuesRead }
    ensures fields { FieldsReturn }
    ensures accepted { AcceptedBelow }
    ensures is { result ≡ within_bits (width layout) field field }
{
    let (counter, total) = read(layout, field)?;
    Some(code(layout, counter, total.unwrap_or(1)))
}
