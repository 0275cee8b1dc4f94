// Both cards in one call.
ghost use Rattle.std.specs.Prelude.{◌≡◌, true, map, length, is_ok, OnOk};
ghost use Rattle.sink.specs.Digits.{digit};
ghost use Rattle.sink.specs.Written.{written};
ghost use Rattle.gnb.specs.Plans.{call_of};
ghost use Rattle.link.specs.Played.{exchange_of, exchanged, table_exchanged, marks_exchanged, bits_exchanged};
ghost use Rattle.replay.specs.Ways.{aired};
ghost use Rattle.replay.specs.Scripts.{exchange_by};

use crate::scripts::Script;
use gnb::{Call, GrantEntry, Mark};
use harq::Refusal;
use link::{Batch, Exchanged, Inverted, Plain};
use sink::{BitSink, TextBits};
use ue::{LONGEST_REPORT, Slot};

// Whether the report goes into the sink as it is: chosen at run time by a word of the input, where the ways of `link` are types.
#[derive(Clone, Copy)]
pub enum Way {
    Plain,
    Inverted,
}

// An exchange on its way: the sink takes each bit of the report as it is, or flipped.
fn pass<S: BitSink>(
    way: Way,
    batch: &Batch,
    table: &mut [GrantEntry],
    marks: &mut [Mark],
    slots: &mut [Slot],
    sink: &mut S,
) -> Result<Exchanged, Refusal>
    ensures exchanged { result ≡ exchanged (exchange_of batch.now table.old marks.old slots.old (S.room sink.old)) }
    ensures table { table.new ≡ table_exchanged (exchange_of batch.now table.old marks.old slots.old (S.room sink.old)) }
    ensures marks { marks.new ≡ marks_exchanged (exchange_of batch.now table.old marks.old slots.old (S.room sink.old)) }
    ensures took { is_ok result ≡ true → S.took sink.old (aired way (bits_exchanged (exchange_of batch.now table.old marks.old slots.old (S.room sink.old)))) sink.new }
{
    match way {
        Way::Plain => batch.exchange::<Plain, S>(table, marks, slots, sink),
        Way::Inverted => batch.exchange::<Inverted, S>(table, marks, slots, sink),
    }
}

// The exchange of a script over text: in front stand the digits of the report, as the sink took its bits.
pub(crate) fn run(
    script: &Script,
    way: Way,
    calls: &[Call],
    table: &mut [GrantEntry],
    marks: &mut [Mark],
    digits: &mut [u8],
) -> Result<Exchanged, Refusal>
    ensures exchanged { result ≡ exchanged (exchange_by script.now (map call_of calls.now) table.old marks.old (length digits.old)) }
    ensures table { table.new ≡ table_exchanged (exchange_by script.now (map call_of calls.now) table.old marks.old (length digits.old)) }
    ensures marks { marks.new ≡ marks_exchanged (exchange_by script.now (map call_of calls.now) table.old marks.old (length digits.old)) }
    ensures digits { OnOk result (digits.new ≡ written digits.old 0 (map digit (aired way (bits_exchanged (exchange_by script.now (map call_of calls.now) table.old marks.old (length digits.old)))))) }
{
    let batch = script.batch(calls);
    let mut slots = [Slot::One(false); LONGEST_REPORT];
    let mut text = TextBits::new(digits);
    pass(way, &batch, table, marks, &mut slots, &mut text)
}
