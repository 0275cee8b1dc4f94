// The bits of a report, put into a sink that has room for them.
ghost use Rattle.std.specs.Prelude.{◌≡◌, ◌*◌, ◌≤◌, [], ◌∷◌, map, length, flat_map};
ghost use Rattle.harq.specs.Configs.{bits_per_place};
ghost use Rattle.sink.specs.Gains.{Gains};
ghost use Rattle.ue.specs.Slots.{place_bits};
ghost use Rattle.ue.specs.Reports.{sps_bit};

use crate::arrivals::SpsOutcome;
use crate::slots::Slot;
use harq::{Config, Mode};
use sink::BitSink;

// One bit, for which there is room.
fn put_bit<S: BitSink>(bit: bool, sink: &mut S)
    requires { 1 ≤ S.room sink.old }
    ensures { Gains S.taken S.room S.took sink.old (bit ∷ []) sink.new }
{
    // There is room, so that no refusal is lost.
    let _ = sink.put(bit);
}

// The bits of a place.
fn put_place<S: BitSink>(config: &Config, slot: Slot, sink: &mut S)
    requires { bits_per_place config.now ≤ S.room sink.old }
    ensures { Gains S.taken S.room S.took sink.old (place_bits config.now.mode slot) sink.new }
{
    put_bit(slot.first_bit(config.mode), sink);
    if Mode::try_from(config.mode) == Ok(Mode::TwoBlocks) {
        put_bit(slot.second_bit(), sink);
    }
}

// The bits of each place.
pub(crate) fn put_places<S: BitSink>(config: &Config, slots: &[Slot], sink: &mut S)
    requires { bits_per_place config.now * length slots.now ≤ S.room sink.old }
    ensures { Gains S.taken S.room S.took sink.old (flat_map (place_bits config.now.mode) slots.now) sink.new }
{
    for slot in slots {
        put_place(config, *slot, sink);
    }
}

// The bit of each SPS reception.
pub(crate) fn put_sps<S: BitSink>(sps: &[SpsOutcome], sink: &mut S)
    requires { length sps.now ≤ S.room sink.old }
    ensures { Gains S.taken S.room S.took sink.old (map sps_bit sps.now) sink.new }
{
    for s in sps {
        put_bit(s.outcome == 1, sink);
    }
}
