// The slots of a report: each outcome at its place.
ghost use Rattle.std.specs.Prelude.{◌≡◌, length};
ghost use Rattle.harq.specs.Configs.{span};
ghost use Rattle.harq.specs.Placers.{fresh};
ghost use Rattle.ue.specs.Batches.{counter};
ghost use Rattle.ue.specs.Fillings.{placer_behind, slots_behind, placed_by};

use crate::arrivals::Arrival;
use crate::slots::Slot;
use harq::{Config, Placer};

// The counter of an arrival, whose field has been judged.
fn counter_of(config: &Config, a: &Arrival) -> u32
    ensures { result ≡ counter config.now a.now }
{
    config
        .read_dai(a.format, a.field)
        .map_or(0, |(counter, _)| counter)
}

// Writes the outcomes of an arrival at its place, if it counts.
fn place_one(config: &Config, a: &Arrival, placer: &mut Placer, slots: &mut [Slot])
    ensures placer { placer.new ≡ placer_behind config.now placer.old a.now (length slots.old) }
    ensures slots { slots.new ≡ slots_behind config.now placer.old a.now slots.old }
{
    if config.counts(a.cell, a.occasion) {
        // The place is among the slots, since they have been counted, so that no refusal is lost.
        let _ = placer.place(slots, counter_of(config, a), Slot::from(a));
    }
}

// Writes the outcomes of each counted arrival at its place.
pub(crate) fn place_all(config: &Config, arrivals: &[Arrival], slots: &mut [Slot])
    ensures { slots.new ≡ placed_by config.now (fresh (span config.now)) arrivals.now slots.old }
{
    let mut placer = Placer::new(config.span());
    for a in arrivals {
        place_one(config, a, &mut placer, slots);
    }
}
