// Placing by the counter DAI: one text for every kind of entry.
ghost use Rattle.std.specs.Prelude.{◌≡◌, length, if◌then◌else◌, nat_lt, slice_set};
ghost use Rattle.harq.specs.Agreement.{CountsAgree};
ghost use Rattle.harq.specs.PlacingLaws.{PlacingStands, NothingLost, SlotsHold};
ghost use Rattle.harq.specs.Placers.{fresh, placer_after, turns_if, turns_of, advanced, place_at, place_answer, slots_at};

use crate::refusals::Refusal;

// How far placing has come: the span of the counter, its turns so far, and the counter before.
// Before the first, that is 0: counters begin at 1, so 0 needs no case of its own.
#[derive(Clone, Copy, Debug, PartialEq, Eq)]
pub struct Placer {
    span: u32,
    turns: u32,
    previous: u32,
}

impl Placer {
    // Before the first counter.
    pub fn new(span: u32) -> Placer
        ensures { result ≡ fresh span }
    {
        Placer {
            span,
            turns: 0,
            previous: 0,
        }
    }

    // Behind the numbers 1 to `numbered`, none of them missing.
    pub fn after(span: u32, numbered: u32) -> Placer
        ensures { result ≡ placer_after span numbered }
    {
        if numbered == 0 || span == 0 {
            return Placer::new(span);
        }
        Placer {
            span,
            turns: (numbered - 1) / span,
            previous: (numbered - 1) % span + 1,
        }
    }

    // The counter before, 0 before the first.
    pub fn previous(&self) -> u32
        ensures { result ≡ self.now.previous }
    {
        self.previous
    }

    // The turns, one more where the counter has come round; they stop at the largest number.
    fn turns_if(&self, round: bool) -> u32
        ensures { result ≡ turns_if self.now round }
    {
        self.turns.saturating_add(u32::from(round))
    }

    // The turns with one more counter.
    fn turns_with(&self, counter: u32) -> u32
        ensures { result ≡ turns_of self.now counter }
    {
        self.turns_if(counter <= self.previous)
    }

    // Goes on to a counter.
    pub fn advance(&mut self, counter: u32)
        ensures { self.new ≡ advanced self.old counter }
    {
        self.turns = self.turns_with(counter);
        self.previous = counter;
    }

    // The place of the counter that comes next.
    pub fn place_of(&self, counter: u32) -> usize
        ensures { result ≡ place_at self.now counter }
    {
        let turns = self.turns_with(counter);
        (self.span as usize * turns as usize + counter as usize).saturating_sub(1)
    }

    // Writes an entry of any kind at its counter's place; past the slots it refuses, and nothing changes.
    pub fn place<E: Copy>(&mut self, slots: &mut [E], counter: u32, entry: E) -> Result<(), Refusal>
        ensures answer { result ≡ place_answer self.old counter (length slots.old) }
        ensures placer { self.new ≡ (if nat_lt (place_at self.old counter) (length slots.old) then advanced self.old counter else self.old) }
        ensures slots { slots.new ≡ slice_set slots.old (place_at self.old counter) entry }
    {
        let at = self.place_of(counter);
        if at >= slots.len() {
            return Err(Refusal::Table);
        }
        // By index: of a slice's `get_mut` a proof keeps no element.
        slots[at] = entry;
        self.advance(counter);
        Ok(())
    }

    // How many slots there are at an end value.
    pub fn slots_at(&self, end: u32) -> usize
        ensures { result ≡ slots_at self.now end }
    {
        let turns = self.turns_if(end < self.previous);
        self.span as usize * turns as usize + end as usize
    }
}

// Each counter stands for the least number that it can, over every span, and the slot count for the least that the end value can.
pub fn placing_stands()
    ensures stands { PlacingStands }
    ensures whole { NothingLost }
{}

// What the slots hold, whatever the entries are.
pub fn slots_hold<E: Copy>()
    ensures { SlotsHold E }
{}

// Whatever is lost: the slot count never passes what was sent, and is exact, with every place, exactly under the run condition.
pub fn counts_agree()
    ensures { CountsAgree }
{}
