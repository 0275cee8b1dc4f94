// Sinks over any sink, their meaning computed from the one below.
ghost use Rattle.std.specs.Prelude.{◌≡◌, ◌-◌, min, not, map, length};

use crate::BitSink;
use harq::Refusal;

// Flips each bit on its way down.
#[derive(Drop)]
pub struct Inverter<S> {
    below: S,
}

impl<S: BitSink> Inverter<S> {
    pub fn new(below: S) -> Self
        ensures { result.below ≡ below }
    {
        Self { below }
    }

    pub fn into_below(self) -> S
        ensures { result ≡ self.below }
    {
        let Inverter { below } = self;
        below
    }
}

impl<S: BitSink> BitSink for Inverter<S> {
    ghost taken = { λ s. map not (S.BitSink.taken s.below) };

    ghost room = { λ s. S.BitSink.room s.below };

    ghost took = { λ s bits t. S.BitSink.took s.below (map not bits) t.below };

    fn put(&mut self, bit: bool) -> Result<(), Refusal> {
        self.below.put(!bit)
    }

    fn room_left(&self) -> usize {
        self.below.room_left()
    }
}

// Passes at most `left` more bits down.
#[derive(Drop)]
pub struct Quota<S> {
    below: S,
    left: usize,
}

impl<S: BitSink> Quota<S> {
    pub fn new(below: S, left: usize) -> Self
        ensures under { result.below ≡ below }
        ensures whole { result.left ≡ left }
    {
        Self { below, left }
    }

    pub fn into_below(self) -> S
        ensures { result ≡ self.below }
    {
        let Quota { below, left: _ } = self;
        below
    }
}

impl<S: BitSink> BitSink for Quota<S> {
    ghost taken = { λ s. S.BitSink.taken s.below };

    ghost room = { λ s. min s.left (S.BitSink.room s.below) };

    // The least of two does not tell what became of each: both fell by as many bits as were taken.
    ghost took = { λ s bits t. S.BitSink.took s.below bits t.below × (S.BitSink.room t.below ≡ S.BitSink.room s.below - length bits) × (t.left ≡ s.left - length bits) };

    #[tactic(auto, using(crate::proofs::Laws::gained_same, crate::proofs::Laws::length_gained, crate::proofs::Laws::ok_room, crate::proofs::Laws::err_room))]
    fn put(&mut self, bit: bool) -> Result<(), Refusal> {
        if self.left == 0 {
            return Err(Refusal::Room);
        }
        self.below.put(bit)?;
        self.left -= 1;
        Ok(())
    }

    fn room_left(&self) -> usize {
        self.left.min(self.below.room_left())
    }
}

// A borrowed sink is a sink.
impl<S: BitSink> BitSink for &mut S {
    ghost taken = { λ s. S.BitSink.taken s.now };

    ghost room = { λ s. S.BitSink.room s.now };

    ghost took = { λ s bits t. (s.ghost_name ≡ t.ghost_name) × S.BitSink.took s.now bits t.now };

    fn put(&mut self, bit: bool) -> Result<(), Refusal> {
        (**self).put(bit)
    }

    fn room_left(&self) -> usize {
        (**self).room_left()
    }
}
