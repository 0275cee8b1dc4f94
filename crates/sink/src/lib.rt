// Sinks of bits: ends over lent memory, layers over any sink.
#![tactic(auto)]

ghost use Rattle.std.specs.Prelude.{◌≡◌, ℕ, ◌-◌, Bool, List, []};
ghost use Rattle.sink.specs.Sink.{answer_at, gained};

pub mod digits;
pub mod layers;
pub mod packed;
pub mod runs;
pub mod theorems;

pub use digits::TextBits;
use harq::Refusal;
pub use layers::{Inverter, Quota};
pub use packed::{PackedBits, bit_at, set_bit};
pub use runs::{pack, pack_inverted, put_all, text};
pub use theorems::{packed_reads, packing_inverts, text_reads, written_reads};

// A sink of bits, by the list of the bits that it took and the room that it has left. A bit that is true is an ACK.
// Any type becomes one by giving the two and proving `put` and `room_left`.
pub trait BitSink {
    ghost taken: { Self → List Bool };

    ghost room: { Self → ℕ };

    // The sink before, the bits that it took, and the sink after: what list and room leave open, as what
    // lent memory holds and that it is the same memory. A sink that has nothing to add leaves it out.
    ghost took: { Self → List Bool → Self → Type 0 } = { λ _ _ _. Unit {0} };

    // Takes the bit, or refuses where there is no room.
    fn put(&mut self, bit: bool) -> Result<(), Refusal>
        ensures answer { result ≡ answer_at (room self.old) }
        ensures list { taken self.new ≡ gained (room self.old) (taken self.old) bit }
        ensures left { room self.new ≡ room self.old - 1 }
        ensures on { (first : Self) (bits : List Bool) → took first bits self.old → took first (gained (room self.old) bits bit) self.new }
        ensures kept { room self.old ≡ 0 → self.new ≡ self.old };

    // How many more bits the sink takes.
    fn room_left(&self) -> usize
        ensures room { result ≡ room self.now }
        ensures none { took self.now [] self.now };
}
