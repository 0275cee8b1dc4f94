// Whole runs of bits, put into any sink or into lent bytes.
ghost use Rattle.std.specs.Prelude.{◌≡◌, ◌<◌, Bool, not, List, map, length};
ghost use Rattle.sink.specs.Bits.{bits_of};
ghost use Rattle.sink.specs.Digits.{digit};
ghost use Rattle.sink.specs.Ends.{capacity};
ghost use Rattle.sink.specs.Sink.{all_answer, all_gained, accepted, room_after};
ghost use Rattle.sink.specs.Written.{written};

use crate::BitSink;
use crate::digits::TextBits;
use crate::layers::Inverter;
use crate::packed::PackedBits;
use harq::Refusal;

// Puts all the bits, or refuses and changes nothing where the room is too small.
pub fn put_all<S: BitSink>(bits: &[bool], sink: &mut S) -> Result<usize, Refusal>
    ensures answer { result ≡ all_answer (S.room sink.old) bits.now }
    ensures list { S.taken sink.new ≡ all_gained (S.room sink.old) (S.taken sink.old) bits.now }
    ensures left { S.room sink.new ≡ room_after (S.room sink.old) bits.now }
    ensures took { S.took sink.old (accepted (S.room sink.old) bits.now) sink.new }
    ensures on { (first : S) (more : List Bool) → S.took first more sink.old → S.took first (all_gained (S.room sink.old) more bits.now) sink.new }
    ensures kept { S.room sink.old < length bits.now → sink.new ≡ sink.old }
{
    if S::room_left(sink) < bits.len() {
        return Err(Refusal::Room);
    }
    for &bit in bits {
        sink.put(bit)?;
    }
    Ok(bits.len())
}

// Puts all the bits, each flipped, or nothing. Over any sink, since a proof knows nothing of lent bytes after an inverter that holds them.
#[tactic(auto, using(crate::proofs::Laws::all_gained_below, crate::proofs::Laws::all_gained_flipped))]
fn put_inverted<S: BitSink>(bits: &[bool], sink: &mut S) -> Result<usize, Refusal>
    ensures answer { result ≡ all_answer (S.room sink.old) bits.now }
    ensures list { S.taken sink.new ≡ all_gained (S.room sink.old) (S.taken sink.old) (map not bits.now) }
    ensures left { S.room sink.new ≡ room_after (S.room sink.old) bits.now }
    ensures took { S.took sink.old (accepted (S.room sink.old) (map not bits.now)) sink.new }
    ensures kept { S.room sink.old < length bits.now → sink.new ≡ sink.old }
{
    put_all(bits, &mut Inverter::new(sink))
}

// Packs the bits into the front of the bytes, or nothing.
pub fn pack(bits: &[bool], bytes: &mut [u8]) -> Result<usize, Refusal>
    ensures answer { result ≡ all_answer (capacity (length bytes.old)) bits.now }
    ensures bytes { bits_of bytes.new ≡ written (bits_of bytes.old) 0 (accepted (capacity (length bytes.old)) bits.now) }
{
    put_all(bits, &mut PackedBits::new(bytes))
}

// Packs the bits, each flipped, into the front of the bytes, or nothing.
pub fn pack_inverted(bits: &[bool], bytes: &mut [u8]) -> Result<usize, Refusal>
    ensures answer { result ≡ all_answer (capacity (length bytes.old)) bits.now }
    ensures bytes { bits_of bytes.new ≡ written (bits_of bytes.old) 0 (accepted (capacity (length bytes.old)) (map not bits.now)) }
{
    put_inverted(bits, &mut PackedBits::new(bytes))
}

// Writes the bits as digits into the front of the bytes, or nothing.
pub fn text(bits: &[bool], bytes: &mut [u8]) -> Result<usize, Refusal>
    ensures answer { result ≡ all_answer (length bytes.old) bits.now }
    ensures bytes { bytes.new ≡ written bytes.old 0 (map digit (accepted (length bytes.old) bits.now)) }
{
    put_all(bits, &mut TextBits::new(bytes))
}
