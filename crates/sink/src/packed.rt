// Bits packed into lent bytes, the top bit first, and read back.
ghost use Rattle.std.specs.Prelude.{◌≡◌, ◌*◌, ◌<◌, [], length, nat_lt, slice_set};
ghost use Rattle.sink.specs.Bits.{bit_of, byte_bits, bits_of, bit_read};
ghost use Rattle.sink.specs.Ends.{capacity, packed_taken, packed_room, PackedTook};

use crate::BitSink;
use harq::Refusal;

// Fixed memory that the caller lent, and how many of its bits are used. The bytes stay whole, since contracts speak of all of them: a slice that
// shrinks would lose the front. Only the first 65,536 bytes count; every bit that was not put stays.
#[derive(Drop)]
pub struct PackedBits<'a> {
    bytes: &'a mut [u8],
    used: usize,
}

impl<'a> PackedBits<'a> {
    pub fn new(bytes: &'a mut [u8]) -> Self
        ensures over { result.bytes ≡ bytes.entry }
        ensures used { result.used ≡ 0 }
        ensures empty { packed_taken result ≡ [] }
        ensures room { packed_room result ≡ capacity (length bytes.old) }
    {
        Self { bytes, used: 0 }
    }
}

impl BitSink for PackedBits<'_> {
    ghost taken = { packed_taken };

    ghost room = { packed_room };

    ghost took = { PackedTook };

    fn put(&mut self, bit: bool) -> Result<(), Refusal> {
        if Self::room_left(self) == 0 {
            return Err(Refusal::Room);
        }
        set_bit(self.bytes, self.used, bit);
        self.used += 1;
        Ok(())
    }

    #[tactic(auto, using(crate::proofs::Writing::written_none))]
    fn room_left(&self) -> usize {
        (8 * self.bytes.len().min(65536)).saturating_sub(self.used)
    }
}

// The byte with its bit k as given, counted from the top.
#[tactic(auto, using(crate::proofs::Bytes::set_one, crate::proofs::Bytes::set_zero))]
fn with_bit(byte: u8, k: usize, bit: bool) -> u8
    requires { k < 8 }
    ensures { byte_bits result ≡ slice_set (byte_bits byte) k bit }
{
    let only = 0x80u8 >> k;
    if bit { byte | only } else { byte & !only }
}

// Sets the bit at that index of packed bytes alone; false where there is none, which is no failure and brings no value.
#[tactic(auto, using(crate::proofs::Packing::bits_set, crate::proofs::Packing::length_bits, std::proofs::lemmas::List::set_past))]
pub fn set_bit(bytes: &mut [u8], index: usize, bit: bool) -> bool
    ensures found { result ≡ nat_lt index (8 * length bytes.old) }
    ensures bits { bits_of bytes.new ≡ slice_set (bits_of bytes.old) index bit }
{
    // By index, since a proof knows no element of a slice after its `get_mut`.
    if index / 8 >= bytes.len() {
        return false;
    }
    bytes[index / 8] = with_bit(bytes[index / 8], index % 8, bit);
    true
}

// Bit k of the byte.
fn bit_in(byte: u8, k: usize) -> bool
    requires { k < 8 }
    ensures { result ≡ bit_of byte k }
{
    (byte >> (7 - k)) % 2 == 1
}

// The bit at that index of packed bytes, none past the end.
#[tactic(auto, using(crate::proofs::Packing::bit_at))]
pub fn bit_at(bytes: &[u8], index: usize) -> Option<bool>
    ensures { result ≡ bit_read bytes.now index }
{
    let byte = bytes.get(index / 8)?;
    Some(bit_in(*byte, index % 8))
}
