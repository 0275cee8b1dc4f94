// Bits as the digits '0' and '1' in lent bytes.
ghost use Rattle.std.specs.Prelude.{◌≡◌, [], length};
ghost use Rattle.sink.specs.Digits.{digit};
ghost use Rattle.sink.specs.Ends.{text_taken, text_room, TextTook};

use crate::BitSink;
use harq::Refusal;

// Fixed memory that the caller lent, and how much of it is used, as in `PackedBits`. Not one type with it: list, room and memory of each go by
// another unit, a byte or a bit.
#[derive(Drop)]
pub struct TextBits<'a> {
    bytes: &'a mut [u8],
    used: usize,
}

impl<'a> TextBits<'a> {
    pub fn new(bytes: &'a mut [u8]) -> Self
        ensures over { result.bytes ≡ bytes.entry }
        ensures used { result.used ≡ 0 }
        ensures empty { text_taken result ≡ [] }
        ensures room { text_room result ≡ length bytes.old }
    {
        Self { bytes, used: 0 }
    }
}

impl BitSink for TextBits<'_> {
    ghost taken = { text_taken };

    ghost room = { text_room };

    ghost took = { TextTook };

    fn put(&mut self, bit: bool) -> Result<(), Refusal> {
        if Self::room_left(self) == 0 {
            return Err(Refusal::Room);
        }
        // By index, since a proof knows no element of a slice after its `get_mut`.
        self.bytes[self.used] = digit_of(bit);
        self.used += 1;
        Ok(())
    }

    #[tactic(auto, using(crate::proofs::Writing::written_none))]
    fn room_left(&self) -> usize {
        self.bytes.len().saturating_sub(self.used)
    }
}

fn digit_of(bit: bool) -> u8
    ensures { result ≡ digit bit }
{
    if bit { b'1' } else { b'0' }
}
