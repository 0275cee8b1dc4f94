// Bytes in hexadecimal: two digits for each, lower or upper case.
ghost use Rattle.std.specs.Prelude.{◌≡◌, IfOk, vec_items};
ghost use Rattle.std.specs.Option.{option_map};
ghost use Rattle.conformance.specs.Hex.{digit_value, byte_value, hex_bytes, written_bytes};

use std::alloc::{AllocError, Global};

// The value of a digit, none where it is not one; `to_digit` of a `char` answers a u32, which would be narrowed again.
pub fn digit_value(c: u8) -> Option<u8>
    ensures { result ≡ digit_value c }
{
    match c {
        b'0'..=b'9' => Some(c - b'0'),
        b'a'..=b'f' => Some(c - b'a' + 10),
        b'A'..=b'F' => Some(c - b'A' + 10),
        _ => None,
    }
}

// The byte that two digits write, the high one first.
fn byte_value(high: u8, low: u8) -> Option<u8>
    ensures { result ≡ byte_value high low }
{
    let high = digit_value(high)?;
    let low = digit_value(low)?;
    Some(high * 16 + low)
}

// The bytes that the digits write, none where they are not digits in pairs.
pub fn decode_hex(heap: Global, digits: &[u8]) -> Result<Option<Vec<u8>>, AllocError>
    ensures { IfOk result (λ o. option_map vec_items o ≡ hex_bytes digits.now) }
{
    let mut bytes = Vec::new(heap);
    for pair in digits.chunks(2) {
        let [high, low] = pair else {
            return Ok(None);
        };
        let Some(byte) = byte_value(*high, *low) else {
            return Ok(None);
        };
        bytes.push(byte)?;
    }
    Ok(Some(bytes))
}

// The bytes of a file: `-` for none, else their digits.
pub fn read_bytes(heap: Global, written: &str) -> Result<Option<Vec<u8>>, AllocError>
    ensures { IfOk result (λ o. option_map vec_items o ≡ written_bytes written.now) }
{
    match written {
        "" => Ok(None),
        "-" => Ok(Some(Vec::new(heap))),
        digits => decode_hex(heap, digits.as_bytes()),
    }
}
