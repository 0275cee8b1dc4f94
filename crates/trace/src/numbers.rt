// Numbers of a trace: seven-bit groups, lowest first, the top bit set on all but the last byte.
ghost use Rattle.std.specs.Prelude.{◌≡◌, ℕ, ◌+◌, ◌*◌, ◌^◌, ◌<◌, ◌≤◌, length, IfOk};
ghost use Rattle.trace.specs.Numbers.{number_at, closed};

use super::faults::{Fault, Layer, broken};

// Numbers are below this.
const LIMIT: u64 = 0x1_0000_0000;

// The number whose last group is `byte`, worth `weight`, after groups that come to `value`; `at` and `end` are its bounds.
fn close_number(
    at: usize,
    end: usize,
    value: u64,
    weight: u64,
    byte: u8,
) -> Result<(u32, usize), Fault>
    requires { (value < weight) × ((weight < 2 ^ 32) × (byte < 128)) }
    ensures { result ≡ closed at end value weight byte }
{
    let value = value + weight * u64::from(byte);
    if byte == 0 && weight > 1 || value >= LIMIT {
        return Err(broken(Layer::Number, at));
    }
    Ok((value as u32, end))
}

// The number at `at`, below 2^32 and in its shortest form, with the offset of the byte after it.
pub fn read_number(bytes: &[u8], at: usize) -> Result<(u32, usize), Fault>
    ensures value { result ≡ number_at bytes.now at }
    ensures within { IfOk result (λ p. (at < p.1) × (p.1 ≤ length bytes.now)) }
{
    let groups = bytes.get(at..).unwrap_or(&[]);
    let mut value: u64 = 0;
    let mut weight: u64 = 1;
    for (i, group) in groups.iter().enumerate() {
        if weight >= LIMIT {
            break;
        }
        if *group < 128 {
            return close_number(at, at + i + 1, value, weight, *group);
        }
        value += weight * u64::from(*group - 128);
        weight *= 128;
    }
    Err(broken(Layer::Number, at))
}
