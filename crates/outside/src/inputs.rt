// Inputs of limited length.
ghost use Rattle.std.specs.Prelude.{◌≡◌, IfOk, IfSome, string_bytes};
ghost use Rattle.std.specs.Option.{option_map};
ghost use Rattle.outside.specs.Inputs.{within};

use std::alloc::Global;
use std::io;
use std::io::Read;

// All of an input as text, none where it is longer than so many bytes.
pub fn read_input<R: Read>(heap: Global, input: R, most: u32) -> io::Result<Option<String>>
where
    R: Drop,
    ensures { IfOk result (λ o. IfSome (R.remaining input) (λ bytes. option_map string_bytes o ≡ within most bytes)) }
{
    let mut text = String::new(heap);
    // One byte more than the longest input tells that it is too long.
    let length = input.take(u64::from(most) + 1).read_to_string(&mut text)?;
    if length <= most as usize {
        Ok(Some(text))
    } else {
        Ok(None)
    }
}
