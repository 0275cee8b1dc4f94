// Numbers of a trace, in their shortest form.
ghost use Rattle.std.specs.Prelude.{◌≡◌, ◌+◌, ◌%◌, ◌++◌, OnOk};
ghost use Rattle.std.specs.List.{flat_map};
ghost use Rattle.trace_writer.specs.Coding.{coded, ReadsCoded, OnlyCoded};

use std::alloc::AllocError;

// The byte of the lowest group, which others follow.
fn lowest_group(rest: u32) -> u8
    ensures { result ≡ 128 + rest % 128 }
{
    (rest % 128 + 128) as u8
}

// Writes a number: seven-bit groups, lowest first, the top bit set on all but the last byte.
pub fn write_number(out: &mut Vec<u8>, value: u32) -> Result<(), AllocError>
    ensures { OnOk result (out.new.items ≡ out.old.items ++ coded value) }
{
    // A loop: `successors` would yield what is left each time, but not which is the last.
    let mut rest = value;
    while rest >= 128 {
        out.push(lowest_group(rest))?;
        rest /= 128;
    }
    out.push(rest as u8)?;
    Ok(())
}

// Writes numbers one behind the other; a trait over this and `write_each` would be longer than the loop.
pub(crate) fn write_numbers(out: &mut Vec<u8>, values: &[u32]) -> Result<(), AllocError>
    ensures { OnOk result (out.new.items ≡ out.old.items ++ flat_map coded values.now) }
{
    for value in values {
        write_number(out, *value)?;
    }
    Ok(())
}

// What is written is read back, and nothing else is read as that number.
pub fn numbers_stand()
    ensures reads { ReadsCoded }
    ensures only { OnlyCoded }
{}
