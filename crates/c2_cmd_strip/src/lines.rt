// The lines of the report of `strip`.
ghost use Rattle.std.specs.Prelude.{◌≡◌, IfOk, string_bytes};
ghost use Rattle.c2_cmd_strip.specs.Lines as form;

use std::alloc::{AllocError, Global};

/// The line of the range that was left out of a file: its start, and its length in bytes.
pub fn stripped_line(alloc: Global, start: u64, length: u64) -> Result<String, AllocError>
    ensures { IfOk result (λ text. string_bytes text ≡ form.stripped_line start length) }
{
    let text = format!(in alloc; "stripped {start} {length}\n")?;
    Ok(text)
}

/// The line of a store whose box isn't taken out of a BMFF file, since other boxes follow it: the place where it begins.
pub fn middle_line(alloc: Global, place: u64) -> Result<String, AllocError>
    ensures { IfOk result (λ text. string_bytes text ≡ form.middle_line place) }
{
    let text = format!(in alloc; "strip Middle {place}\n")?;
    Ok(text)
}
