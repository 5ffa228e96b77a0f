// The line of the report of `extract`.
ghost use Rattle.std.specs.Prelude.{◌≡◌, IfOk, string_bytes};
ghost use Rattle.c2_cmd_extract.specs.Lines as form;

use std::alloc::{AllocError, Global};

/// The line of a store that was written to a file of its own: its length in bytes.
pub fn extracted_line(alloc: Global, length: u64) -> Result<String, AllocError>
    ensures { IfOk result (λ text. string_bytes text ≡ form.extracted_line length) }
{
    let text = format!(in alloc; "extracted {length}\n")?;
    Ok(text)
}
