// The line of reports on an external store.
ghost use Rattle.std.specs.Prelude.{◌≡◌, IfOk, string_bytes};
ghost use Rattle.c2_texts.specs.Stores as form;

use crate::names::reason_name;
use c2_spec::Reason;
use std::alloc::{AllocError, Global};

/// The line of a refusal of an external store, with its number.
pub fn store_refused_line(alloc: Global, reason: Reason, number: u64) -> Result<String, AllocError>
    ensures { IfOk result (λ text. string_bytes text ≡ form.store_refused_line reason number) }
{
    let name = reason_name(reason);
    let text = format!(in alloc; "refused store {name} {number}\n")?;
    Ok(text)
}
