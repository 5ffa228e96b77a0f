// The line of what was made and built.
ghost use Rattle.std.specs.Prelude.{◌≡◌, IfOk, string_bytes};
ghost use Rattle.c2_sample.specs.Sample.{sample_line};

use crate::types::Lengths;
use std::alloc::{AllocError, Global};

/// The line of a sample of so many pieces: the lengths of its files.
pub fn sample_line(alloc: Global, count: u32, lengths: Lengths) -> Result<String, AllocError>
    ensures { IfOk result (λ text. string_bytes text ≡ sample_line count lengths) }
{
    let Lengths { media, file, store } = lengths;
    let text = format!(in alloc; "sample {count} media={media} file={file} store={store}\n")?;
    Ok(text)
}
