// Labels that differ.
ghost use Rattle.std.specs.Prelude.{◌≡◌, IfOk};
ghost use Rattle.c2_definition.specs.DefinitionFile as file;

use crate::types::NewAssertion;
use c2_base::NoMemory;
use c2_label_index::{add_label, has_label, no_labels};
use std::alloc::Global;

/// Whether no two assertions have one label. Each is looked up among those behind it, from the last one on.
pub fn labels_differ(alloc: Global, list: &[NewAssertion]) -> Result<bool, NoMemory>
    ensures { IfOk result (λ yes. yes ≡ file.labels_differ list.now) }
{
    let mut behind = no_labels(alloc);
    let mut i = list.len();
    while i > 0 {
        i -= 1;
        let label = list[i].label.as_str();
        if has_label(&behind, label) {
            return Ok(false);
        }
        add_label(alloc, &mut behind, label)?;
    }
    Ok(true)
}
