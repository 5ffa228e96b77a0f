// Sets of labels.
ghost use Rattle.std.specs.Prelude.{◌≡◌, ◌||◌, ℕ, List, OnOk, bytes_eq, false};
ghost use Rattle.c2_label_index.specs.Labels.{is_among};

use c2_base::NoMemory;
use std::alloc::Global;
use std::collections::BTreeSet;

/// A set of labels.
#[derive(Drop)]
pub struct Labels {
    pub texts: BTreeSet<String>,
}

/// The set of none.
pub fn no_labels(alloc: Global) -> Labels
    ensures { (other : List ℕ) → is_among result other ≡ false }
{
    Labels {
        texts: BTreeSet::new(alloc),
    }
}

/// Whether a label is in the set. Takes no memory.
pub fn has_label(labels: &Labels, label: &str) -> bool
    ensures { result ≡ is_among labels.now label.now }
{
    labels.texts.contains(label)
}

/// Adds a label.
pub fn add_label(alloc: Global, labels: &mut Labels, label: &str) -> Result<(), NoMemory>
    ensures { OnOk result
        ((other : List ℕ) → is_among labels.new other
        ≡ (is_among labels.old other || bytes_eq label.now other)) }
{
    let text = String::from_str(alloc, label)?;
    labels.texts.insert(text)?;
    Ok(())
}
