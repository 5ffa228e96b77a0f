// The rule on boxes that no entry lists.
ghost use Rattle.std.specs.Prelude.{◌≡◌, IfOk, Some, option_map};
ghost use Rattle.c2_rules.specs.Rules as rules;
ghost use Rattle.c2_rules.specs.Tests.{over_all, first_failing};

use crate::labelled::{Labelled, is_listed, owner};
use c2_base::NoMemory;
use c2_check_facts::at_box;
use c2_read_manifests::{AssertionBox, box_label};
use c2_rules::{Code, Failing};
use std::alloc::Global;

fn is_undeclared(own: &Labelled<'_, '_>, name: Option<&str>) -> bool
    ensures { result ≡ rules.is_undeclared own.now (option_map (λ x. x.now) name.entry) }
{
    match name {
        Some(name) => !is_listed(own, name),
        None => true,
    }
}

/// Whether no entry lists this box.
fn is_unlisted(own: &Labelled<'_, '_>, b: &AssertionBox<'_>) -> bool
    ensures { result ≡ (rules.box_test own.now b.now).fails }
{
    is_undeclared(own, box_label(b))
}

/// This fails at a box that no entry lists.
fn at_unlisted(
    alloc: Global,
    own: &Labelled<'_, '_>,
    b: &AssertionBox<'_>,
) -> Result<Option<Failing>, NoMemory>
    ensures { IfOk result (λ found. found ≡ Some (rules.box_test own.now b.now).failing) }
{
    at_box(alloc, owner(own), box_label(b), Code::AssertionUndeclared)
}

/// The first of these assertion boxes of a manifest that no entry lists.
pub fn check_boxes(
    alloc: Global,
    own: &Labelled<'_, '_>,
    boxes: &[AssertionBox<'_>],
) -> Result<Option<Failing>, NoMemory>
    ensures { let tests = over_all (λ k b. rules.box_test own.now b) 0 boxes.now in
        IfOk result (λ found. found ≡ first_failing tests) }
{
    for (k, b) in boxes.iter().enumerate() {
        if is_unlisted(own, b) {
            return at_unlisted(alloc, own, b);
        }
    }
    Ok(None)
}
