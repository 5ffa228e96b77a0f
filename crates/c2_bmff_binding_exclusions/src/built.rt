// The exclusions of a new BMFF hash.
ghost use Rattle.std.specs.Prelude.{◌≡◌, ◌∷◌, [], List, None, Some, map, IfOk};
ghost use Rattle.c2_bmff_paths.specs.Exclusions.{byte_test};
ghost use Rattle.c2_spec.specs.Bmff.Boxes.{ftyp_kind, uuid_kind};
ghost use Rattle.c2_spec.specs.Bmff.Paths.{PathStep, path_of};
ghost use Rattle.c2_spec.specs.Bmff.Store.{c2pa_user_type};
ghost use Rattle.c2_spec.specs.Bmff.Writing.{all_of, built_exclusions, mfra_kind};

use c2_base::{Blob, NoMemory};
use c2_bmff_paths::{ByteTests, Exclusion, Exclusions, read_path};
use std::alloc::Global;

// The user type of the boxes of C2PA.
const C2PA_USER_TYPE: [u8; 16] = [
    0xD8, 0xFE, 0xC3, 0xD6, 0x1B, 0x0E, 0x48, 0x3C, 0x92, 0x97, 0x58, 0x28, 0x87, 0x7E, 0xC4, 0x81,
];

// The place of the user type in a box whose header has 8 bytes.
const USER_TYPE_AT: u64 = 8;

// The exclusion of the boxes on the path of a text that meet these tests, as a whole.
fn whole_boxes(alloc: Global, text: &str, tests: Vec<(u64, Blob)>) -> Result<Exclusion, NoMemory>
    requires path { (steps : List PathStep) × (path_of text.now ≡ Some steps) }
    ensures { IfOk result (λ e. (steps : List PathStep) → path_of text.now ≡ Some steps
        → e ≡ record {
          path = steps;
          length = None;
          tests = map byte_test tests.items;
          subset = None;
        }) }
{
    let Some(path) = read_path(alloc, text)? else {
        unreachable!();
    };
    Ok(Exclusion {
        path,
        length: None,
        tests: ByteTests::from_list(tests),
        subset: None,
    })
}

// The exclusion of the C2PA boxes.
fn c2pa_boxes(alloc: Global) -> Result<Exclusion, NoMemory>
    ensures { IfOk result (λ e. e
        ≡ all_of uuid_kind (record { offset = 8; value = c2pa_user_type } ∷ [])) }
{
    let mut tests = Vec::new(alloc);
    tests.push((USER_TYPE_AT, Blob::copied(alloc, &C2PA_USER_TYPE)?))?;
    whole_boxes(alloc, "/uuid", tests)
}

// The exclusion of the file type box.
fn file_type_box(alloc: Global) -> Result<Exclusion, NoMemory>
    ensures { IfOk result (λ e. e ≡ all_of ftyp_kind []) }
{
    whole_boxes(alloc, "/ftyp", Vec::new(alloc))
}

// The exclusion of the boxes that tell where fragments are.
fn fragment_boxes(alloc: Global) -> Result<Exclusion, NoMemory>
    ensures { IfOk result (λ e. e ≡ all_of mfra_kind []) }
{
    whole_boxes(alloc, "/mfra", Vec::new(alloc))
}

/// What the hash of a new BMFF file leaves out: the C2PA boxes, the file type box, and `mfra`, each as a whole. (The project's own choice.)
pub fn new_exclusions(alloc: Global) -> Result<Exclusions, NoMemory>
    ensures { IfOk result (λ e. e ≡ built_exclusions) }
{
    let mut list = Vec::new(alloc);
    list.push(c2pa_boxes(alloc)?)?;
    list.push(file_type_box(alloc)?)?;
    list.push(fragment_boxes(alloc)?)?;
    Ok(Exclusions::from_list(list))
}
