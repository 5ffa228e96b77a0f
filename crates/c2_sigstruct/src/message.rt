// Taking a message apart.
ghost use Rattle.std.specs.Prelude.{◌≡◌, length, option_map};
ghost use Rattle.c2_spec.specs.Cbor.View.{view, items_view};
ghost use Rattle.c2_spec.specs.C2pa.Sign1.{parts_of};
ghost use Rattle.c2_sigstruct.specs.Parts.{bytes_in, is_null_item, is_dict, untagged, parts_in_two};
ghost use Rattle.c2_sigstruct.specs.Parts.{parts_in_items, parts_in_list};

use c2_base::Blob;
use c2_spec::{Cbor, Sign1};

// The tag of a message with one signature (RFC 9052, section 2).
pub const SIGN1_TAG: u64 = 18;

// The byte string that an item is.
fn into_bytes(item: Cbor) -> Option<Blob>
    ensures { option_map (λ b. b) result ≡ bytes_in (view item) }
{
    match item {
        Cbor::Bytes(bytes) => Some(bytes),
        _ => None,
    }
}

// Whether an item is null (RFC 8949, section 3.3).
fn is_null(item: &Cbor) -> bool
    ensures { result ≡ is_null_item (view item.now) }
{
    match item {
        Cbor::Simple(a) => *a == 22,
        _ => false,
    }
}

// Whether an item is a map.
fn is_map(item: &Cbor) -> bool
    ensures { result ≡ is_dict (view item.now) }
{
    match item {
        Cbor::Map(_) => true,
        _ => false,
    }
}

// What the tag of a message encloses, where an item has it, and else the item.
pub fn untag(item: Cbor) -> Cbor
    ensures { view result ≡ untagged (view item) }
{
    match item {
        Cbor::Tag(number, inner) => {
            if number == SIGN1_TAG {
                Box::into_inner(inner)
            } else {
                Cbor::Tag(number, inner)
            }
        }
        other => other,
    }
}

// The message with this signature whose other members are these two: its headers.
fn of_headers(items: Vec<Cbor>, signature: Blob) -> Option<Sign1>
    requires { length items.items ≡ 2 }
    ensures { option_map parts_of result ≡ parts_in_two (items_view items.items) signature }
{
    let mut items = items;
    let unprotected = items.pop()?;
    if !is_map(&unprotected) {
        return None;
    }
    let protected = into_bytes(items.pop()?)?;
    Some(Sign1 {
        protected,
        unprotected,
        signature,
    })
}

// The message of these members, where there are four.
fn of_items(items: Vec<Cbor>) -> Option<Sign1>
    ensures { option_map parts_of result ≡ parts_in_items (items_view items.items) }
{
    if items.len() != 4 {
        return None;
    }
    let mut items = items;
    let signature = into_bytes(items.pop()?)?;
    if !is_null(&items.pop()?) {
        return None;
    }
    of_headers(items, signature)
}

// The message that an item without its tag is.
pub fn of_list(item: Cbor) -> Option<Sign1>
    ensures { option_map parts_of result ≡ parts_in_list (view item) }
{
    match item {
        Cbor::List(items) => of_items(items),
        _ => None,
    }
}
