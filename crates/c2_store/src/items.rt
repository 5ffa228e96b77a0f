// The item of a box.
ghost use Rattle.std.specs.Prelude.{◌≡◌, ◌<◌, option_map};
ghost use Rattle.c2_spec.specs.Jumbf.Boxes.{tree_count};
ghost use Rattle.c2_spec.specs.C2pa.Manifest.{item_at};

use c2_jumbf::{Tree, child, contents, kind};

/// The item of a claim, signature or assertion box: the payload of its first content box, which comes after its
/// description, where that is a leaf of kind `cbor`. Takes no memory.
#[tactic(auto, using(c2_spec::proofs::JumbfChildren::child_inside))]
pub fn item<'t>(tree: &'t Tree<'_>, i: usize) -> Option<&'t [u8]>
    requires { i < tree_count tree.now }
    ensures { option_map (λ b. b.now) result ≡ item_at tree.now i }
{
    let Some(content) = child(tree, i, 1) else {
        return None;
    };
    if kind(tree, content).as_slice() == b"cbor".as_slice() {
        return Some(contents(tree, content));
    }
    None
}
