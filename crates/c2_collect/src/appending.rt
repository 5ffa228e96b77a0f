// Bytes, and behind them the manifests of a store that are wanted, appended as they stand.
ghost use Rattle.std.specs.Prelude.{◌≡◌, ◌++◌, ◌<◌, ◌^◌, OnOk, filter, length};
ghost use Rattle.c2_spec.specs.Jumbf.Tree.{trees_bytes};
ghost use Rattle.c2_new_file_spec.specs.Redacting.{redacted_boxes};
ghost use Rattle.c2_collect.specs.Marked.{manifests_in};
ghost use Rattle.c2_collect.specs.Carried.{less_in, wanted_bytes};

use crate::side::Side;
use c2_base::NoMemory;
use c2_parent::Redactions;

/// How many bytes the manifests have that these flags want.
fn wanted_len(side: &Side<'_, '_, '_>, wanted: &[bool]) -> usize
    requires { length wanted.now ≡ length (manifests_in side.now) }
    ensures len { result ≡ length (wanted_bytes wanted.now (manifests_in side.now)) }
    ensures fits { result < 2 ^ 63 }
{
    // Only the prover needs this: all manifests are together no longer than all boxes.
    let _most = side.boxes().len();
    let mut len = 0;
    for (i, is_wanted) in wanted.iter().enumerate() {
        if *is_wanted {
            len += side.manifest(i).len();
        }
    }
    len
}

/// Appends the manifests that these flags want.
fn append_wanted(
    out: &mut Vec<u8>,
    side: &Side<'_, '_, '_>,
    wanted: &[bool],
) -> Result<(), NoMemory>
    requires { length wanted.now ≡ length (manifests_in side.now) }
    ensures { OnOk result (out.new.items
        ≡ out.old.items ++ wanted_bytes wanted.now (manifests_in side.now)) }
{
    for (i, is_wanted) in wanted.iter().enumerate() {
        if *is_wanted {
            out.extend_from_slice(side.manifest(i))?;
        }
    }
    Ok(())
}

/// Appends these bytes, and behind them the manifests that these flags want. The room for them is reserved first.
pub fn append_with(
    out: &mut Vec<u8>,
    front: &[u8],
    side: &Side<'_, '_, '_>,
    wanted: &[bool],
) -> Result<(), NoMemory>
    requires { length wanted.now ≡ length (manifests_in side.now) }
    ensures { OnOk result (out.new.items ≡ out.old.items
        ++ front.now ++ wanted_bytes wanted.now (manifests_in side.now)) }
{
    out.reserve_exact(front.len() + wanted_len(side, wanted))?;
    out.extend_from_slice(front)?;
    append_wanted(out, side, wanted)
}

/// How many manifests these flags want.
pub fn wanted_count(wanted: &[bool]) -> usize
    ensures { result ≡ length (filter (λ is_wanted. is_wanted) wanted.now) }
{
    wanted.iter().filter(|is_wanted| **is_wanted).count()
}

/// Appends the manifests that these flags want, each less what is redacted of it.
fn append_wanted_less<'s>(
    out: &mut Vec<u8>,
    side: &Side<'s, '_, '_>,
    wanted: &[bool],
    redactions: &Redactions<'s>,
) -> Result<(), NoMemory>
    requires { length wanted.now ≡ length (manifests_in side.now) }
    ensures { OnOk result (out.new.items ≡ out.old.items
        ++ wanted_bytes wanted.now (less_in redactions.now side.now)) }
{
    for (i, is_wanted) in wanted.iter().enumerate() {
        if *is_wanted {
            side.append_less(out, i, redactions)?;
        }
    }
    Ok(())
}

/// Appends the boxes of a store, and behind them the manifests of another that these flags want, each manifest less what is redacted of
/// it. The room that they take as they stand is reserved first.
pub fn append_both_less<'s>(
    out: &mut Vec<u8>,
    old: &Side<'s, '_, '_>,
    other: &Side<'s, '_, '_>,
    wanted: &[bool],
    redactions: &Redactions<'s>,
) -> Result<(), NoMemory>
    requires { length wanted.now ≡ length (manifests_in other.now) }
    ensures { OnOk result (out.new.items ≡ out.old.items
        ++ trees_bytes (redacted_boxes redactions.now old.now.boxes)
        ++ wanted_bytes wanted.now (less_in redactions.now other.now)) }
{
    out.reserve_exact(old.boxes().len() + wanted_len(other, wanted))?;
    old.append_boxes_less(out, redactions)?;
    append_wanted_less(out, other, wanted, redactions)
}

/// Appends the manifests of a store that these flags want, each less what is redacted of it. The room that they take as they stand is
/// reserved first.
pub fn append_one_less<'s>(
    out: &mut Vec<u8>,
    side: &Side<'s, '_, '_>,
    wanted: &[bool],
    redactions: &Redactions<'s>,
) -> Result<(), NoMemory>
    requires { length wanted.now ≡ length (manifests_in side.now) }
    ensures { OnOk result (out.new.items ≡ out.old.items
        ++ wanted_bytes wanted.now (less_in redactions.now side.now)) }
{
    out.reserve_exact(wanted_len(side, wanted))?;
    append_wanted_less(out, side, wanted, redactions)
}
