// Bytes of a freed box, in a part of a file.
ghost use Rattle.std.specs.Prelude.{◌≡◌, ◌+◌, ◌-◌, ◌<◌, ◌^◌, length, min, replicate, codes};
ghost use Rattle.c2_without_store.specs.Clears.{written_from};

use c2_bmff_boxes::RootBox;

// The type of free space.
const FREE: [u8; 4] = *b"free";

// How far from the first of these bytes, which stand at `from`, a place is: 0 for one before them, and at most their number.
fn within(bytes: &[u8], from: u64, place: u128) -> usize
    ensures { result ≡ min (place - from) (length bytes.now) }
{
    let count = bytes.len() as u128;
    place.saturating_sub(from as u128).min(count) as usize
}

// Replaces those of these bytes, which stand at `from`, that lie from `start` to `end` by zero bytes.
fn put_zeros(bytes: &mut [u8], from: u64, start: u128, count: u64)
    requires { start + count < 2 ^ 128 }
    ensures { bytes.new ≡ written_from from start (replicate count 0) bytes.old }
{
    let first = within(bytes, from, start);
    let end = within(bytes, from, start + count as u128);
    bytes[first..end].fill(0);
}

// Replaces those of these bytes, which stand at `from`, that lie from `start` on by `free`.
fn put_free(bytes: &mut [u8], from: u64, start: u128)
    requires { start + 4 < 2 ^ 128 }
    ensures { bytes.new ≡ written_from from start (codes "free") bytes.old }
{
    let first = within(bytes, from, start);
    let end = within(bytes, from, start + 4);
    let skipped = within(&FREE, 0, (from as u128).saturating_sub(start));
    let count = end - first;
    bytes[first..end].copy_from_slice(&FREE[skipped..skipped + count]);
}

/// Frees the box of this row in these bytes, which stand at `from` in its file.
pub(crate) fn put_freed(bytes: &mut [u8], from: u64, row: RootBox)
    ensures { bytes.new ≡ written_from from (row.start + row.header)
        (replicate (row.length - row.header) 0)
        (written_from from (row.start + 4) (codes "free") bytes.old) }
{
    let start = row.start as u128;
    put_free(bytes, from, start + 4);
    put_zeros(
        bytes,
        from,
        start + row.header as u128,
        row.length.saturating_sub(row.header),
    );
}
