// How often a comparison reads each byte of its two files.
use crate::counted::CountedSource;
use crate::files::{FILM, PICTURE};
use crate::judges::approving;
use crate::reads::{are_more, by_check};
use c2_base::MemSink;
use c2_compare::compare;
use c2_hash::Sha;
use std::alloc::Global;
use std::test::Fail;

// How often each byte of two files is read where they are compared, and whether there is an answer.
fn by_comparison(
    alloc: Global,
    first: &[u8],
    second: &[u8],
) -> Result<(CountedSource, CountedSource, bool), Fail> {
    let mut one = CountedSource::new(alloc, first)?;
    let mut two = CountedSource::new(alloc, second)?;
    let mut judges = approving(alloc)?;
    let mut report = MemSink::with_room(alloc, 10_000, 0)?;
    let came = compare(alloc, &Sha, &mut one, &mut two, &mut judges, &mut report).is_ok();
    Ok((one, two, came))
}

#[test]
fn a_picture_and_a_film_are_read_as_often_as_their_checks_read_them(
    rt: HostRuntime,
) -> Result<(), Fail> {
    let alloc = rt.alloc();
    let picture = hex::decode(alloc, PICTURE)?;
    let film = hex::decode(alloc, FILM)?;
    let (one, two, came) = by_comparison(alloc, picture.as_slice(), film.as_slice())?;
    assert!(rt; came);
    let (checked, valid) = by_check(alloc, picture.as_slice())?;
    assert!(rt; valid);
    assert!(rt; are_more(one.reads(), checked.reads(), 0, picture.len(), 0));
    let (checked, valid) = by_check(alloc, film.as_slice())?;
    assert!(rt; valid);
    assert!(rt; are_more(two.reads(), checked.reads(), 0, film.len(), 0));
    Ok(())
}
