// Files of the host, and names of what is none.
use crate::files::{run_one, words};
use c2_base::{Failed, HostFile, HostSink, MemSink, Sink, Source, write_all};
use c2_cmd::types::Status;
use c2_judge::Judge;
use std::alloc::Global;
use std::fs;
use std::process::Abort;
use std::test::Fail;

#[test]
fn a_file_is_read_at_its_places(rt: HostRuntime) -> Result<(), Fail> {
    fs::write(&rt, "six", b"abcdef")?;
    let mut file = HostFile::named(&rt, "six");
    assert_eq!(rt; file.size(), Ok(6));
    let mut buf = [b'-'; 8];
    assert_eq!(rt; file.read_at(2, &mut buf), Ok(4));
    assert_eq!(rt; buf.as_slice(), b"cdef----".as_slice());
    assert_eq!(rt; file.read_at(6, &mut buf), Ok(0));
    // The file loses its end while it is open: what was seen at opening isn't there any more.
    fs::write(&rt, "six", b"abc")?;
    assert_eq!(rt; file.size(), Ok(6));
    assert_eq!(rt; file.read_at(2, &mut buf), Err(Failed));
    fs::remove_file(&rt, "six")?;
    Ok(())
}

#[test]
fn a_new_file_is_made_once_and_keeps_what_it_takes(rt: HostRuntime) -> Result<(), Fail> {
    let mut sink = HostSink::named(&rt, "new");
    assert!(rt; fs::metadata(&rt, "new").is_err());
    assert!(rt; write_all(&mut sink, b"ab").is_ok() && write_all(&mut sink, b"cd").is_ok());
    assert_eq!(rt; sink.finish(), Ok(()));
    let mut second = HostSink::named(&rt, "new");
    assert_eq!(rt; second.append(b"e"), Err(Failed));
    assert_eq!(rt; second.finish(), Err(Failed));
    assert_eq!(rt; fs::read(&rt, "new")?.as_slice(), b"abcd".as_slice());
    fs::remove_file(&rt, "new")?;
    assert_eq!(rt; second.finish(), Err(Failed));
    assert!(rt; fs::metadata(&rt, "new").is_err());
    Ok(())
}

fn is_an_input_fault(rt: &impl Abort, alloc: Global, mut media: HostFile) -> Result<(), Fail> {
    let given = words(alloc, &["digest", "P"])?;
    let mut report = MemSink::with_room(alloc, 100, 0)?;
    let mut judges: Vec<Box<dyn Judge>> = Vec::new(alloc);
    assert_eq!(rt;
        run_one(alloc, &given, &mut media, &mut report, &mut judges),
        Status::InputFault
    );
    assert!(rt; report.bytes().is_empty());
    assert!(rt; !report.finished());
    Ok(())
}

#[test]
fn what_is_no_file_is_an_input_fault(rt: HostRuntime) -> Result<(), Fail> {
    let alloc = rt.alloc();
    is_an_input_fault(&rt, alloc, HostFile::absent())?;
    is_an_input_fault(&rt, alloc, HostFile::named(&rt, "no such file"))?;
    is_an_input_fault(&rt, alloc, HostFile::named(&rt, "."))
}
