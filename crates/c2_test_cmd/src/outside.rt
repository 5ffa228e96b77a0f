// Sources, sinks and judges by themselves.
use c2_base::{
    Blob, Failed, MemSink, Question, ReadAllError, Sink, SureSource, Text, read_all, write_all,
};
use c2_judge::{FixedJudge, Judge, JudgeFailed, Verdict};
use std::test::Fail;

#[test]
fn read_all_takes_no_more_than_asked_for(rt: HostRuntime) -> Result<(), Fail> {
    let alloc = rt.alloc();
    let mut source = SureSource::new(Blob::copied(alloc, b"0123456789")?);
    match read_all(alloc, &mut source, 9) {
        Err(error) => assert_eq!(rt; error, ReadAllError::TooLong(10)),
        Ok(_) => assert!(rt; false, "ten bytes are more than nine"),
    }
    let all = read_all(alloc, &mut source, 10);
    assert!(rt; all.is_ok_and(|bytes| bytes.as_slice() == b"0123456789".as_slice()));
    Ok(())
}

#[test]
fn a_full_sink_fails_and_keeps_what_it_has(rt: HostRuntime) -> Result<(), Fail> {
    let mut sink = MemSink::with_room(rt.alloc(), 4, 0)?;
    assert_eq!(rt; write_all(&mut sink, b"abc"), Ok(()));
    assert_eq!(rt; write_all(&mut sink, b"de"), Err(Failed));
    assert_eq!(rt; sink.bytes(), b"abcd".as_slice());
    assert_eq!(rt; sink.finish(), Ok(()));
    assert!(rt; sink.finished());
    Ok(())
}

#[test]
fn texts_are_kept(rt: HostRuntime) -> Result<(), Fail> {
    let alloc = rt.alloc();
    let text = Text::copied(alloc, "é")?;
    assert_eq!(rt; text.as_str(), "é");
    let longest_inside = Text::copied(alloc, "fourteen bytes")?;
    assert_eq!(rt; longest_inside.as_str(), "fourteen bytes");
    let apart = Text::copied(alloc, "fifteen letters")?;
    assert_eq!(rt; apart.as_str(), "fifteen letters");
    Ok(())
}

#[test]
fn a_judge_fails_at_the_ask_that_was_set(rt: HostRuntime) -> Result<(), Fail> {
    let alloc = rt.alloc();
    let q = Question {
        tbs: Blob::copied(alloc, b"")?,
        signature: Blob::copied(alloc, b"")?,
        unprotected: Blob::copied(alloc, b"")?,
    };
    let mut judge = FixedJudge::new(Verdict::Approved, 2);
    assert_eq!(rt; judge.ask(&q), Ok(Verdict::Approved));
    assert_eq!(rt; judge.ask(&q), Err(JudgeFailed));
    assert_eq!(rt; judge.ask(&q), Ok(Verdict::Approved));
    assert_eq!(rt; judge.asked(), 3);
    Ok(())
}
