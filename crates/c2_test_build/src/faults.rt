// Each fault of a source and of the sink in turn.
use crate::inputs::{Fails, Inputs, NONE, built, worked};
use c2_base::MemSink;
use c2_build::BuildError;
use std::alloc::Global;
use std::process::Abort;
use std::test::Fail;

// The most calls of one object here.
const MOST_CALLS: u64 = 1_000;

// Whether a build comes to its end; if not, this was answered, and the sink has a prefix of the file that isn't finished.
fn ends(
    rt: &impl Abort,
    alloc: Global,
    inputs: &Inputs,
    file: &[u8],
    fails: Fails,
    want: &str,
) -> Result<bool, Fail> {
    let mut out = MemSink::with_room(alloc, 2_000, fails.out)?;
    match built(alloc, inputs, fails, &mut out)? {
        Ok(_) => {
            assert_eq!(rt; out.bytes(), file);
            assert!(rt; out.finished());
            Ok(true)
        }
        Err(error) => {
            let text = format!(in alloc; "{error:?}")?;
            assert_eq!(rt; text.as_str(), want);
            assert!(rt; file.starts_with(out.bytes()));
            assert!(rt; !out.finished());
            Ok(false)
        }
    }
}

#[test]
fn each_fault_is_told(rt: HostRuntime) -> Result<(), Fail> {
    let alloc = rt.alloc();
    let inputs = worked(alloc)?;
    let mut out = MemSink::with_room(alloc, 2_000, 0)?;
    let came: Result<_, BuildError> = built(alloc, &inputs, NONE, &mut out)?;
    assert!(rt; came.is_ok());
    let file = out.bytes();
    let mut done: u64 = 0;
    for n in 1..MOST_CALLS {
        let media = Fails { media: n, ..NONE };
        let definition = Fails {
            definition: n,
            ..NONE
        };
        let message = Fails { message: n, ..NONE };
        let sink = Fails { out: n, ..NONE };
        let a = ends(&rt, alloc, &inputs, file, media, "ReadFault")?;
        let b = ends(&rt, alloc, &inputs, file, definition, "ReadFault")?;
        let c = ends(&rt, alloc, &inputs, file, message, "ReadFault")?;
        let d = ends(&rt, alloc, &inputs, file, sink, "WriteFault")?;
        if a && b && c && d {
            done = n;
            break;
        }
    }
    // Each of them was called more than a few times before no fault was left.
    assert!(rt; 5 < done);
    assert!(rt; done < MOST_CALLS);
    Ok(())
}
