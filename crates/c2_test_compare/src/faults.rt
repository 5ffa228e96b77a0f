// Each fault of a source, of the judge and of the report in turn.
use crate::pairs::{approving, compared, evidence_of, pair_of, row_of};
use c2_base::{Blob, MemSink, MemSource};
use c2_compare::CompareError;
use std::alloc::Global;
use std::process::Abort;
use std::test::Fail;

// The most calls of one object here.
const MOST_CALLS: u64 = 10_000;

// Which object fails at which of its calls, from 1 on; 0 is none.
#[derive(Clone, Copy)]
struct Faults {
    first: u64,
    second: u64,
    judge: u64,
    report: u64,
}

// Compares the files of a row while an object fails, and says whether the call came to its end without a fault. The report holds a
// prefix of the evidence after a fault, and is never finished.
fn ends(
    rt: &impl Abort,
    alloc: Global,
    what: &str,
    at: Faults,
    fault: CompareError,
) -> Result<bool, Fail> {
    let pair = pair_of(alloc, row_of(what))?;
    let mut first = MemSource::new(Blob::from_vec(pair.first), 1_000, at.first);
    let mut second = MemSource::new(Blob::from_vec(pair.second), 1_000, at.second);
    let mut report = MemSink::with_room(alloc, 10_000, at.report)?;
    let mut judges = approving(alloc, at.judge)?;
    let came = compared(
        alloc,
        pair.hash,
        &mut first,
        &mut second,
        &mut judges,
        &mut report,
    );
    let text = evidence_of(alloc, pair.known)?;
    assert!(rt; text.as_bytes().starts_with(report.bytes()));
    assert!(rt; !report.finished());
    match came {
        Ok(_) => {
            assert_eq!(rt; report.bytes(), text.as_bytes());
            Ok(true)
        }
        Err(error) => {
            assert_eq!(rt; error, fault);
            Ok(false)
        }
    }
}

const NONE: Faults = Faults {
    first: 0,
    second: 0,
    judge: 0,
    report: 0,
};

#[test]
fn each_fault_is_told(rt: HostRuntime) -> Result<(), Fail> {
    let alloc = rt.alloc();
    for what in [
        "# other notes under one sum",
        "# swapped bytes of the picture",
    ] {
        let mut done: u64 = 0;
        for n in 1..MOST_CALLS {
            let first = Faults { first: n, ..NONE };
            let second = Faults { second: n, ..NONE };
            let judge = Faults { judge: n, ..NONE };
            let report = Faults { report: n, ..NONE };
            let a = ends(&rt, alloc, what, first, CompareError::ReadFault)?;
            let b = ends(&rt, alloc, what, second, CompareError::ReadFault)?;
            let c = ends(&rt, alloc, what, judge, CompareError::JudgeFault)?;
            let d = ends(&rt, alloc, what, report, CompareError::WriteFault)?;
            if a && b && c && d {
                done = n;
                break;
            }
        }
        // Each of them was called more than a few times before no fault was left.
        assert!(rt; 5 < done);
        assert!(rt; done < MOST_CALLS);
    }
    Ok(())
}
