// Command lines, and runs over one file.
use c2_base::{HostFile, MemSink, Source};
use c2_cmd::run;
use c2_cmd::types::Status;
use c2_hash::Sha;
use c2_judge::Judge;
use std::alloc::{AllocError, Global};

/// A command line.
pub fn words(alloc: Global, texts: &[&str]) -> Result<Vec<String>, AllocError> {
    let mut words = Vec::new(alloc);
    for text in texts {
        words.push(String::from_str(alloc, text)?)?;
    }
    Ok(words)
}

/// Runs a command over one file. A second, a third, a fourth and a new file would fail at each call.
pub fn run_one<A: Source>(
    alloc: Global,
    given: &Vec<String>,
    media: &mut A,
    report: &mut MemSink,
    judges: &mut Vec<Box<dyn Judge>>,
) -> Status {
    let mut second = HostFile::absent();
    let mut third = HostFile::absent();
    let mut fourth = HostFile::absent();
    let Ok(mut out) = MemSink::with_room(alloc, 0, 1) else {
        return Status::NoMemory;
    };
    run(
        alloc,
        &Sha,
        given,
        media,
        &mut second,
        &mut third,
        &mut fourth,
        &mut out,
        report,
        judges,
    )
}
