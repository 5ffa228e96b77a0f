// One run, and what it comes to.
use crate::given::Read;
use crate::judges::{Named, judge_of};
use crate::line::Line;
use crate::settings::{Fault, Hash, Object, Settings};
use crate::sinks::InPieces;
use c2_base::{Blob, MemSink, MemSource, Source, VastSource};
use c2_cmd::run;
use c2_hash::{Alg, Hashing, Sha, WeakSum, digest_of};
use c2_judge::Judge;
use c2_test_tables::Trouble;
use std::alloc::Global;

/// What a run comes to: the status, the report, whether that is finished, how often each judge was asked, the new file, and whether
/// that is finished.
#[derive(Drop)]
pub struct Outcome {
    pub status: u8,
    pub report: String,
    pub finished: bool,
    pub asked: String,
    pub file: Blob,
    pub is_whole: bool,
}

impl Outcome {
    /// The outcome as a row writes it: the status, the lines of the report with ` / ` between them, and what else is to be said.
    pub fn told(&self, alloc: Global) -> Result<String, Trouble> {
        let mut out = Line::new(alloc);
        self.tell(&mut out);
        out.whole()
    }

    /// Appends the outcome as a row writes it.
    pub fn tell(&self, out: &mut Line) {
        out.number(u64::from(self.status));
        out.text(" ");
        tell_report(out, self.report.as_str());
        if !self.finished {
            out.text(", not finished");
        }
        if !self.asked.is_empty() {
            out.text(", asked ");
            out.text(self.asked.as_str());
        }
        tell_file(out, self.file.as_slice(), self.is_whole);
    }
}

// The most bytes of a report that is told as it stands.
const MOST_TOLD: usize = 100_000;

// Appends what a new file is, unless nothing was done to it.
fn tell_file(out: &mut Line, file: &[u8], is_whole: bool) {
    if file.is_empty() && !is_whole {
        return;
    }
    out.text(", out ");
    tell_digest(out, file);
    if !is_whole {
        out.text(", not finished");
    }
}

// Appends the length of bytes and their SHA-256 digest.
fn tell_digest(out: &mut Line, bytes: &[u8]) {
    out.number(bytes.len() as u64);
    out.text(" ");
    out.hex(digest_of(&Sha, Alg::Sha256, bytes).as_slice());
}

// Appends a report; a long one by its length and its digest.
fn tell_report(out: &mut Line, report: &str) {
    if report.is_empty() {
        out.text("nothing");
        return;
    }
    if report.len() > MOST_TOLD {
        out.text("report ");
        tell_digest(out, report.as_bytes());
        return;
    }
    match report.strip_suffix('\n') {
        Some(lines) => tell_lines(out, lines),
        None => {
            tell_lines(out, report);
            out.text(", cut");
        }
    }
}

// Appends lines with ` / ` between them.
fn tell_lines(out: &mut Line, lines: &str) {
    let mut is_first = true;
    for line in lines.split('\n') {
        if !is_first {
            out.text(" / ");
        }
        is_first = false;
        out.text(line);
    }
}

// A file that is read in pieces of this length and fails at this call; at its first, where there is no file.
fn source_of(
    alloc: Global,
    file: Option<&[u8]>,
    most: usize,
    fail_at: u64,
) -> Result<MemSource, Trouble> {
    let fail_at = if file.is_some() { fail_at } else { 1 };
    let bytes = Blob::copied(alloc, file.unwrap_or(&[]))?;
    Ok(MemSource::new(bytes, most.max(1), fail_at))
}

// A sink of this room that takes so many bytes a call and fails at this one; at its first, where there is no room for it.
fn sink_of(
    alloc: Global,
    room: Option<usize>,
    most: usize,
    fail_at: u64,
) -> Result<InPieces<MemSink>, Trouble> {
    let fail_at = if room.is_some() { fail_at } else { 1 };
    let sink = MemSink::with_room(alloc, room.unwrap_or(0), fail_at)?;
    Ok(InPieces { sink, most })
}

/// Runs the words over files, where an object fails.
pub fn run_once(
    alloc: Global,
    settings: &Settings,
    read: Read,
    fault: Fault,
) -> Result<Outcome, Trouble> {
    if let Some(size) = settings.size {
        return run_vast(alloc, settings, size, read, fault);
    }
    let fail_at = fault.of(Object::Media);
    let mut media = source_of(alloc, Some(read.first), read.pieces.0, fail_at)?;
    match settings.hash {
        Hash::Sha => run_over(alloc, &Sha, settings, &mut media, read, fault),
        Hash::WeakSum => run_over(alloc, &WeakSum, settings, &mut media, read, fault),
    }
}

// Runs the words over files whose first is the front of one of so many bytes, where an object fails.
fn run_vast(
    alloc: Global,
    settings: &Settings,
    size: usize,
    read: Read,
    fault: Fault,
) -> Result<Outcome, Trouble> {
    let front = Blob::copied(alloc, read.first)?;
    if size < read.first.len() || settings.hash != Hash::Sha {
        return Err(Trouble::BadLine);
    }
    let mut media = VastSource::new(front, size as u64);
    run_over(alloc, &Sha, settings, &mut media, read, fault)
}

// Runs the words over this first file.
fn run_over<H: Hashing, A: Source>(
    alloc: Global,
    hashing: &H,
    settings: &Settings,
    media: &mut A,
    read: Read,
    fault: Fault,
) -> Result<Outcome, Trouble> {
    let mut judges: Vec<Box<dyn Judge>> = Vec::new(alloc);
    for name in settings.judges.as_str().split_whitespace() {
        match judge_of(alloc, name, fault.of(Object::Judge))? {
            Named::Fixed(judge) => judges.push(Box::new(alloc, judge)?)?,
            Named::Broken(judge) => judges.push(Box::new(alloc, judge)?)?,
            Named::Listed(judge) => judges.push(Box::new(alloc, judge)?)?,
        }
    }
    let mut objects = objects_of(alloc, settings, read, fault)?;
    run_before(
        alloc,
        hashing,
        &settings.words,
        media,
        &mut objects,
        &mut judges,
    )
}

// What a run reads and writes beside its first file.
#[derive(Drop)]
struct Objects {
    second: MemSource,
    third: MemSource,
    fourth: MemSource,
    out: InPieces<MemSink>,
    report: InPieces<MemSink>,
}

// The other files, the new file and the report.
fn objects_of(
    alloc: Global,
    settings: &Settings,
    read: Read,
    fault: Fault,
) -> Result<Objects, Trouble> {
    let (most, other) = read.pieces;
    Ok(Objects {
        second: source_of(alloc, read.second, other, fault.of(Object::Second))?,
        third: source_of(alloc, read.third, other, fault.of(Object::Third))?,
        fourth: source_of(alloc, read.fourth, other, fault.of(Object::Fourth))?,
        out: sink_of(alloc, settings.out, most, fault.of(Object::Out))?,
        report: sink_of(alloc, Some(settings.room), most, fault.of(Object::Report))?,
    })
}

// Runs the words over this first file and these objects, before these judges.
fn run_before<H: Hashing, A: Source>(
    alloc: Global,
    hashing: &H,
    words: &Vec<String>,
    media: &mut A,
    objects: &mut Objects,
    judges: &mut Vec<Box<dyn Judge>>,
) -> Result<Outcome, Trouble> {
    let status = run(
        alloc,
        hashing,
        words,
        media,
        &mut objects.second,
        &mut objects.third,
        &mut objects.fourth,
        &mut objects.out,
        &mut objects.report,
        judges,
    );
    outcome_of(alloc, status.code(), objects, judges)
}

// The outcome of a run.
fn outcome_of(
    alloc: Global,
    status: u8,
    objects: &Objects,
    judges: &Vec<Box<dyn Judge>>,
) -> Result<Outcome, Trouble> {
    let (report, out) = (&objects.report.sink, &objects.out.sink);
    let text = str::from_utf8(report.bytes()).unwrap_or("no text");
    Ok(Outcome {
        status,
        report: String::from_str(alloc, text)?,
        finished: report.finished(),
        asked: asks_of(alloc, judges)?,
        file: Blob::copied(alloc, out.bytes())?,
        is_whole: out.finished(),
    })
}

// How often each judge was asked.
fn asks_of(alloc: Global, judges: &Vec<Box<dyn Judge>>) -> Result<String, Trouble> {
    let mut asked = Line::new(alloc);
    let mut gap = "";
    for judge in judges.iter() {
        asked.text(gap);
        gap = " ";
        asked.number(judge.asked());
    }
    asked.whole()
}
