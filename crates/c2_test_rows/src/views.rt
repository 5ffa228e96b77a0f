// What a row comes to.
use crate::bytes::one_more;
use crate::given::Read;
use crate::line::Line;
use crate::once::{Outcome, run_once};
use crate::settings::{Fault, Object, Settings, View};
use c2_cmd::roles;
use c2_test_tables::Trouble;
use std::alloc::Global;

// The most calls of one object.
const MOST_CALLS: u64 = 10_000;

/// What a row comes to in its view, over these files.
pub fn view(alloc: Global, settings: &Settings, read: Read) -> Result<String, Trouble> {
    match settings.view {
        View::Run => told(alloc, settings, read),
        View::EachCall => each_call(alloc, settings, read),
        View::Prefixes => prefixes(alloc, settings, read),
        View::Changes => changes(alloc, settings, read),
        View::Roles => roles_of(alloc, settings),
    }
}

// The roles of the words.
fn roles_of(alloc: Global, settings: &Settings) -> Result<String, Trouble> {
    let mut out = Line::new(alloc);
    out.debug(&roles(alloc, &settings.words));
    out.whole()
}

// The run over these files.
fn whole(alloc: Global, settings: &Settings, read: Read) -> Result<Outcome, Trouble> {
    run_once(alloc, settings, read, settings.fault)
}

// What the run over these files comes to.
fn told(alloc: Global, settings: &Settings, read: Read) -> Result<String, Trouble> {
    let outcome = whole(alloc, settings, read)?;
    outcome.told(alloc)
}

// The status of the run over these files.
fn status_of(alloc: Global, settings: &Settings, read: Read) -> Result<u8, Trouble> {
    let outcome = whole(alloc, settings, read)?;
    Ok(outcome.status)
}

// Lets an object fail at each of its calls in turn, until none fails, and compares each with the run in which nothing fails.
fn each_call(alloc: Global, settings: &Settings, read: Read) -> Result<String, Trouble> {
    let wanted = whole(alloc, settings, read)?;
    let object = settings.fault.object;
    for call in 1..MOST_CALLS {
        let got = run_once(alloc, settings, read, Fault { object, call })?;
        if got.status != settings.status {
            return last_call(alloc, settings, &wanted, &got, call);
        }
        if !is_fault(settings, &wanted, &got) {
            return failed_call(alloc, &got, call);
        }
    }
    Ok(String::from_str(alloc, "no run without a fault")?)
}

// What a run comes to that leaves, where a call fails, what it may not.
fn failed_call(alloc: Global, got: &Outcome, call: u64) -> Result<String, Trouble> {
    let mut out = Line::new(alloc);
    got.tell(&mut out);
    out.text(" where call ");
    out.number(call);
    out.text(" fails");
    out.whole()
}

// What a run comes to in which no call failed, and where the object had fewer than this: it is the same as where nothing fails.
fn last_call(
    alloc: Global,
    settings: &Settings,
    wanted: &Outcome,
    got: &Outcome,
    call: u64,
) -> Result<String, Trouble> {
    let wanted = wanted.told(alloc)?;
    let got = got.told(alloc)?;
    if got.as_str() != wanted.as_str() {
        return counted(alloc, got.as_str(), " with ", call);
    }
    if call <= settings.least {
        return counted(alloc, got.as_str(), " with fewer than ", call);
    }
    Ok(wanted)
}

// What a run comes to with a number of calls that it may not have.
fn counted(alloc: Global, got: &str, with: &str, call: u64) -> Result<String, Trouble> {
    let mut out = Line::new(alloc);
    out.text(got);
    out.text(with);
    out.number(call);
    out.text(" calls");
    out.whole()
}

// Whether a run with a fault leaves what it may.
fn is_fault(settings: &Settings, whole: &Outcome, got: &Outcome) -> bool {
    let report = got.report.as_str();
    let is_part = settings.part && whole.report.as_str().starts_with(report);
    let asked = settings.asked.as_str();
    let is_asked = asked.split(' ').any(|times| times == got.asked.as_str());
    let is_report = !got.finished && (report.is_empty() || is_part);
    is_report && (asked.is_empty() || is_asked) && has_file(settings, whole, got)
}

// Whether the new file is a part of the whole one that isn't finished; where the report fails, it is the whole one.
fn has_file(settings: &Settings, whole: &Outcome, got: &Outcome) -> bool {
    let (whole_file, file) = (whole.file.as_slice(), got.file.as_slice());
    if let Object::Report = settings.fault.object {
        return file == whole_file && got.is_whole == whole.is_whole;
    }
    !got.is_whole && whole_file.starts_with(file)
}

// What the runs over each prefix of the first file but itself come to, and from which length on.
fn prefixes(alloc: Global, settings: &Settings, read: Read) -> Result<String, Trouble> {
    let mut lengths = Line::new(alloc);
    let mut last = String::new(alloc);
    for length in 0..read.first.len() {
        let first = read.first.get(..length).unwrap_or(&[]);
        let told = prefix(alloc, settings, Read { first, ..read })?;
        if told.as_str() != last.as_str() {
            tell_from(&mut lengths, length, told.as_str());
        }
        last = told;
    }
    lengths.whole()
}

// Appends what runs come to from a length on.
fn tell_from(lengths: &mut Line, length: usize, told: &str) {
    if length > 0 {
        lengths.text("; ");
    }
    lengths.text("from ");
    lengths.number(length as u64);
    lengths.text(" on ");
    lengths.text(told);
}

// What the run over a prefix comes to.
fn prefix(alloc: Global, settings: &Settings, read: Read) -> Result<String, Trouble> {
    let mut outcome = whole(alloc, settings, read)?;
    if let Some(report) = by_length(alloc, outcome.report.as_str(), read.first.len())? {
        outcome.report = report;
    }
    outcome.told(alloc)
}

// A report whose last word is the length of the file, with `N` in its place; none where it is no such report, or the file is empty.
fn by_length(alloc: Global, report: &str, length: usize) -> Result<Option<String>, Trouble> {
    let mut end = Line::new(alloc);
    end.text(" ");
    end.number(length as u64);
    end.text("\n");
    let end = end.whole()?;
    let Some(front) = report.strip_suffix(end.as_str()) else {
        return Ok(None);
    };
    if length == 0 {
        return Ok(None);
    }
    let mut out = Line::new(alloc);
    out.text(front);
    out.text(" N\n");
    Ok(Some(out.whole()?))
}

// The statuses of the runs over the first file, where one byte is one more.
fn changes(alloc: Global, settings: &Settings, read: Read) -> Result<String, Trouble> {
    let mut statuses = Line::new(alloc);
    let (before, behind) = settings.around;
    for place in before..read.first.len().saturating_sub(behind) {
        let status = changed_at(alloc, settings, read, place)?;
        statuses.number(u64::from(status));
    }
    statuses.whole()
}

// The status of the run over the first file, where the byte at a place is one more.
fn changed_at(alloc: Global, settings: &Settings, read: Read, place: usize) -> Result<u8, Trouble> {
    let changed = one_more(alloc, read.first, place)?;
    let first = changed.as_slice();
    status_of(alloc, settings, Read { first, ..read })
}
