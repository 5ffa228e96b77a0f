//! The command line of `c2`: it makes the real objects and calls `run`.
#![tactic(auto)]

use c2_base::limits::MAX_INPUT_LEN;
use c2_base::{HostFile, HostOut, HostSink, NoMemory, ReadAllError, read_all};
use c2_cmd::types::{Command, Roles, RolesError, Status};
use c2_cmd::{roles, run};
use c2_hash::Sha;
use c2_judge::{BrokenJudge, FixedJudge, Judge, ListError, ListJudge, Verdict};
use std::alloc::Global;
use std::env;
use std::io::ErrorKind;
use std::process::ExitCode;

fn main(rt: HostRuntime) -> ExitCode {
    let status = match run_words(&rt, rt.alloc()) {
        Ok(status) => status,
        Err(NoMemory) => Status::NoMemory,
    };
    ExitCode::from(status.code())
}

// Runs the words of the command line. Where none of them names a new file, no file can be made.
fn run_words(rt: &HostRuntime, alloc: Global) -> Result<Status, NoMemory> {
    let words = words_of(rt, alloc)?;
    let roles = match roles(alloc, &words) {
        Ok(roles) => Some(roles),
        Err(RolesError::Usage) => None,
        Err(RolesError::NoMemory) => return Err(NoMemory),
    };
    match name_at(&words, roles.and_then(|roles| roles.out)) {
        Some(name) => run_into(rt, alloc, &words, roles, HostSink::named(rt, name)),
        None => run_into(rt, alloc, &words, roles, HostSink::absent()),
    }
}

// Runs words with these roles over the files that they name, with a verdict file for each judge; what they write goes into `out`. The
// file that `sample` builds is checked with one judge, who approves.
fn run_into(
    rt: &HostRuntime,
    alloc: Global,
    words: &Vec<String>,
    roles: Option<Roles>,
    mut out: HostSink<'_, HostRuntime>,
) -> Result<Status, NoMemory> {
    let first_judge = roles.map_or(words.len(), |roles| roles.judges);
    let mut judges: Vec<Box<dyn Judge>> = Vec::new(alloc);
    for name in words.iter().skip(first_judge) {
        match judge_of(rt, alloc, name.as_str())? {
            Some(judge) => judges.push(Box::new(alloc, judge)?)?,
            None => judges.push(Box::new(alloc, BrokenJudge::new())?)?,
        }
    }
    if roles.is_some_and(|roles| roles.command == Command::Sample) {
        judges.push(Box::new(alloc, FixedJudge::new(Verdict::Approved, 0))?)?;
    }
    let mut media = file_at(rt, words, roles.and_then(|roles| roles.media));
    let mut second = file_at(rt, words, roles.and_then(|roles| roles.second));
    let mut third = file_at(rt, words, roles.and_then(|roles| roles.third));
    let mut fourth = file_at(rt, words, roles.and_then(|roles| roles.fourth));
    let mut report = HostOut::standard(rt.stdout());
    Ok(run(
        alloc,
        &Sha,
        words,
        &mut media,
        &mut second,
        &mut third,
        &mut fourth,
        &mut out,
        &mut report,
        &mut judges,
    ))
}

// The words after the program's name, and none where one of them isn't text.
fn words_of(rt: &HostRuntime, alloc: Global) -> Result<Vec<String>, NoMemory> {
    let args = match env::args(rt) {
        Ok(args) => args,
        Err(error) if error.kind() == ErrorKind::OutOfMemory => return Err(NoMemory),
        Err(_) => return Ok(Vec::new(alloc)),
    };
    let mut words = Vec::new(alloc);
    for word in args.skip(1) {
        words.push(word)?;
    }
    Ok(words)
}

// The word at this place, where there is one.
fn name_at(words: &Vec<String>, place: Option<usize>) -> Option<&str> {
    match words.get(place?) {
        Some(name) => Some(name.as_str()),
        None => None,
    }
}

// The file that the word at this place names, and an absent one where no word does.
fn file_at(rt: &HostRuntime, words: &Vec<String>, place: Option<usize>) -> HostFile {
    match name_at(words, place) {
        Some(name) => HostFile::named(rt, name),
        None => HostFile::absent(),
    }
}

// The judge by the verdict file of this name; none where it can't be read or isn't one.
fn judge_of(rt: &HostRuntime, alloc: Global, name: &str) -> Result<Option<ListJudge>, NoMemory> {
    let mut file = HostFile::named(rt, name);
    let bytes = match read_all(alloc, &mut file, MAX_INPUT_LEN) {
        Ok(bytes) => bytes,
        Err(ReadAllError::NoMemory) => return Err(NoMemory),
        Err(_) => return Ok(None),
    };
    match ListJudge::read(alloc, bytes.as_slice()) {
        Ok(judge) => Ok(Some(judge)),
        Err(ListError::NoMemory) => Err(NoMemory),
        Err(_) => Ok(None),
    }
}
