// Verdict files.
use crate::line::Line;
use crate::read::bytes_of;
use crate::settings::Settings;
use c2_base::{Blob, Question};
use c2_judge::{Judge, ListJudge, question_id};
use c2_test_tables::Trouble;
use std::alloc::Global;

// A part of the question that is set, empty where there is none.
fn part_of(alloc: Global, part: Option<&str>) -> Result<Blob, Trouble> {
    Ok(Blob::from_vec(bytes_of(alloc, part.unwrap_or(""))?))
}

// The question whose parts are set, a slash between them.
fn question_of(alloc: Global, settings: &Settings) -> Result<Question, Trouble> {
    let mut parts = settings.text("question").split('/');
    Ok(Question {
        tbs: part_of(alloc, parts.next())?,
        signature: part_of(alloc, parts.next())?,
        unprotected: part_of(alloc, parts.next())?,
    })
}

/// The id of the question that is set, and what a verdict file says of it; or the refusal.
pub fn said(alloc: Global, settings: &Settings, bytes: &[u8]) -> Result<String, Trouble> {
    let q = question_of(alloc, settings)?;
    let mut out = Line::new(alloc);
    match ListJudge::read(alloc, bytes) {
        Ok(mut judge) => {
            out.hex(question_id(&q).as_slice());
            out.text(" ");
            out.debug(&judge.ask(&q));
            out.text(", asked ");
            out.number(judge.asked());
        }
        Err(error) => out.debug(&error),
    }
    out.whole()
}
