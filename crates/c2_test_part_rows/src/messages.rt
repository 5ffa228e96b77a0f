// Messages of signatures, and the bytes of questions.
use crate::line::Line;
use crate::read::bytes_of;
use crate::settings::Settings;
use c2_base::{NoMemory, Question};
use c2_sigstruct::{Sign1, is_plain, question, read_sign1};
use c2_test_tables::Trouble;
use std::alloc::Global;

/// The protected header and the signature of a message; the signed bytes and the unprotected header of its question on the claim that
/// is set; and whether it is plain. Or the refusal.
pub fn shown(alloc: Global, settings: &Settings, bytes: &[u8]) -> Result<String, Trouble> {
    let claim = bytes_of(alloc, settings.text("claim"))?;
    let mut out = Line::new(alloc);
    match read_sign1(alloc, bytes) {
        Ok(sign) => {
            match question(alloc, &sign, claim.as_slice()) {
                Ok(question) => show_question(&mut out, &sign, &question),
                Err(NoMemory) => out.cut(),
            }
            show_plain(alloc, &mut out, &sign);
        }
        Err(error) => out.debug(&error),
    }
    out.whole()
}

fn show_question(out: &mut Line, sign: &Sign1, question: &Question) {
    out.hex(sign.protected.as_slice());
    out.text(" ");
    out.hex(question.signature.as_slice());
    out.text(" ");
    out.hex(question.tbs.as_slice());
    out.text(" ");
    out.hex(question.unprotected.as_slice());
}

fn show_plain(alloc: Global, out: &mut Line, sign: &Sign1) {
    match is_plain(alloc, sign) {
        Ok(true) => {}
        Ok(false) => out.text(", not plain"),
        Err(NoMemory) => out.cut(),
    }
}
