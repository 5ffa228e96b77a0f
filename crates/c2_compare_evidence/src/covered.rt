// The covered texts of two files.
ghost use Rattle.std.specs.Prelude.{◌≡◌, ◌<◌, length, IfOk, IfErr};
ghost use Rattle.std.specs.Option.{ForSome};
ghost use Rattle.hex.specs.Hex.{encode_lower};
ghost use Rattle.c2_base.specs.Sink.{WritesSink};
ghost use Rattle.c2_base.specs.Source.{ReadsSource};
ghost use Rattle.c2_cover.specs.Covers.{IsSameText, text_of};
ghost use Rattle.c2_compare_spec.specs.EvidenceText.{hex_line};
ghost use Rattle.c2_compare_evidence.specs.Causes.{IsFailure, IsFault, IsLoneCause, IsOfReading};
ghost use Rattle.c2_compare_evidence.specs.Causes.{IsReadCauseBeside, IsUnjudged, IsReportCause};
ghost use Rattle.c2_compare_evidence.specs.Covered.{covered_evidence, covered_head};
ghost use Rattle.c2_compare_evidence.specs.Writing.{IsWritten};

use crate::error::CompareError;
use crate::pieces::{Piece, write_hex, write_pieces};
use c2_base::limits::PIECE_LEN;
use c2_base::{Failed, Sink, Source};
use c2_cover::{Cover, CoveredReader, same_text};
use std::alloc::Global;

/// The covered texts of two files that one active claim binds.
#[derive(Clone, Copy)]
pub struct CoveredTexts<'c> {
    /// The name of the algorithm of their digest.
    pub alg: &'c str,

    /// What the first file's binding covers of it.
    pub left: &'c Cover,

    /// What the second file's binding covers of it.
    pub right: &'c Cover,
}

/// Whether two covered texts are equal. They are read in pieces, side by side.
///
/// `ReadFault` comes only where one of the two sources failed in this call, `WriteFault` and `JudgeFault` never.
pub fn same_covered<A: Source, B: Source>(
    alloc: Global,
    first: &mut A,
    cover: &Cover,
    second: &mut B,
    other: &Cover,
) -> Result<bool, CompareError>
    requires size { A.len first.old ≡ cover.now.size }
    requires other_size { B.len second.old ≡ other.now.size }
    ensures same { IfOk result
        (IsSameText cover.now (A.known first.old) other.now (B.known second.old)) }
    ensures errors { IfErr result IsOfReading }
    ensures first { ReadsSource A.len A.known A.faults
        (IsReadCauseBeside (B.faults second.old) (B.faults second.new)) first.old first.new result }
    ensures second { ReadsSource B.len B.known B.faults
        (IsReadCauseBeside (A.faults first.old) (A.faults first.new)) second.old second.new result }
{
    let mut left = match vec![in alloc; 0; PIECE_LEN] {
        Ok(left) => left,
        Err(_) => return Err(CompareError::NoMemory),
    };
    let mut right = match vec![in alloc; 0; PIECE_LEN] {
        Ok(right) => right,
        Err(_) => return Err(CompareError::NoMemory),
    };
    match same_text(first, cover, second, other, &mut left, &mut right) {
        Ok(same) => Ok(same),
        Err(Failed) => Err(CompareError::ReadFault),
    }
}

/// Writes a covered text as hex digits, read in pieces through a buffer that isn't empty.
fn write_text<S: Source, W: Sink>(
    source: &mut S,
    cover: &Cover,
    buf: &mut [u8],
    report: &mut W,
) -> Result<(), CompareError>
    requires room { 0 < length buf.old }
    requires size { S.len source.old ≡ cover.now.size }
    ensures wrote { ForSome (S.known source.old) (λ file. IsWritten
        (encode_lower (text_of cover.now file))
        (W.written report.old) (W.written report.new) result) }
    ensures errors { IfErr result IsFault }
    ensures source { ReadsSource S.len S.known S.faults IsLoneCause source.old source.new result }
    ensures report { WritesSink W.written W.finished W.faults IsReportCause report.old report.new
        result }
    ensures same_len { length buf.new ≡ length buf.old }
{
    let mut reader = CoveredReader::new(cover);
    'pieces: loop {
        let count = match reader.next(source, buf) {
            Ok(count) => count,
            Err(Failed) => return Err(CompareError::ReadFault),
        };
        if count == 0 {
            break;
        }
        match write_hex(report, &buf[..count]) {
            Ok(()) => {}
            Err(Failed) => return Err(CompareError::WriteFault),
        }
    }
    Ok(())
}

/// Writes a covered text as a line of hex digits.
fn write_line<S: Source, W: Sink>(
    source: &mut S,
    cover: &Cover,
    buf: &mut [u8],
    report: &mut W,
) -> Result<(), CompareError>
    requires room { 0 < length buf.old }
    requires size { S.len source.old ≡ cover.now.size }
    ensures wrote { ForSome (S.known source.old) (λ file. IsWritten
        (hex_line (text_of cover.now file)) (W.written report.old) (W.written report.new) result) }
    ensures errors { IfErr result IsFault }
    ensures source { ReadsSource S.len S.known S.faults IsLoneCause source.old source.new result }
    ensures report { WritesSink W.written W.finished W.faults IsReportCause report.old report.new
        result }
    ensures same_len { length buf.new ≡ length buf.old }
{
    // Matched and not handed up by `?`, here and below: each way out has clauses of its own.
    match write_text(source, cover, buf, report) {
        Ok(()) => {}
        Err(error) => return Err(error),
    }
    match write_pieces(report, &[Piece::Plain("\n")]) {
        Ok(()) => Ok(()),
        Err(Failed) => Err(CompareError::WriteFault),
    }
}

/// Writes the first line of evidence on covered texts.
fn write_head<W: Sink>(report: &mut W, alg: &str) -> Result<(), Failed>
    ensures wrote { IsWritten (covered_head alg.now) (W.written report.old) (W.written report.new)
        result }
    ensures report { WritesSink W.written W.finished W.faults IsFailure report.old report.new
        result }
{
    let head = [
        Piece::Plain("evidence digest "),
        Piece::Plain(alg),
        Piece::Plain(" covered\n"),
    ];
    write_pieces(report, &head)
}

/// Writes evidence on the covered texts of two files: the first line, and each text as a line of hex digits. Each is read a
/// second time, by a reader of its own.
///
/// `ReadFault` comes only where one of the two sources failed in this call, `WriteFault` only where the report did. After an error a prefix
/// of the text is written. `JudgeFault` never comes.
pub fn write_covered<A: Source, B: Source, W: Sink>(
    alloc: Global,
    first: &mut A,
    second: &mut B,
    texts: &CoveredTexts<'_>,
    report: &mut W,
) -> Result<(), CompareError>
    requires size { A.len first.old ≡ texts.now.left.now.size }
    requires other_size { B.len second.old ≡ texts.now.right.now.size }
    ensures wrote { ForSome (A.known first.old) (λ file. ForSome (B.known second.old) (λ copy.
        let left = text_of texts.now.left.now file in
        let right = text_of texts.now.right.now copy in
        IsWritten (covered_evidence texts.now.alg.now left right)
        (W.written report.old) (W.written report.new) result)) }
    ensures errors { IfErr result IsUnjudged }
    ensures first { ReadsSource A.len A.known A.faults
        (IsReadCauseBeside (B.faults second.old) (B.faults second.new)) first.old first.new result }
    ensures second { ReadsSource B.len B.known B.faults
        (IsReadCauseBeside (A.faults first.old) (A.faults first.new)) second.old second.new result }
    ensures report { WritesSink W.written W.finished W.faults IsReportCause report.old report.new
        result }
{
    let mut buf = match vec![in alloc; 0; PIECE_LEN] {
        Ok(buf) => buf,
        Err(_) => return Err(CompareError::NoMemory),
    };
    match write_head(report, texts.alg) {
        Ok(()) => {}
        Err(Failed) => return Err(CompareError::WriteFault),
    }
    match write_line(first, texts.left, &mut buf, report) {
        Ok(()) => {}
        Err(error) => return Err(error),
    }
    write_line(second, texts.right, &mut buf, report)
}
