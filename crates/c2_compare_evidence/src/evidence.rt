// The text of evidence.
ghost use Rattle.std.specs.Prelude.{◌≡◌};
ghost use Rattle.c2_base.specs.Sink.{WritesSink};
ghost use Rattle.c2_compare_spec.specs.Evidence.{ListPair};
ghost use Rattle.c2_compare_spec.specs.EvidenceText as form;
ghost use Rattle.c2_compare_evidence.specs.Causes.{IsFailure};
ghost use Rattle.c2_compare_evidence.specs.Differing.{binder_view, location_view, view};
ghost use Rattle.c2_compare_evidence.specs.Shown.{shown};
ghost use Rattle.c2_compare_evidence.specs.Writing.{IsWritten, later_lines, opening};

use crate::lists::{Binder, Difference, Location};
use crate::pieces::{Piece, write_pieces};
use c2_base::{Failed, Sink};

/// Writes what stands before the location.
pub fn write_opening<W: Sink>(report: &mut W, bound_by: Binder<'_>) -> Result<(), Failed>
    ensures wrote { IsWritten (opening (binder_view bound_by.entry)) (W.written report.old)
        (W.written report.new) result }
    ensures report { WritesSink W.written W.finished W.faults IsFailure report.old report.new
        result }
{
    match bound_by {
        Binder::Digest(name) => {
            let pieces = [
                Piece::Plain("evidence digest "),
                Piece::Plain(name),
                Piece::Plain(" "),
            ];
            write_pieces(report, &pieces)
        }
        Binder::Signature(_) => write_pieces(report, &[Piece::Plain("evidence signature ")]),
    }
}

/// Writes the location of a list.
fn write_location<'a, W: Sink>(report: &mut W, location: Location<'a>) -> Result<(), Failed>
    ensures wrote { IsWritten (form.printed (location_view location.entry)) (W.written report.old)
        (W.written report.new) result }
    ensures report { WritesSink W.written W.finished W.faults IsFailure report.old report.new
        result }
{
    match location {
        Location::Assertion(manifest, label) => {
            let pieces = [
                Piece::Printed("self#jumbf=/c2pa/"),
                Piece::Printed(manifest),
                Piece::Printed("/c2pa.assertions/"),
                Piece::Printed(label),
            ];
            write_pieces(report, &pieces)
        }
        Location::Signature(manifest) => {
            let pieces = [
                Piece::Printed("self#jumbf=/c2pa/"),
                Piece::Printed(manifest),
                Piece::Printed("/c2pa.signature"),
            ];
            write_pieces(report, &pieces)
        }
        Location::Whole(manifest) => {
            let pieces = [
                Piece::Printed("self#jumbf=/c2pa/"),
                Piece::Printed(manifest),
            ];
            write_pieces(report, &pieces)
        }
    }
}

/// Writes the end of the first line and the lines behind it.
fn write_later<'a, W: Sink>(
    report: &mut W,
    bound_by: Binder<'a>,
    left: &'a [u8],
    right: &'a [u8],
) -> Result<(), Failed>
    ensures wrote { IsWritten (later_lines (binder_view bound_by.entry) left.now right.now)
        (W.written report.old) (W.written report.new) result }
    ensures report { WritesSink W.written W.finished W.faults IsFailure report.old report.new
        result }
{
    match bound_by {
        Binder::Digest(_) => {
            let pieces = [
                Piece::Plain("\n"),
                Piece::Hex(left),
                Piece::Plain("\n"),
                Piece::Hex(right),
                Piece::Plain("\n"),
            ];
            write_pieces(report, &pieces)
        }
        Binder::Signature(contents) => {
            let pieces = [
                Piece::Plain("\n"),
                Piece::Hex(contents),
                Piece::Plain("\n"),
                Piece::Hex(left),
                Piece::Plain("\n"),
                Piece::Hex(right),
                Piece::Plain("\n"),
            ];
            write_pieces(report, &pieces)
        }
    }
}

/// Writes the text of evidence. Takes no memory. A report that fails has taken a prefix of it.
pub fn write_evidence<W: Sink>(report: &mut W, found: &Difference<'_>) -> Result<(), Failed>
    ensures wrote { (p : ListPair) → view found.now ≡ shown p
        → IsWritten (form.evidence_text p) (W.written report.old) (W.written report.new) result }
    ensures report { WritesSink W.written W.finished W.faults IsFailure report.old report.new
        result }
{
    match write_opening(report, found.bound_by) {
        Ok(()) => {}
        Err(failed) => return Err(failed),
    }
    match write_location(report, found.location) {
        Ok(()) => {}
        Err(failed) => return Err(failed),
    }
    write_later(report, found.bound_by, found.left, found.right)
}
