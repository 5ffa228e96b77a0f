// Texts that are written in pieces. Takes no memory.
ghost use Rattle.std.specs.Prelude.{◌≡◌, ◌*◌, length};
ghost use Rattle.std.specs.List.{flat_map};
ghost use Rattle.hex.specs.Hex.{encode_lower};
ghost use Rattle.c2_base.specs.Sink.{WritesSink};
ghost use Rattle.c2_compare_spec.specs.EvidenceText as form;
ghost use Rattle.c2_compare_evidence.specs.Causes.{IsFailure};
ghost use Rattle.c2_compare_evidence.specs.Writing.{IsWritten, piece_text};

use c2_base::{Failed, Sink, write_all};

// How many bytes are turned into hex digits at a time.
const HEX_PIECE_LEN: usize = 2048;

/// A piece of a text.
#[derive(Clone, Copy, Debug)]
pub enum Piece<'a> {
    /// This text.
    Plain(&'a str),

    /// This text, with a question mark for each control byte.
    Printed(&'a str),

    /// These bytes as hex digits.
    Hex(&'a [u8]),
}

/// A byte as it is printed: a control byte as a question mark.
fn printed_byte(byte: u8) -> u8
    ensures { result ≡ form.printed_byte byte }
{
    if byte < 0x20 || byte == 0x7F {
        b'?'
    } else {
        byte
    }
}

/// Writes these bytes.
fn write_bytes<W: Sink>(report: &mut W, bytes: &[u8]) -> Result<(), Failed>
    ensures wrote { IsWritten bytes.now (W.written report.old) (W.written report.new) result }
    ensures report { WritesSink W.written W.finished W.faults IsFailure report.old report.new
        result }
{
    write_all(report, bytes)
}

/// Writes a text with a question mark for each control byte.
fn write_printed<W: Sink>(report: &mut W, text: &[u8]) -> Result<(), Failed>
    ensures wrote { IsWritten (form.printed text.now) (W.written report.old)
        (W.written report.new) result }
    ensures report { WritesSink W.written W.finished W.faults IsFailure report.old report.new
        result }
{
    let mut done = 0;
    'bytes: while done < text.len() {
        match write_bytes(report, &[printed_byte(text[done])]) {
            Ok(()) => {}
            Err(failed) => return Err(failed),
        }
        done += 1;
    }
    Ok(())
}

/// Writes these bytes as hex digits, through a buffer of the digits' number.
fn write_digits<W: Sink>(report: &mut W, bytes: &[u8], digits: &mut [u8]) -> Result<(), Failed>
    requires { length digits.old ≡ 2 * length bytes.now }
    ensures wrote { IsWritten (encode_lower bytes.now) (W.written report.old)
        (W.written report.new) result }
    ensures report { WritesSink W.written W.finished W.faults IsFailure report.old report.new
        result }
{
    if hex::encode_to_slice(bytes, digits).is_err() {
        return Ok(());
    }
    write_bytes(report, digits)
}

/// Writes bytes as hex digits.
pub fn write_hex<W: Sink>(report: &mut W, bytes: &[u8]) -> Result<(), Failed>
    ensures wrote { IsWritten (encode_lower bytes.now) (W.written report.old)
        (W.written report.new) result }
    ensures report { WritesSink W.written W.finished W.faults IsFailure report.old report.new
        result }
{
    let mut digits = [0; 2 * HEX_PIECE_LEN];
    let mut done = 0;
    'pieces: while done < bytes.len() {
        let count = (bytes.len() - done).min(HEX_PIECE_LEN);
        match write_digits(report, &bytes[done..done + count], &mut digits[..2 * count]) {
            Ok(()) => {}
            Err(failed) => return Err(failed),
        }
        done += count;
    }
    Ok(())
}

/// Writes a piece.
fn write_piece<W: Sink>(report: &mut W, piece: Piece<'_>) -> Result<(), Failed>
    ensures wrote { IsWritten (piece_text piece.entry) (W.written report.old)
        (W.written report.new) result }
    ensures report { WritesSink W.written W.finished W.faults IsFailure report.old report.new
        result }
{
    match piece {
        Piece::Plain(text) => write_bytes(report, text.as_bytes()),
        Piece::Printed(text) => write_printed(report, text.as_bytes()),
        Piece::Hex(bytes) => write_hex(report, bytes),
    }
}

/// Writes pieces, one after the other.
pub fn write_pieces<W: Sink>(report: &mut W, pieces: &[Piece<'_>]) -> Result<(), Failed>
    ensures wrote { IsWritten (flat_map piece_text pieces.now) (W.written report.old)
        (W.written report.new) result }
    ensures report { WritesSink W.written W.finished W.faults IsFailure report.old report.new
        result }
{
    let mut done = 0;
    'pieces: while done < pieces.len() {
        match write_piece(report, pieces[done]) {
            Ok(()) => {}
            Err(failed) => return Err(failed),
        }
        done += 1;
    }
    Ok(())
}
