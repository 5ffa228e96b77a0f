// CBOR items in diagnostic notation.
use crate::line::Line;
use c2_cbor::{decode, decode_whole};
use c2_cbor_write::{encode, encoded_len};
use c2_spec::Cbor;
use c2_test_tables::Trouble;
use std::alloc::Global;

fn show_simple(out: &mut Line, value: u8) {
    match value {
        20 => out.text("false"),
        21 => out.text("true"),
        22 => out.text("null"),
        23 => out.text("undefined"),
        _ => {
            out.text("simple(");
            out.number(u64::from(value));
            out.text(")");
        }
    }
}

// A negative number, whose item has one less than its amount.
fn show_negative(out: &mut Line, n: u64) {
    let amount = u128::from(n).saturating_add(1);
    out.text("-");
    out.debug(&amount);
}

// The bits of a float, with how many they are.
fn show_bits(out: &mut Line, mark: &str, bits: &[u8]) {
    out.text(mark);
    out.text("'");
    out.hex(bits);
    out.text("'");
}

fn show_text(out: &mut Line, text: &str) {
    out.text("\"");
    out.text(text);
    out.text("\"");
}

// An item that has no others inside.
fn show_leaf(out: &mut Line, item: &Cbor) {
    match item {
        Cbor::Uint(n) => out.number(*n),
        Cbor::Nint(n) => show_negative(out, *n),
        Cbor::Bytes(bytes) => show_bits(out, "h", bytes.as_slice()),
        Cbor::Text(text) => show_text(out, text.as_str()),
        Cbor::Simple(value) => show_simple(out, *value),
        Cbor::Half(bits) => show_bits(out, "f16", &bits.to_be_bytes()),
        Cbor::Single(bits) => show_bits(out, "f32", &bits.to_be_bytes()),
        Cbor::Double(bits) => show_bits(out, "f64", &bits.to_be_bytes()),
        _ => {}
    }
}

// The item in diagnostic notation (RFC 8949, section 8); a float as its bits.
fn show(out: &mut Line, item: &Cbor) {
    match item {
        Cbor::List(items) => {
            out.text("[");
            let mut is_first = true;
            for item in items {
                out.between(is_first, ", ");
                is_first = false;
                show(out, item);
            }
            out.text("]");
        }
        Cbor::Map(pairs) => {
            out.text("{");
            let mut is_first = true;
            for pair in pairs {
                out.between(is_first, ", ");
                is_first = false;
                show(out, &pair.0);
                out.text(": ");
                show(out, &pair.1);
            }
            out.text("}");
        }
        Cbor::Tag(n, inner) => {
            out.number(*n);
            out.text("(");
            show(out, inner);
            out.text(")");
        }
        leaf => show_leaf(out, leaf),
    }
}

/// What `decode_whole` says.
pub fn whole(alloc: Global, bytes: &[u8]) -> Result<String, Trouble> {
    let mut out = Line::new(alloc);
    match decode_whole(alloc, bytes) {
        Ok(item) => show(&mut out, &item),
        Err(error) => out.debug(&error),
    }
    out.whole()
}

/// The length of the first item, the item, the bytes that it is written as, and their length.
pub fn prefix(alloc: Global, bytes: &[u8]) -> Result<String, Trouble> {
    let mut out = Line::new(alloc);
    match decode(alloc, bytes) {
        Ok((item, end)) => {
            out.number(end as u64);
            out.text(" ");
            show(&mut out, &item);
            out.text(" ");
            show_written(alloc, &mut out, &item);
        }
        Err(error) => out.debug(&error),
    }
    out.whole()
}

// The bytes that an item is written as, and their length.
fn show_written(alloc: Global, out: &mut Line, item: &Cbor) {
    match encode(alloc, item) {
        Ok(written) => {
            out.hex(written.as_slice());
            if let Some(length) = encoded_len(item) {
                out.text(" ");
                out.debug(&length);
            }
        }
        Err(error) => out.debug(&error),
    }
}
