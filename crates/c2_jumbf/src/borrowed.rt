// A tree of boxes over the bytes that spell it.

ghost use Rattle.c2_jumbf.specs.Parsed.{IsParsed, parsed_prop};

use crate::rows::Row;
use std::marker::Model;

/// A tree of boxes (ISO/IEC 19566-5). It borrows the bytes that spell it and keeps one record of fixed size for each box
/// that has an index, in preorder. Clauses see it as the legal tree that these bytes spell.
#[derive(Drop)]
pub struct Tree<'t> {
    pub(crate) bytes: &'t [u8],
    pub(crate) rows: Vec<Row>,
    // bytes and records are those of one legal tree
    ghost parsed: { IsParsed bytes.now rows.items } by { parsed_prop bytes.now rows.items },
}

impl<'t> Model for Tree<'t> {
    ghost use Rattle.c2_spec.specs.Jumbf.Tree.{Tree};
    ghost use Rattle.c2_spec.proofs.JumbfCode.{tree_code};
    ghost use Rattle.c2_jumbf.specs.Parsed.{IsParsed, parsed_prop};

    ghost Value = { Tree };

    ghost coded = { tree_code };

    ghost view = { λ t. t.parsed.tree };
}
