// What a row is of.
use crate::line::{Line, shown};
use crate::read::bytes_of;
use crate::settings::Settings;
use crate::{claims, covers, fields, films, items, media, messages, stores, trees, uris, verdicts};
use c2_assertion::kind;
use c2_hash::{Sha, digest_of};
use c2_pad::fill;
use c2_test_tables::Trouble;
use std::alloc::Global;

/// What is said of an input.
#[derive(Clone, Copy)]
enum Shown {
    /// What is said of a text.
    Text(TextView),

    /// What is said of bytes.
    Bytes(BytesView),

    /// What is said of a file that is read in pieces.
    File(media::FileView),
}

/// What is said of a text.
#[derive(Clone, Copy)]
enum TextView {
    LabelKind,
    Uri,
    BaseLabel,
    Path,
    Fill,
    Ranges,
    Counts,
}

/// What is said of bytes.
#[derive(Clone, Copy)]
enum BytesView {
    Digest,
    VerdictFile,
    Item,
    Prefix,
    Boxes,
    OneBox,
    Find,
    Store,
    Claim,
    DataHash,
    BmffHash,
    Ingredient,
    Written(fields::Field),
    Message,
    DataCover,
    BmffCover,
}

// The views by their names.
const VIEWS: [(&str, Shown); 40] = [
    ("label kind", Shown::Text(TextView::LabelKind)),
    ("uri", Shown::Text(TextView::Uri)),
    ("base label", Shown::Text(TextView::BaseLabel)),
    ("path", Shown::Text(TextView::Path)),
    ("fill", Shown::Text(TextView::Fill)),
    ("ranges", Shown::Text(TextView::Ranges)),
    ("counts", Shown::Text(TextView::Counts)),
    ("digest", Shown::Bytes(BytesView::Digest)),
    ("verdict file", Shown::Bytes(BytesView::VerdictFile)),
    ("item", Shown::Bytes(BytesView::Item)),
    ("prefix", Shown::Bytes(BytesView::Prefix)),
    ("boxes", Shown::Bytes(BytesView::Boxes)),
    ("box", Shown::Bytes(BytesView::OneBox)),
    ("find", Shown::Bytes(BytesView::Find)),
    ("store", Shown::Bytes(BytesView::Store)),
    ("claim", Shown::Bytes(BytesView::Claim)),
    ("data hash", Shown::Bytes(BytesView::DataHash)),
    ("bmff hash", Shown::Bytes(BytesView::BmffHash)),
    ("ingredient", Shown::Bytes(BytesView::Ingredient)),
    (
        "data hash written",
        Shown::Bytes(BytesView::Written(fields::Field::DataHash)),
    ),
    (
        "bmff hash written",
        Shown::Bytes(BytesView::Written(fields::Field::BmffHash)),
    ),
    (
        "ingredient written",
        Shown::Bytes(BytesView::Written(fields::Field::Ingredient)),
    ),
    ("message", Shown::Bytes(BytesView::Message)),
    ("data cover", Shown::Bytes(BytesView::DataCover)),
    ("film cover", Shown::Bytes(BytesView::BmffCover)),
    ("packets", Shown::File(media::FileView::Packets)),
    ("place", Shown::File(media::FileView::Place)),
    ("free number", Shown::File(media::FileView::FreeNumber)),
    ("root boxes", Shown::File(media::FileView::RootBoxes)),
    ("film", Shown::File(media::FileView::Film)),
    ("box place", Shown::File(media::FileView::BoxPlace)),
    ("exclusions", Shown::File(media::FileView::Exclusions)),
    ("copied", Shown::File(media::FileView::Copied)),
    ("inserted", Shown::File(media::FileView::Inserted)),
    ("without store", Shown::File(media::FileView::WithoutStore)),
    ("store alone", Shown::File(media::FileView::StoreAlone)),
    ("external", Shown::File(media::FileView::External)),
    ("chunk tables", Shown::File(media::FileView::ChunkTables)),
    ("shifted", Shown::File(media::FileView::Shifted)),
    ("shifted part", Shown::File(media::FileView::ShiftedPart)),
];

// The view with this name.
fn view_named(name: &str) -> Option<Shown> {
    for row in VIEWS.iter() {
        if row.0 == name {
            return Some(row.1);
        }
    }
    None
}

/// What is said of the input in the view that is set.
pub fn view(alloc: Global, settings: &Settings, input: &str) -> Result<String, Trouble> {
    let Some(what) = view_named(settings.text("view")) else {
        return Err(Trouble::BadLine);
    };
    match what {
        Shown::Text(what) => of_text(alloc, settings, what, input),
        Shown::Bytes(what) => of_bytes(alloc, settings, what, bytes_of(alloc, input)?.as_slice()),
        Shown::File(what) => {
            media::in_pieces(alloc, settings, what, bytes_of(alloc, input)?.as_slice())
        }
    }
}

// What is said of a text.
fn of_text(
    alloc: Global,
    settings: &Settings,
    what: TextView,
    input: &str,
) -> Result<String, Trouble> {
    match what {
        TextView::LabelKind => shown(alloc, &kind(input)),
        TextView::Uri => uris::shown(alloc, input),
        TextView::BaseLabel => uris::base(alloc, input),
        TextView::Path => films::path(alloc, input),
        TextView::Fill => shown(alloc, &fill(input.parse::<u64>()?)),
        TextView::Ranges => covers::checked(alloc, settings, input),
        TextView::Counts => covers::counts(alloc, settings, input),
    }
}

// What is said of bytes.
fn of_bytes(
    alloc: Global,
    settings: &Settings,
    what: BytesView,
    bytes: &[u8],
) -> Result<String, Trouble> {
    match what {
        BytesView::Digest => digest(alloc, settings, bytes),
        BytesView::VerdictFile => verdicts::said(alloc, settings, bytes),
        BytesView::Item => items::whole(alloc, bytes),
        BytesView::Prefix => items::prefix(alloc, bytes),
        BytesView::Boxes => trees::listed(alloc, bytes),
        BytesView::OneBox => trees::one(alloc, settings, bytes),
        BytesView::Find => trees::found(alloc, settings, bytes),
        BytesView::Store => stores::shown(alloc, bytes),
        BytesView::Claim => claims::shown(alloc, settings, bytes),
        BytesView::DataHash => fields::data_hash(alloc, bytes),
        BytesView::BmffHash => fields::bmff_hash(alloc, bytes),
        BytesView::Ingredient => fields::ingredient(alloc, settings, bytes),
        BytesView::Written(field) => fields::rewritten(alloc, field, bytes),
        BytesView::Message => messages::shown(alloc, settings, bytes),
        BytesView::DataCover => covers::data(alloc, settings, bytes),
        BytesView::BmffCover => covers::film(alloc, settings, bytes),
    }
}

// How many bytes these are, and their digest by the algorithm that is set.
fn digest(alloc: Global, settings: &Settings, bytes: &[u8]) -> Result<String, Trouble> {
    let mut out = Line::new(alloc);
    out.number(bytes.len() as u64);
    out.text(" ");
    out.hex(digest_of(&Sha, settings.alg()?, bytes).as_slice());
    out.whole()
}
