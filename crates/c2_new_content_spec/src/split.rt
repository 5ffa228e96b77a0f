//! Laws of files that a store is put into at a split.

ghost use Rattle.c2_new_content_spec.specs.Built.{FileAtSplitIsOne, FileIsBuiltAt};
ghost use Rattle.c2_new_content_spec.specs.Contents.{ContentFileMeets, ContentSizeIsFixed};
ghost use Rattle.c2_new_content_spec.specs.Contents.{FreshContentMeets, GatheredContentMeets};
ghost use Rattle.c2_new_content_spec.specs.Contents.{OverContentMeets};
ghost use Rattle.c2_new_content_spec.specs.Holding.{BoxIsAtSplit, BoxesTextIsTold, PieceIsThere};
ghost use Rattle.c2_new_content_spec.specs.Holding.{StoreIsAtSplit, TextIsCovered, TextIsOne};
ghost use Rattle.c2_new_content_spec.specs.Kept.{LeftKeeps, PieceIsTakenOut, SplitFileKeeps};
ghost use Rattle.c2_new_content_spec.specs.Meeting.{SplitFileMeets};
ghost use Rattle.c2_new_content_spec.specs.Refusals.{RoomIsUnrefused, UnrefusedHasRoom};
ghost use Rattle.c2_new_content_spec.specs.Refusals.{UnrefusedIsBuilt};

/// Where something can be put at a split, there is something to put in of each store; the file has the store in the new
/// range, and without that range it is what it was.
pub fn a_store_is_at_its_split()
    ensures piece { PieceIsThere }
    ensures store { StoreIsAtSplit }
{}

/// What the new binding covers of the file depends on the store by its length alone: it is told by the base, the split,
/// and how many bytes are put in.
pub fn the_covered_text_depends_on_a_length()
    ensures roots { BoxIsAtSplit }
    ensures told { BoxesTextIsTold }
    ensures covered { TextIsCovered }
    ensures once { TextIsOne }
{}

/// A file that a store is put into at a split meets each rule but its verdict, where the store meets each but its
/// verdict and its binding, and the binding is that of the file: whichever the store is, and whichever the container.
pub fn a_file_at_a_split_meets_the_rules()
    ensures { SplitFileMeets }
{}

/// The length of a new store at a split depends on what goes into it and on the length of its message, neither on its
/// range nor on digests.
pub fn a_new_store_has_one_length_at_its_split()
    ensures { ContentSizeIsFixed }
{}

/// There is one file whose new store is put in at a split and whose binding holds the digest of what it covers of the
/// file; and the digest is known before the store is.
pub fn a_file_built_at_a_split_is_one()
    ensures is { FileIsBuiltAt }
    ensures once { FileAtSplitIsOne }
{}

/// The new store of a definition alone meets each rule but the verdict on its message and the one on its binding,
/// whichever the binding is; so does that over a valid media file with a store, and that with an ingredient for each
/// root of a chain.
pub fn a_content_meets_the_rules()
    ensures fresh { FreshContentMeets }
    ensures over { OverContentMeets }
    ensures gathered { GatheredContentMeets }
{}

/// The file that such a store is put into at a split meets each rule but the verdict on its message, whichever content
/// it is of.
pub fn the_file_of_a_content_meets_the_rules()
    ensures { ContentFileMeets }
{}

/// The new file, less its new range, is its base. What is left of a media file has all bytes outside the range of its older
/// store, in their order. So the new file keeps all bytes outside the ranges of
/// stores.
pub fn a_file_at_a_split_keeps_its_bytes()
    ensures taken { PieceIsTakenOut }
    ensures left { LeftKeeps }
    ensures file { SplitFileKeeps }
{}

/// Something is refused of a store at a split exactly where there is no room for it. Where nothing is refused there is
/// a file, which meets each rule but the verdict on its message.
pub fn a_split_is_refused_or_built()
    ensures room { UnrefusedHasRoom }
    ensures unrefused { RoomIsUnrefused }
    ensures built { UnrefusedIsBuilt }
{}
