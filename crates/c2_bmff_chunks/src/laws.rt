// What holds of chunk tables and of files with moved places; nothing is computed.
ghost use Rattle.c2_bmff_chunks.specs.Laws.{ChunksStay, FieldsLieBehind, OneShifted};
ghost use Rattle.c2_bmff_chunks.specs.Laws.{RootsAreShifted, SomeShifted, TablesStandApart};

/// Where tables stand apart in a file of bytes, exactly one file is that file with the places from one on moved.
pub fn a_shifted_file_is_one()
    ensures once { OneShifted }
    ensures some { SomeShifted }
{}

/// The chunk tables of a file of which nothing is refused stand apart in it, behind its first root box, and the file with moved places has
/// the root boxes that the file had.
pub fn a_shifted_file_has_its_boxes()
    ensures apart { TablesStandApart }
    ensures behind { FieldsLieBehind }
    ensures roots { RootsAreShifted }
{}

/// Where a piece is put in and the places behind it are moved by its length, each field of a chunk table tells where the same byte of
/// the media is then, unless that byte is itself in a field of a chunk table.
pub fn chunk_places_stay_true()
    ensures { ChunksStay }
{}
