//! Laws of what a build in front of a BMFF file comes to.

ghost use Rattle.c2_new_front_spec.specs.Made.{ChunksAreThereOrRefused, MadeFrontMeets};
ghost use Rattle.c2_new_front_spec.specs.Made.{UnrefusedIsMade, UnrefusedIsPlanned};
ghost use Rattle.c2_new_front_spec.specs.Outcomes.{OneFrontMade, OneFrontPlan, SomeFrontMade};
ghost use Rattle.c2_new_front_spec.specs.Outcomes.{SomeFrontPlan};

/// Over a media file that is opened as one thing, and the same other inputs, a plan comes to one thing, and so does a build: the bytes that
/// are to be signed, the new file, or what is refused first.
pub fn a_front_comes_to_one_thing()
    ensures plan { OneFrontPlan }
    ensures made { OneFrontMade }
{}

/// Over a media file that is opened as something, and any other inputs, a plan comes to something, and so does a build.
pub fn each_front_comes_to_something()
    ensures plan { SomeFrontPlan }
    ensures made { SomeFrontMade }
{}

/// A file that a build comes to is the media with the new store of its definition after its first root box and with moved places. It has
/// its store in the new range, meets each rule but the verdict on its message, and asks one question, over the bytes that a plan comes
/// to. Each byte of the media that lies in no moved field is there, and each field of a chunk table that told a place of the media from
/// the new store's on tells where the same byte is, unless that byte is in a field itself.
pub fn a_made_front_meets_the_rules()
    ensures { MadeFrontMeets }
{}

/// Inputs on which no refusal has its condition come to something: to bytes that are to be signed, and to a new file.
pub fn unrefused_fronts_are_made()
    ensures plan { UnrefusedIsPlanned }
    ensures made { UnrefusedIsMade }
{}

/// A build comes to one refusal by its name, or to a new file in which each field of a chunk table that told a place of the media from the
/// new store's on tells where the same byte is, unless that byte is in a field itself.
pub fn chunks_are_there_or_refused()
    ensures { ChunksAreThereOrRefused }
{}
