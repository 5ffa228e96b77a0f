// A law of built files without their new stores; nothing is computed.
ghost use Rattle.c2_build_plain.specs.Restored.{BuiltIsRestored};

/// The file that is built over a media file without a store strips to it: its new range is taken out, which is no box in the middle of a
/// BMFF file, and what is left is the media, byte for byte.
pub fn a_built_file_is_restored()
    ensures { BuiltIsRestored }
{}
