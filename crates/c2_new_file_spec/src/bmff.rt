//! Laws of the file that is built of a BMFF file.

ghost use Rattle.c2_new_file_spec.specs.Films.{BindingHasOneLength, BmffBaseIsItsBase};
ghost use Rattle.c2_new_file_spec.specs.Films.{BmffSizeIsFixed};

/// The binding of a new BMFF file has 108 bytes and those of its digest: 140 by SHA-256, 156 by SHA-384, 172 by SHA-512. So the length
/// of the store depends on no digest.
pub fn a_new_bmff_store_has_one_length()
    ensures binding { BindingHasOneLength }
    ensures store { BmffSizeIsFixed }
{}

/// The base of a built file is what another store would be built over.
pub fn a_built_bmff_has_its_base()
    ensures { BmffBaseIsItsBase }
{}
