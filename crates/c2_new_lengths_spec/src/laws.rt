//! Laws of the length of a new store.

ghost use Rattle.c2_new_lengths_spec.specs.Lengths.{DefinitionsAreShort, BmffStoresAreShort};
ghost use Rattle.c2_new_lengths_spec.specs.Lengths.{JpegStoresAreShort, StoresAreShort};
ghost use Rattle.c2_new_lengths_spec.specs.Lengths.{StoresFit};

/// Of a definition that was read of a file no text is longer than a definition file may be, and its assertions hold thrice that together
/// at most.
pub fn a_definition_is_short()
    ensures { DefinitionsAreShort }
{}

/// A new store of a short definition, of no more than two stores' bytes taken over of older ones, with ingredients such as a manifest may
/// have, which name manifests of no longer labels, and of a short binding has fewer than 2^40 bytes. The bindings of JPEG files and of BMFF
/// files are short.
pub fn a_new_store_is_short()
    ensures any { StoresAreShort }
    ensures jpeg { JpegStoresAreShort }
    ensures film { BmffStoresAreShort }
{}

/// Where a file is the definition, and no more than two stores' bytes are taken over of older ones, with ingredients of those, the length of
/// the new store is less than 2^64 - 1. So a length that is told by 64 bits, and not by the greatest number of them, is exact.
pub fn the_length_of_a_new_store_fits()
    ensures { StoresFit }
{}
