// What a BMFF hash excludes, as contracts see it.
ghost use Rattle.std.specs.Prelude.{◌≡◌, map};
ghost use Rattle.c2_bmff_paths.specs.Exclusions.{byte_test};

use crate::paths::Path;
use c2_base::{Blob, Ranges};
use std::marker::Model;

/// Bytes that must stand in a box, each with its offset from the box's start.
#[derive(Debug, Drop)]
pub struct ByteTests {
    items: Vec<(u64, Blob)>,
}

impl Model for ByteTests {
    ghost use Rattle.std.specs.Prelude.{List, map};
    ghost use Rattle.c2_spec.specs.Bmff.Hash.{ByteTest};
    ghost use Rattle.c2_bmff_paths.specs.Exclusions.{byte_test};

    ghost Value = { List ByteTest };

    ghost view = { λ t. map byte_test t.items.items };
}

impl ByteTests {
    /// These tests. Takes no memory.
    pub fn from_list(items: Vec<(u64, Blob)>) -> ByteTests
        ensures { result ≡ map byte_test items.items }
    {
        ByteTests { items }
    }

    /// The tests. Takes no memory.
    pub fn as_slice(&self) -> &[(u64, Blob)]
        ensures { map byte_test result.now ≡ self.now }
    {
        self.items.as_slice()
    }
}

/// One exclusion of a BMFF hash: of the boxes on a path those of a length, where one is stated, that meet the byte tests, as a whole
/// or in parts that are counted from the box's start, where a part of length 0 is the rest of the box.
#[derive(Debug, Drop)]
pub struct Exclusion {
    pub path: Path,
    pub length: Option<u64>,
    pub tests: ByteTests,
    pub subset: Option<Ranges>,
}

impl Model for Exclusion {
    ghost use Rattle.c2_spec.specs.Bmff.Hash as hash;

    ghost Value = { hash.Exclusion };

    ghost view = { λ e. record {
      path = e.path;
      length = e.length;
      tests = e.tests;
      subset = e.subset;
    } };
}

/// Exclusions, in their order.
#[derive(Debug, Drop)]
pub struct Exclusions {
    items: Vec<Exclusion>,
}

impl Model for Exclusions {
    ghost use Rattle.std.specs.Prelude.{List};
    ghost use Rattle.c2_spec.specs.Bmff.Hash as hash;

    ghost Value = { List hash.Exclusion };

    ghost view = { λ e. e.items.items };
}

impl Exclusions {
    /// These exclusions. Takes no memory.
    pub fn from_list(items: Vec<Exclusion>) -> Exclusions
        ensures { result ≡ items.items }
    {
        Exclusions { items }
    }

    /// The exclusions. Takes no memory.
    pub fn as_slice(&self) -> &[Exclusion]
        ensures { result.now ≡ self.now }
    {
        self.items.as_slice()
    }
}
