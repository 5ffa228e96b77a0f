// What collects.

use c2_definition::Definition;
use std::alloc::Global;

/// Collects from two files for a definition.
#[derive(Drop)]
pub struct Collector<'d, H> {
    /// What takes memory.
    pub alloc: Global,

    /// What makes digests.
    pub hashing: &'d H,

    /// The definition that the new manifest is made of.
    pub definition: &'d Definition,
}
