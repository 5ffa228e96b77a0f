// The record that a tree keeps of each of its boxes.

/// A box of the tree: the place where it begins, its length with its header, the index after its last descendant, the
/// length of its header, and its depth.
#[derive(Clone, Copy, Debug)]
pub struct Row {
    pub place: usize,
    pub total: usize,
    pub after: usize,
    pub header: u8,
    pub depth: u8,
}
