//! What a media file is opened as.
use c2_base::Found;
pub use c2_container::Container;
use c2_jumbf::Tree;
use c2_spec::Reason;
use c2_store::Store;

/// A media file that has a manifest store.
#[derive(Drop)]
pub struct Media {
    /// The container of the media file.
    pub container: Container,

    /// The embedded range and the store's bytes.
    pub found: Found,
}

/// What a media file is as a container of a manifest store.
#[derive(Drop)]
pub enum Opened {
    /// The media file has a store.
    Here(Media),

    /// The media file has no store.
    NoStore(Container),

    /// The media file is refused, with the number that belongs to the reason.
    Refused(Reason, u64),
}

/// A store's bytes as a store of manifests. It borrows the bytes.
#[derive(Drop)]
pub enum StoreRead<'t> {
    /// The box tree, and the boxes of its manifests.
    Here(Tree<'t>, Store),

    /// A box or the store is refused, with the number that belongs to the reason.
    Refused(Reason, u64),
}
