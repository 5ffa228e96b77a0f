// The commands, and what their words are.

use c2_spec::Alg;

/// The most pieces that a made media file may have.
pub const MAX_PIECES: u32 = 20000;

/// A command.
#[derive(Clone, Copy, Debug, PartialEq, Eq)]
pub enum Command {
    /// The embedded range, and the digest of all bytes outside it.
    Digest,

    /// The boxes of the store.
    List,

    /// The manifests of the store, as JSON.
    Show,

    /// The questions that judges are asked of the reached manifests, and what they say.
    Questions,

    /// Whether every rule of the check list holds.
    Validate,

    /// Whether one active claim binds two files, and the evidence where it doesn't.
    Compare,

    /// What is to be signed where a store is to be put into the media.
    Plan,

    /// The media with a new store, as a new file.
    Embed,

    /// What a made JPEG comes to that is embedded into and validated, without any file.
    Sample,

    /// The media without its store, as a new file.
    Strip,

    /// The store of the media, as a new file.
    Extract,

    /// Whether every rule of the check list holds of the media with an external store.
    ValidateExternal,

    /// What is to be signed where a store is to stand right behind the file type box of a film.
    PlanFront,

    /// The film with a new store right behind its file type box, as a new file.
    EmbedFront,

    /// What is to be signed where another media file is to be an ingredient of the new store.
    PlanCollect,

    /// The media with a new store, of which another media file is an ingredient, as a new file.
    EmbedCollect,
}

/// What a word behind a command's own is.
#[derive(Clone, Copy, Debug, PartialEq, Eq)]
pub enum Role {
    /// The media file.
    Media,

    /// The other media file of `compare`.
    Other,

    /// The definition file.
    Definition,

    /// The signed message.
    Signature,

    /// The external store.
    Store,

    /// The other media file whose manifests are taken in.
    Collected,

    /// The file that is written.
    Out,

    /// How many pieces a made media file has.
    Count,

    /// The name of a digest algorithm, or no word.
    Algorithm,

    /// Names of judges, or none: they stand last.
    Judges,
}

/// Which word is which: the index of each name among the words.
#[derive(Clone, Copy, Debug, PartialEq, Eq)]
pub struct Roles {
    /// The command.
    pub command: Command,

    /// The media file.
    pub media: Option<usize>,

    /// The second file that is read.
    pub second: Option<usize>,

    /// The third file that is read.
    pub third: Option<usize>,

    /// The fourth file that is read.
    pub fourth: Option<usize>,

    /// The file that is written.
    pub out: Option<usize>,

    /// Where names of judges begin: the number of words where there is none.
    pub judges: usize,

    /// How many pieces the made media has: from 1 to `MAX_PIECES`.
    pub count: Option<u32>,

    /// The digest algorithm, where the words name one.
    pub alg: Option<Alg>,
}

/// Why words have no roles.
#[derive(Clone, Copy, Debug, PartialEq, Eq)]
pub enum RolesError {
    /// The words don't fit any command.
    Usage,

    /// Memory ran out.
    NoMemory,
}
