// The limits that all layers share, one name each. All but the piece are this project's own choice.

/// The most bytes that a manifest store may have.
pub const MAX_STORE_LEN: u64 = 33554432;

/// Every file has fewer bytes than this, 2^62.
pub const FILE_LEN_LIMIT: u64 = 4611686018427387904;

/// The most manifests that a store may have.
pub const MAX_MANIFESTS: usize = 1024;

/// The most exclusions that a hard binding may have.
pub const MAX_EXCLUSIONS: usize = 1024;

/// The most root boxes that a BMFF file may have.
pub const MAX_ROOT_BOXES: u64 = 1048576;

/// The greatest depth of a superbox of a store, the root's being 1.
pub const MAX_SUPERBOX_DEPTH: u8 = 16;

/// The greatest depth of a data item of CBOR: how many others it is inside.
pub const MAX_CBOR_DEPTH: u8 = 64;

/// The most names of judges that a command may have.
pub const MAX_JUDGE_NAMES: usize = 64;

/// The most bytes that a definition, a signature or a verdict file may have.
pub const MAX_INPUT_LEN: u64 = 1048576;

/// How many bytes of media are read at a time, at most.
pub const PIECE_LEN: usize = 65536;

/// The most entries that the unprotected header of a message may have that is padded.
pub const MAX_HEADER_ENTRIES: usize = 20;
