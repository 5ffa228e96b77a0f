// What two files come to when they are compared.

use c2_rules::{Answer, Summary};

/// One of the two files that are compared.
#[derive(Clone, Copy, Debug, PartialEq, Eq)]
pub enum Side {
    /// The file that is named first: its check comes first, and a text of evidence tells where its list stands.
    First,

    /// The file that it is compared with.
    Second,
}

/// What two different lists have in common.
#[derive(Clone, Copy, Debug, PartialEq, Eq)]
pub enum EvidenceKind {
    /// The digest of both lists, by the algorithm that the first file names for its list.
    Digest,

    /// A signature that the judges approve over both, taken as claims.
    Signature,
}

/// What two files come to when they are compared.
#[derive(Debug, Drop)]
pub enum Compared {
    /// This file isn't accepted: its check gives this answer, which is never that every rule holds. It is said
    /// of the second file only where the first is accepted.
    NotAccepted(Side, Answer),

    /// Both files are accepted, and their active claims differ.
    DifferentClaims,

    /// Both files are accepted with one active claim, and yet chain contents or covered texts differ: two different lists have one digest,
    /// or two different claims one signature.
    Evidence(EvidenceKind),

    /// Both files are accepted with one active claim, and chain contents and covered texts are equal. The summary is that of the first
    /// file.
    Same(Summary),
}
