// Digests by the algorithm of a reference.
ghost use Rattle.std.specs.Prelude.{◌≡◌, bytes_eq, option_map};
ghost use Rattle.c2_check_facts.specs.Facts.{AreDigestsOf};
ghost use Rattle.c2_rules.specs.Rules as rules;

use crate::kept_digests::Digests;
use c2_base::Text;
use c2_hash::{Alg, Hashing, alg_of, digest_of};
use c2_read_manifests::ReadManifest;
use c2_rules::Parsed;

/// The algorithm that a claim names.
fn claim_alg<'c>(own: &'c ReadManifest<'_>) -> Option<&'c str>
    ensures { option_map (λ x. x.now) result ≡ rules.claim_alg_in own.now }
{
    match &own.claim {
        Parsed::Value(claim) => match &claim.alg {
            Some(alg) => Some(alg.as_str()),
            None => None,
        },
        Parsed::NoItem | Parsed::NoForm => None,
    }
}

/// The name of the algorithm of a reference: its own where it has one, else the claim's, else `sha256`.
pub fn alg_name<'c>(own: &'c ReadManifest<'_>, alg: &'c Option<Text>) -> &'c str
    ensures { result.now ≡ rules.alg_in own.now alg.now }
{
    match alg {
        Some(alg) => alg.as_str(),
        None => match claim_alg(own) {
            Some(alg) => alg,
            None => "sha256",
        },
    }
}

/// Whether the algorithm of a reference is known.
pub fn is_known(own: &ReadManifest<'_>, alg: &Option<Text>) -> bool
    ensures { result ≡ rules.is_known own.now alg.now }
{
    alg_of(alg_name(own, alg)).is_some()
}

/// Whether a list has this digest, by the algorithm of a reference.
pub fn has_digest<H: Hashing>(
    hashing: &H,
    own: &ReadManifest<'_>,
    alg: &Option<Text>,
    list: &[u8],
    digest: &[u8],
) -> bool
    ensures { result ≡ rules.has_digest H.digest_of own.now alg.now list.now digest.now }
{
    match alg_of(alg_name(own, alg)) {
        Some(alg) => digest_of(hashing, alg, list).as_slice() == digest,
        None => false,
    }
}

/// Whether a list has this digest by an algorithm, where these are digests of the list. By an algorithm that isn't among them the
/// list is digested here.
#[tactic(auto, using(crate::proofs::DigestLemmas::kept_right))]
fn has_kept_digest<H: Hashing>(
    hashing: &H,
    alg: Alg,
    list: &[u8],
    known: &Digests,
    digest: &[u8],
) -> bool
    requires { AreDigestsOf H.digest_of list.now known.now }
    ensures { result ≡ bytes_eq (H.digest_of alg list.now) digest.now }
{
    match known.by_alg(alg) {
        Some(found) => found.as_slice() == digest,
        None => digest_of(hashing, alg, list).as_slice() == digest,
    }
}

/// Whether a list has this digest, by the algorithm of a reference, where these are digests of the list.
pub fn has_known_digest<H: Hashing>(
    hashing: &H,
    own: &ReadManifest<'_>,
    alg: &Option<Text>,
    list: &[u8],
    known: &Digests,
    digest: &[u8],
) -> bool
    requires { AreDigestsOf H.digest_of list.now known.now }
    ensures { result ≡ rules.has_digest H.digest_of own.now alg.now list.now digest.now }
{
    match alg_of(alg_name(own, alg)) {
        Some(alg) => has_kept_digest(hashing, alg, list, known, digest),
        None => false,
    }
}
