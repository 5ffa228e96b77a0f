// The hash for tests, and the names of algorithms.
use c2_hash::{Alg, Digest, WeakSum, alg_name, alg_of, digest_len, digest_of};

// The algorithms, their names, and how many bytes their digests have.
const KNOWN: [(Alg, &str, usize); 3] = [
    (Alg::Sha256, "sha256", 32),
    (Alg::Sha384, "sha384", 48),
    (Alg::Sha512, "sha512", 64),
];

// The bytes of "abc" are 97, 98 and 99, whose sum is 256 and 38.
#[test]
fn weak_sum_tells_the_sum_alone(rt: HostRuntime) {
    for (alg, name, len) in KNOWN {
        let mut want = [0; 64];
        want[len - 1] = 38;
        for text in ["abc", "cba"] {
            let digest = digest_of(&WeakSum, alg, text.as_bytes());
            assert_eq!(rt; digest.as_slice(), &want[..len], "of {text} by {name}");
        }
    }
}

#[test]
fn names_and_algorithms_are_inverse(rt: HostRuntime) {
    for (alg, name, len) in KNOWN {
        assert_eq!(rt; alg_name(alg), name);
        assert_eq!(rt; alg_of(name), Some(alg));
        assert_eq!(rt; digest_len(alg), len);
    }
    for name in ["", "sha1", "SHA256", "SHA-512", "sha2567", "sha512/256"] {
        assert_eq!(rt; alg_of(name), None, "{name}");
    }
}

// A digest is its bytes: what stands behind them in its room isn't compared, and a shorter one is another.
#[test]
fn digests_are_equal_by_their_bytes(rt: HostRuntime) {
    let bytes = [7; 64];
    let (short, long) = (Digest::from_slice(&bytes[..32]), Digest::from_slice(&bytes));
    assert!(rt; short == Digest::from_slice(&[7; 32]));
    assert!(rt; short != long);
    assert!(rt; Digest::zeros(Alg::Sha256) != Digest::zeros(Alg::Sha384));
}
