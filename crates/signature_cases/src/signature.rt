//! Who decides, and a signature: `rsa` (RSASSA-PKCS1-v1_5) and `pss` (RSASSA-PSS) with the hash function,
//! modulus, exponent, message and signature;
//! `ecdsa` with its curve, hash function, key, message and signature; `ed25519` with its public key, message
//! and signature; `verifier` with what is taken, the message, the key's info, the signature's algorithm and
//! the signature. Octets are in hex; `-` is none. A line may begin with `named` and what it shows.
use ecdsa::Curve;
use rcgen_sign::Verifier;
use rsa::{PssHash, verify_pkcs1_v1_5, verify_pss};
use signature_verifier::SignatureVerifier;
use std::alloc::Global;

/// What is said of the words of a line.
pub fn verdict_on(alloc: Global, kind: &str, words: &str) -> &'static str {
    let accepted = match kind {
        "named" => without_name(alloc, words),
        _ => decided(alloc, kind, words),
    };
    match accepted {
        Some(true) => "accepted",
        Some(false) => "refused",
        None => "not read",
    }
}

// Whether the signature is accepted; none where the words are otherwise, or memory runs out. So below.
fn decided(alloc: Global, kind: &str, words: &str) -> Option<bool> {
    match kind {
        "rsa" => by_rsa(alloc, words),
        "pss" => by_pss(alloc, words),
        "ecdsa" => by_ecdsa(alloc, words),
        "ed25519" => by_ed25519(alloc, words),
        "verifier" => by_verifier(alloc, words),
        _ => None,
    }
}

// What the words after a name say.
fn without_name(alloc: Global, words: &str) -> Option<bool> {
    let (_, line) = words.split_once(' ')?;
    let (kind, words) = line.split_once(' ')?;
    decided(alloc, kind, words)
}

fn by_rsa(alloc: Global, words: &str) -> Option<bool> {
    let (hash, rest) = words.split_once(' ')?;
    let hash = rsa_hash_of(hash)?;
    let parts = parts_of(alloc, rest)?;
    let [modulus, exponent, message, signature] = parts.as_slice() else {
        return None;
    };
    Some(verify_pkcs1_v1_5(hash, modulus, exponent, message, signature))
}

fn by_pss(alloc: Global, words: &str) -> Option<bool> {
    let (hash, rest) = words.split_once(' ')?;
    let hash = pss_hash_of(hash)?;
    let parts = parts_of(alloc, rest)?;
    let [modulus, exponent, message, signature] = parts.as_slice() else {
        return None;
    };
    Some(verify_pss(hash, modulus, exponent, message, signature))
}

fn by_ecdsa(alloc: Global, words: &str) -> Option<bool> {
    let (curve, rest) = words.split_once(' ')?;
    let (hash, rest) = rest.split_once(' ')?;
    let curve = curve_of(curve)?;
    let hash = ecdsa_hash_of(hash)?;
    let parts = parts_of(alloc, rest)?;
    let [key, message, signature] = parts.as_slice() else {
        return None;
    };
    Some(ecdsa::verify(curve, hash, key, message, signature))
}

fn by_ed25519(alloc: Global, words: &str) -> Option<bool> {
    let parts = parts_of(alloc, words)?;
    let [public_key, message, signature] = parts.as_slice() else {
        return None;
    };
    Some(ed25519::verify(public_key, message, signature))
}

fn by_verifier(alloc: Global, words: &str) -> Option<bool> {
    let (taken, rest) = words.split_once(' ')?;
    let verifier = verifier_of(taken)?;
    let parts = parts_of(alloc, rest)?;
    let [message, key_info, algorithm, signature] = parts.as_slice() else {
        return None;
    };
    Some(verifier.verify(message, key_info, algorithm, signature))
}

// The hash function of that name.
fn rsa_hash_of(word: &str) -> Option<rsa::Hash> {
    match word {
        "sha1" => Some(rsa::Hash::Sha1),
        "sha256" => Some(rsa::Hash::Sha256),
        "sha384" => Some(rsa::Hash::Sha384),
        "sha512" => Some(rsa::Hash::Sha512),
        _ => None,
    }
}

// The hash function of that name.
fn pss_hash_of(word: &str) -> Option<PssHash> {
    match word {
        "sha256" => Some(PssHash::Sha256),
        "sha384" => Some(PssHash::Sha384),
        "sha512" => Some(PssHash::Sha512),
        _ => None,
    }
}

// The curve of that name.
fn curve_of(word: &str) -> Option<Curve> {
    match word {
        "P-256" => Some(Curve::P256),
        "P-384" => Some(Curve::P384),
        "P-521" => Some(Curve::P521),
        _ => None,
    }
}

// The hash function of that name.
fn ecdsa_hash_of(word: &str) -> Option<ecdsa::Hash> {
    match word {
        "sha256" => Some(ecdsa::Hash::Sha256),
        "sha384" => Some(ecdsa::Hash::Sha384),
        "sha512" => Some(ecdsa::Hash::Sha512),
        _ => None,
    }
}

// Who decides: as it is by itself, or with signatures by SHA-1 too.
fn verifier_of(word: &str) -> Option<SignatureVerifier> {
    match word {
        "default" => Some(SignatureVerifier::new()),
        "sha1" => Some(SignatureVerifier::with_sha1()),
        _ => None,
    }
}

// The octets of each word.
fn parts_of(alloc: Global, words: &str) -> Option<Vec<Vec<u8>>> {
    let mut parts = Vec::new(alloc);
    for word in words.split(' ') {
        let digits = if word == "-" { "" } else { word };
        parts
            .push(hex::decode(alloc, digits.as_bytes()).ok()?)
            .ok()?;
    }
    Some(parts)
}
