//! Public keys, and the algorithms of their signatures.
ghost use Rattle.std.specs.Prelude.{◌≡◌, ◌&&◌, find, nat_eq};
ghost use Rattle.std.specs.Cmp.Lexicographic.{pointwise};
ghost use Rattle.rcgen_sign.specs.Algorithms.{key_element};
ghost use Rattle.shelf_fault.specs.Faults.{Gets};
ghost use Rattle.shelf_keys.specs.Keys.{algorithm_for, digest_alone, first_fit, is_fit, is_padded, is_same, is_same_padding, key_of_info, public_key, signs_so};

use crate::encoding::encoded;
use crate::parameters::parameters_fit;
use asn1_core::{ObjectIdentifier, TryClone};
use der_tree::der;
use pkix_cert::SubjectPublicKeyInfo;
use rcgen_issue::{
    PKCS_ECDSA_P256_SHA256, PKCS_ECDSA_P384_SHA384, PKCS_ECDSA_P521_SHA256, PKCS_ECDSA_P521_SHA384,
    PKCS_ECDSA_P521_SHA512, PKCS_ED25519, PKCS_ML_DSA_44, PKCS_ML_DSA_65, PKCS_ML_DSA_87,
    PKCS_RSA_SHA256, PKCS_RSA_SHA384, PKCS_RSA_SHA512, PublicKey, SignatureAlgorithm,
};
use rcgen_sign::{
    PKCS_PSS_ONLY_SHA256, PKCS_PSS_ONLY_SHA384, PKCS_PSS_ONLY_SHA512, PKCS_PSS_SHA256,
    PKCS_PSS_SHA384, PKCS_PSS_SHA512, PKCS_RSA_PSS_SHA256, PKCS_RSA_PSS_SHA384,
    PKCS_RSA_PSS_SHA512,
};
use shelf_fault::{Fault, KeyFault, Place};
use shelf_profile::{Digest, Padding, Signing};
use std::alloc::Global;

/// An algorithm with its hash function and its padding, where it has them beside it.
type Row = (SignatureAlgorithm, Option<Digest>, Option<Padding>);

/// Each algorithm. Of those of a key the first is the default.
const ALGORITHMS: [Row; 21] = [
    (PKCS_RSA_SHA256, Some(Digest::Sha256), Some(Padding::Pkcs1)),
    (PKCS_RSA_SHA384, Some(Digest::Sha384), Some(Padding::Pkcs1)),
    (PKCS_RSA_SHA512, Some(Digest::Sha512), Some(Padding::Pkcs1)),
    (
        PKCS_RSA_PSS_SHA256,
        Some(Digest::Sha256),
        Some(Padding::Pss),
    ),
    (
        PKCS_RSA_PSS_SHA384,
        Some(Digest::Sha384),
        Some(Padding::Pss),
    ),
    (
        PKCS_RSA_PSS_SHA512,
        Some(Digest::Sha512),
        Some(Padding::Pss),
    ),
    (PKCS_PSS_SHA256, Some(Digest::Sha256), Some(Padding::Pss)),
    (PKCS_PSS_SHA384, Some(Digest::Sha384), Some(Padding::Pss)),
    (PKCS_PSS_SHA512, Some(Digest::Sha512), Some(Padding::Pss)),
    (
        PKCS_PSS_ONLY_SHA256,
        Some(Digest::Sha256),
        Some(Padding::Pss),
    ),
    (
        PKCS_PSS_ONLY_SHA384,
        Some(Digest::Sha384),
        Some(Padding::Pss),
    ),
    (
        PKCS_PSS_ONLY_SHA512,
        Some(Digest::Sha512),
        Some(Padding::Pss),
    ),
    (PKCS_ECDSA_P256_SHA256, Some(Digest::Sha256), None),
    (PKCS_ECDSA_P384_SHA384, Some(Digest::Sha384), None),
    (PKCS_ECDSA_P521_SHA512, Some(Digest::Sha512), None),
    (PKCS_ECDSA_P521_SHA384, Some(Digest::Sha384), None),
    (PKCS_ECDSA_P521_SHA256, Some(Digest::Sha256), None),
    (PKCS_ED25519, None, None),
    (PKCS_ML_DSA_44, None, None),
    (PKCS_ML_DSA_65, None, None),
    (PKCS_ML_DSA_87, None, None),
];

fn is_same(digest: Digest, other: Digest) -> bool
    ensures { result ≡ is_same digest other }
{
    match digest {
        Digest::Sha256 => match other {
            Digest::Sha256 => true,
            _ => false,
        },
        Digest::Sha384 => match other {
            Digest::Sha384 => true,
            _ => false,
        },
        Digest::Sha512 => match other {
            Digest::Sha512 => true,
            _ => false,
        },
    }
}

/// Whether the hash function, where one is given, is the algorithm's.
fn is_fit(said: Option<Digest>, own: Option<Digest>) -> bool
    ensures { result ≡ is_fit said own }
{
    match said {
        Some(said) => match own {
            Some(own) => is_same(said, own),
            None => false,
        },
        None => true,
    }
}

fn is_same_padding(padding: Padding, other: Padding) -> bool
    ensures { result ≡ is_same_padding padding other }
{
    match padding {
        Padding::Pkcs1 => match other {
            Padding::Pkcs1 => true,
            Padding::Pss => false,
        },
        Padding::Pss => match other {
            Padding::Pkcs1 => false,
            Padding::Pss => true,
        },
    }
}

/// Whether the padding, where one is given, is the algorithm's.
fn is_padded(said: Option<Padding>, own: Option<Padding>) -> bool
    ensures { result ≡ is_padded said own }
{
    match said {
        Some(said) => match own {
            Some(own) => is_same_padding(said, own),
            None => false,
        },
        None => true,
    }
}

/// Whether the algorithm signs so.
fn signs_so(signing: Signing, digest: Option<Digest>, padding: Option<Padding>) -> bool
    ensures { result ≡ signs_so signing digest padding }
{
    is_fit(signing.digest, digest) && is_padded(signing.padding, padding)
}

/// The first of these whose keys are named by the element, and which signs so.
fn first_of(rows: &[Row], element: &[u8], signing: Signing) -> Option<Row>
    ensures { result ≡ find (λ row. pointwise nat_eq (key_element row.0) element.now && signs_so signing row.1 row.2) rows.now }
{
    rows.iter().copied().find(|row| row.0.key_element() == element
        && signs_so(signing, row.1, row.2))
}

/// The first algorithm whose keys are named by the element, and which signs so.
#[tactic(auto, unfolding(crate::specs::Keys::rows, crate::specs::Keys::first_fit))]
fn first_fit(element: &[u8], signing: Signing) -> Option<SignatureAlgorithm>
    ensures { result ≡ first_fit element.now signing }
{
    match first_of(&ALGORITHMS, element, signing) {
        Some(row) => Some(row.0),
        None => None,
    }
}

/// As any algorithm of the key signs.
pub const ANY: Signing = Signing {
    digest: None,
    padding: None,
};

/// With the hash function alone.
fn digest_alone(signing: Signing) -> Signing
    ensures { result ≡ digest_alone signing }
{
    Signing {
        digest: signing.digest,
        padding: None,
    }
}

/// The algorithm of the signatures of a key that is named by the element, which contains this identifier.
#[tactic(auto, unfolding(crate::specs::Keys::algorithm_for))]
fn algorithm_for(
    alloc: Global,
    place: Place,
    id: &ObjectIdentifier,
    element: &[u8],
    signing: Signing,
) -> Result<SignatureAlgorithm, Fault>
    ensures { Gets (λ a. a) (algorithm_for place id.now element.now signing) result }
{
    if first_fit(element, ANY).is_none() {
        let id = id.try_clone(alloc)?;
        return Err(Fault::Key(place, KeyFault::Unknown(id)));
    }
    if first_fit(element, digest_alone(signing)).is_none() {
        let id = id.try_clone(alloc)?;
        return Err(Fault::Key(place, KeyFault::OtherDigest(id)));
    }
    match first_fit(element, signing) {
        Some(algorithm) => Ok(algorithm),
        None => {
            let id = id.try_clone(alloc)?;
            Err(Fault::Key(place, KeyFault::OtherPadding(id)))
        }
    }
}

/// The key of this info, with the algorithm of its signatures, whose hash function and padding may be given.
#[tactic(auto, unfolding(crate::specs::Keys::key_of_info))]
pub fn key_of_info(
    alloc: Global,
    place: Place,
    signing: Signing,
    info: &SubjectPublicKeyInfo,
) -> Result<PublicKey, Fault>
    ensures { Gets (λ k. k) (key_of_info place signing info.now) result }
{
    if info.subject_public_key.unused() != 0 {
        return Err(Fault::Key(place, KeyFault::NotRead));
    }
    let element = encoded(alloc, &info.algorithm, Fault::Key(place, KeyFault::NotRead))?;
    if !parameters_fit(alloc, &info.algorithm)? {
        return Err(Fault::Key(place, KeyFault::Parameters));
    }
    let algorithm = algorithm_for(alloc, place, &info.algorithm.algorithm, &element, signing)?;
    let octets = Vec::from_slice(alloc, info.subject_public_key.bytes())?;
    Ok(PublicKey::new(octets, algorithm))
}

/// The key whose SubjectPublicKeyInfo the octets are.
#[tactic(auto, unfolding(crate::specs::Keys::public_key))]
pub fn public_key(
    alloc: Global,
    place: Place,
    octets: &[u8],
    signing: Signing,
) -> Result<PublicKey, Fault>
    ensures { Gets (λ k. k) (public_key place octets.now signing) result }
{
    let Some(info) = der::value_of::<SubjectPublicKeyInfo>(alloc, octets)? else {
        return Err(Fault::Key(place, KeyFault::NotRead));
    };
    key_of_info(alloc, place, signing, &info)
}
