//! Rules of keys and of the algorithms of signatures (RFC 3279; RFC 5480; RFC 8410).
ghost use Rattle.std.specs.Prelude.{◌≡◌, IfOk};
ghost use Rattle.rule_table.specs.Found.{when};
ghost use Rattle.pkix_rules.specs.Keys.{curve_named, has_bad_parameters, is_ec, is_ed, is_exponent_bad, is_exponent_sized, is_identifier, is_null, is_off_curve, is_point_form, is_rsa, is_short, key_rules, kind_of, octet_rules, parameter_rules, point_rules, rsa_rules, size_of_number};

use crate::extension::is_among;
use crate::identifiers::{
    BARE_SIGNATURES, EC_KEYS, ED448_KEYS, ED25519_KEYS, RSA_KEYS, RSA_SIGNATURES,
};
use crate::integer::is_odd_above_one;
use asn1_core::{ObjectIdentifier, OutOfMemory};
use der_tree::{Any, der};
use ecdsa::{Curve, is_public_key};
use pkix_alg::RsaPublicKey;
use pkix_cert::{AlgorithmIdentifier, SubjectPublicKeyInfo};
use rule_table::{Rule, add, note};
use std::alloc::Global;

/// What kind of key it is, as rules distinguish them.
#[derive(Clone, Copy, Debug, PartialEq, Eq)]
pub(crate) enum KeyKind {
    Rsa,
    Ec,
    Ed25519,
    Ed448,
    Other,
}

impl KeyKind {
    pub(crate) fn is_rsa(self) -> bool
        ensures { result ≡ is_rsa self }
    {
        match self {
            KeyKind::Rsa => true,
            KeyKind::Ec => false,
            KeyKind::Ed25519 => false,
            KeyKind::Ed448 => false,
            KeyKind::Other => false,
        }
    }

    pub(crate) fn is_ec(self) -> bool
        ensures { result ≡ is_ec self }
    {
        match self {
            KeyKind::Rsa => false,
            KeyKind::Ec => true,
            KeyKind::Ed25519 => false,
            KeyKind::Ed448 => false,
            KeyKind::Other => false,
        }
    }

    pub(crate) fn is_ed(self) -> bool
        ensures { result ≡ is_ed self }
    {
        match self {
            KeyKind::Rsa => false,
            KeyKind::Ec => false,
            KeyKind::Ed25519 => true,
            KeyKind::Ed448 => true,
            KeyKind::Other => false,
        }
    }
}

/// The kind of the keys of an algorithm.
pub(crate) fn kind_of(algorithm: &ObjectIdentifier) -> KeyKind
    ensures { result ≡ kind_of algorithm.now }
{
    if is_among(algorithm.arcs(), RSA_KEYS) {
        KeyKind::Rsa
    } else if is_among(algorithm.arcs(), EC_KEYS) {
        KeyKind::Ec
    } else if is_among(algorithm.arcs(), ED25519_KEYS) {
        KeyKind::Ed25519
    } else if is_among(algorithm.arcs(), ED448_KEYS) {
        KeyKind::Ed448
    } else {
        KeyKind::Other
    }
}

/// Whether the parameters are NULL.
fn is_null(parameters: &Option<Any>) -> bool
    ensures { result ≡ is_null parameters.now }
{
    match parameters {
        None => false,
        Some(value) => value.as_bytes() == [5, 0].as_slice(),
    }
}

/// Whether the parameters are an object identifier.
fn is_identifier(alloc: Global, parameters: &Option<Any>) -> Result<bool, OutOfMemory>
    ensures { IfOk result (λ b. b ≡ is_identifier parameters.now) }
{
    match parameters {
        None => Ok(false),
        Some(value) => {
            let id: Option<ObjectIdentifier> = der::value_of(alloc, value.as_bytes())?;
            Ok(id.is_some())
        }
    }
}

/// Of the parameters of a key.
#[tactic(auto, unfolding(crate::specs::Keys::parameter_rules))]
fn parameter_rules(
    alloc: Global,
    kind: KeyKind,
    parameters: &Option<Any>,
) -> Result<Vec<Rule>, OutOfMemory>
    ensures { IfOk result (λ v. v.items ≡ parameter_rules kind parameters.now) }
{
    let mut found = Vec::new(alloc);
    note(
        &mut found,
        Rule::RsaParameters,
        kind.is_rsa() && !is_null(parameters),
    )?;
    let named = is_identifier(alloc, parameters)?;
    note(&mut found, Rule::EcParameters, kind.is_ec() && !named)?;
    note(
        &mut found,
        Rule::EdParameters,
        kind.is_ed() && parameters.is_some(),
    )?;
    Ok(found)
}

/// Whether an RSA modulus has fewer than 2048 bits: its contents fewer than 256 octets after a zero.
fn is_short(key: &RsaPublicKey) -> bool
    ensures { result ≡ is_short key.now }
{
    key.modulus.as_bytes().len() < 257
}

/// Whether the exponent or the modulus isn't odd and above 1.
fn is_exponent_bad(key: &RsaPublicKey) -> bool
    ensures { result ≡ is_exponent_bad key.now }
{
    !is_odd_above_one(&key.public_exponent) || !is_odd_above_one(&key.modulus)
}

/// How many octets a positive number has, of its contents octets.
fn size_of_number(contents: &[u8]) -> usize
    ensures { result ≡ size_of_number contents.now }
{
    match contents {
        [0, rest @ ..] => rest.len(),
        all => all.len(),
    }
}

/// Whether the exponent has 3 to 32 octets: more than 16 bits and at most 256.
fn is_exponent_sized(key: &RsaPublicKey) -> bool
    ensures { result ≡ is_exponent_sized key.now }
{
    let size = size_of_number(key.public_exponent.as_bytes());
    2 < size && size < 33
}

/// Of an RSA key that is read, or can't be.
#[tactic(auto, unfolding(crate::specs::Keys::rsa_rules))]
fn rsa_rules(alloc: Global, key: &Option<RsaPublicKey>) -> Result<Vec<Rule>, OutOfMemory>
    ensures { IfOk result (λ v. v.items ≡ rsa_rules key.now) }
{
    let mut found = Vec::new(alloc);
    let Some(key) = key else {
        note(&mut found, Rule::UnreadableKey, true)?;
        return Ok(found);
    };
    note(&mut found, Rule::ShortRsaKey, is_short(key))?;
    note(&mut found, Rule::RsaExponent, is_exponent_bad(key))?;
    note(&mut found, Rule::RsaExponentSize, !is_exponent_sized(key))?;
    Ok(found)
}

/// Of the octets of an RSA key.
#[tactic(auto, unfolding(crate::specs::Keys::octet_rules))]
fn rsa_octet_rules(alloc: Global, octets: &[u8]) -> Result<Vec<Rule>, OutOfMemory>
    ensures { IfOk result (λ v. v.items ≡ octet_rules KeyKind.Rsa octets.now) }
{
    let key: Option<RsaPublicKey> = der::value_of(alloc, octets)?;
    let found = rsa_rules(alloc, &key)?;
    Ok(found)
}

/// Whether the octets have the form of a point: two coordinates after 04, or one after 02 or 03.
fn is_point_form(octets: &[u8]) -> bool
    ensures { result ≡ is_point_form octets.now }
{
    match octets {
        [] => false,
        [first, rest @ ..] => {
            !rest.is_empty() && (*first == 2 || *first == 3 || (*first == 4 && rest.len() % 2 == 0))
        }
    }
}

/// That the octets aren't a key, where they aren't.
fn unreadable(alloc: Global, broken: bool) -> Result<Vec<Rule>, OutOfMemory>
    ensures { IfOk result (λ v. v.items ≡ when broken Rule.UnreadableKey) }
{
    let mut found = Vec::new(alloc);
    note(&mut found, Rule::UnreadableKey, broken)?;
    Ok(found)
}

/// Of the key's own octets.
#[tactic(auto, unfolding(crate::specs::Keys::octet_rules))]
fn octet_rules(alloc: Global, kind: KeyKind, octets: &[u8]) -> Result<Vec<Rule>, OutOfMemory>
    ensures { IfOk result (λ v. v.items ≡ octet_rules kind octets.now) }
{
    match kind {
        KeyKind::Rsa => rsa_octet_rules(alloc, octets),
        KeyKind::Ec => unreadable(alloc, !is_point_form(octets)),
        KeyKind::Ed25519 => unreadable(alloc, octets.len() != 32),
        KeyKind::Ed448 => unreadable(alloc, octets.len() != 57),
        KeyKind::Other => Ok(Vec::new(alloc)),
    }
}

/// The curve whose identifier's DER this is.
fn curve_named(id: &[u8]) -> Option<Curve>
    ensures { result ≡ curve_named id.now }
{
    if id == [6, 8, 42, 134, 72, 206, 61, 3, 1, 7].as_slice() {
        Some(Curve::P256)
    } else if id == [6, 5, 43, 129, 4, 0, 34].as_slice() {
        Some(Curve::P384)
    } else if id == [6, 5, 43, 129, 4, 0, 35].as_slice() {
        Some(Curve::P521)
    } else {
        None
    }
}

/// Whether the octets have the form of a point and aren't a public key of the curve that the parameters name.
fn is_off_curve(parameters: &Option<Any>, octets: &[u8]) -> bool
    ensures { result ≡ is_off_curve parameters.now octets.now }
{
    match parameters {
        None => false,
        Some(value) => match curve_named(value.as_bytes()) {
            None => false,
            Some(curve) => is_point_form(octets) && !is_public_key(curve, octets),
        },
    }
}

/// Of the point that a key is.
fn point_rules(
    alloc: Global,
    kind: KeyKind,
    parameters: &Option<Any>,
    octets: &[u8],
) -> Result<Vec<Rule>, OutOfMemory>
    ensures { IfOk result (λ v. v.items ≡ point_rules kind parameters.now octets.now) }
{
    let mut found = Vec::new(alloc);
    note(
        &mut found,
        Rule::PointOffCurve,
        kind.is_ec() && is_off_curve(parameters, octets),
    )?;
    Ok(found)
}

/// The rules of a key that are broken, in order.
#[tactic(auto, unfolding(crate::specs::Keys::key_rules))]
pub(crate) fn key_rules(alloc: Global, key: &SubjectPublicKeyInfo) -> Result<Vec<Rule>, OutOfMemory>
    ensures { IfOk result (λ v. v.items ≡ key_rules key.now) }
{
    let kind = kind_of(&key.algorithm.algorithm);
    let mut found = parameter_rules(alloc, kind, &key.algorithm.parameters)?;
    let octets = key.subject_public_key.bytes();
    let others = octet_rules(alloc, kind, octets)?;
    add(&mut found, others)?;
    let others = point_rules(alloc, kind, &key.algorithm.parameters, octets)?;
    add(&mut found, others)?;
    Ok(found)
}

/// Whether the parameters of a signature's algorithm aren't those that it has (RFC 3279, 2.2.1; RFC 5758, 3.2; RFC 8410, 3).
pub(crate) fn has_bad_parameters(algorithm: &AlgorithmIdentifier) -> bool
    ensures { result ≡ has_bad_parameters algorithm.now }
{
    (is_among(algorithm.algorithm.arcs(), RSA_SIGNATURES) && !is_null(&algorithm.parameters))
        || (is_among(algorithm.algorithm.arcs(), BARE_SIGNATURES) && algorithm.parameters.is_some())
}
