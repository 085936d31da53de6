//! Values that issuing puts together.
ghost use Rattle.std.specs.Prelude.{◌≡◌, ℕ, List, true, IfOk, IfErr, pos, ◌≤ℤ◌};
ghost use Rattle.std.specs.Option.{option_copied};
ghost use Rattle.asn1_core.specs.Arcs.{is_oid};
ghost use Rattle.asn1_core.specs.Bits.{bits};
ghost use Rattle.asn1_core.specs.Moment.{has_utc};
ghost use Rattle.asn1_core.specs.Twos.{is_shortest, unsigned};
ghost use Rattle.asn1_core.specs.Written.{IsWritten};
ghost use Rattle.der_tree.specs.CharacterStrings.{ia5_string};
ghost use Rattle.der_tree.specs.Form.{IsDerOf};
ghost use Rattle.der_tree.specs.HasTree.{HasTree};
ghost use Rattle.pkix_cert.specs.Algorithms.{algorithm_identifier, subject_public_key_info};
ghost use Rattle.pkix_cert.specs.Times.{time, time_parts, validity};
ghost use Rattle.rcgen_sign.specs.Algorithms.{key_algorithm_value};
ghost use Rattle.rcgen_sign.specs.KeyInfos.{key_algorithm as key_algorithm_codec, key_info};
ghost use Rattle.rcgen_sign.specs.Keys.{Key, key_info_value};
ghost use Rattle.rcgen_sign.specs.declared.sign_algo.SignatureAlgorithm.{SignatureAlgorithm};
ghost use Rattle.rcgen_certificate.specs.AsciiTexts.{is_ascii};
ghost use Rattle.rcgen_certificate.specs.Serials.{serial_of, default_serial};
ghost use Rattle.rcgen_certificate.specs.WrittenTimes.{IsWrittenMoment};
ghost use Rattle.rcgen_certificate.specs.KeyValues.{signature_identifier, key_algorithm, key_value};
ghost use Rattle.rcgen_text.specs.declared.error.Error.TheVariants.{OutOfMemory};

use asn1_core::{
    BitString, GeneralizedTime, Ia5String, Integer, ObjectIdentifier, OffsetDateTime, OidFault,
    TextFault, UtcTime, has_utc_time_year, whole_seconds,
};
use der_tree::Any;
use jiff::civil::DateTime;
use pkix_cert::{AlgorithmIdentifier, SubjectPublicKeyInfo, Time, Validity};
use rcgen_sign::{KeyInfo, SignatureAlgorithm};
use rcgen_text::{Error, SerialNumber};
use sha2::{Digest, Sha256};
use std::alloc::Global;

/// The identifier of these arcs.
pub(crate) fn identifier_from_u64(alloc: Global, arcs: &[u64]) -> Result<ObjectIdentifier, Error>
    requires { is_oid arcs.now ≡ true }
    ensures arcs { IfOk result (λ id. id ≡ arcs.now) }
    ensures memory { IfErr result (λ e. e ≡ OutOfMemory) }
{
    match ObjectIdentifier::from_u64(alloc, arcs) {
        Ok(id) => Ok(id),
        Err(OidFault::OutOfMemory) => Err(Error::OutOfMemory),
        Err(_) => unreachable!(),
    }
}

/// The text as an IA5String.
#[tactic(auto, using(crate::proofs::Rows::no_fault))]
pub(crate) fn ia5_text(alloc: Global, text: &str) -> Result<Ia5String, Error>
    requires { is_ascii text.now ≡ true }
    ensures value { IfOk result (λ t. t ≡ text.now) }
    ensures formed { IfOk result (HasTree ia5_string) }
    ensures memory { IfErr result (λ e. e ≡ OutOfMemory) }
{
    match Ia5String::new(alloc, text.as_bytes()) {
        Ok(text) => Ok(text),
        Err(TextFault::OutOfMemory) => Err(Error::OutOfMemory),
        Err(_) => unreachable!(),
    }
}

/// All of the bytes as bits.
pub(crate) fn all_bits(bytes: Vec<u8>) -> BitString
    ensures { result ≡ bits 0 bytes.items }
{
    BitString::new(bytes, 0).unwrap()
}

/// How certificates name the algorithm of their signatures.
#[tactic(auto, using(crate::proofs::IssuedTrees::formed), unfolding(pkix_cert::specs::Algorithms::algorithm_identifier_fields))]
pub fn signature_identifier(
    alloc: Global,
    algorithm: SignatureAlgorithm,
) -> Result<AlgorithmIdentifier, Error>
    ensures value { IfOk result (λ a. a ≡ signature_identifier algorithm) }
    ensures formed { IfOk result (HasTree algorithm_identifier) }
    ensures memory { IfErr result (λ e. e ≡ OutOfMemory) }
{
    let parameters = match algorithm.signature_parameters() {
        Some(element) => Some(Any::new(Vec::from_slice(alloc, element)?)),
        None => None,
    };
    let algorithm = identifier_from_u64(alloc, algorithm.signature_arcs())?;
    Ok(AlgorithmIdentifier {
        algorithm,
        parameters,
    })
}

/// The public key as certificates have it.
#[tactic(auto, unfolding(rcgen_sign::specs::KeyInfos::key_info_fields, rcgen_sign::specs::KeyInfos::key_algorithm_fields, pkix_cert::specs::Algorithms::subject_public_key_info_fields, pkix_cert::specs::Algorithms::algorithm_identifier_fields))]
pub(crate) fn key_value(
    alloc: Global,
    algorithm: SignatureAlgorithm,
    key: &[u8],
) -> Result<SubjectPublicKeyInfo, Error>
    ensures value { IfOk result (λ k. k ≡ key_value algorithm key.now) }
    ensures formed { IfOk result (HasTree subject_public_key_info) }
    ensures memory { IfErr result (λ e. e ≡ OutOfMemory) }
{
    let info = KeyInfo::new(alloc, algorithm, key)?;
    let (algorithm, subject_public_key) = info.into_parts();
    let (algorithm, parameters) = algorithm.into_parts();
    Ok(SubjectPublicKeyInfo {
        algorithm: AlgorithmIdentifier {
            algorithm,
            parameters,
        },
        subject_public_key,
    })
}

/// A law: a key's info and its algorithm have the forms of the certificate's fields.
#[tactic(auto, using(crate::proofs::IssuedTrees::fields))]
pub fn key_infos_are_fields()
    ensures key { (k : Key) (b : List ℕ) → IsDerOf key_info (key_info_value k) b → IsDerOf subject_public_key_info (key_value k.algorithm k.octets) b }
    ensures algorithm { (a : SignatureAlgorithm) (b : List ℕ) → IsDerOf key_algorithm_codec (key_algorithm_value a) b → IsDerOf algorithm_identifier (key_algorithm a) b }
{}

/// The serial number: the parameters' own, or the first 160 bits of the SHA-256 of the key, the
/// highest cleared.
pub(crate) fn serial_number(
    alloc: Global,
    given: Option<&SerialNumber>,
    key: &[u8],
) -> Result<Integer, Error>
    ensures value { IfOk result (λ n. n ≡ serial_of (option_copied given.entry) key.now) }
    ensures shortest { IfOk result (λ n. is_shortest n ≡ true) }
    ensures memory { IfErr result (λ e. e ≡ OutOfMemory) }
{
    match given {
        Some(serial) => Ok(Integer::from_unsigned(alloc, serial.as_slice())?),
        None => default_serial(alloc, key),
    }
}

fn default_serial(alloc: Global, key: &[u8]) -> Result<Integer, Error>
    ensures value { IfOk result (λ n. n ≡ unsigned (default_serial key.now)) }
    ensures shortest { IfOk result (λ n. is_shortest n ≡ true) }
    ensures memory { IfErr result (λ e. e ≡ OutOfMemory) }
{
    let digest = Sha256::digest(key);
    let mut serial = Vec::from_slice(alloc, &digest[..20])?;
    serial[0] %= 128;
    Ok(Integer::from_unsigned(alloc, serial.as_slice())?)
}

/// The form of a civil time in UTC that its year asks for (RFC 5280, 4.1.2.5).
#[tactic(auto, using(crate::proofs::TableTrees::written_has))]
fn written(at: DateTime) -> Time
    requires { pos 0 ≤ℤ at.date.year }
    ensures value { IsWritten at (time_parts result) }
    ensures formed { HasTree time result }
{
    let whole = whole_seconds(at);
    if has_utc_time_year(at) {
        Time::Utc(UtcTime { at: whole })
    } else {
        Time::General(GeneralizedTime { at: whole })
    }
}

/// The written time of a moment.
pub fn written_moment(moment: &OffsetDateTime) -> Time
    requires { has_utc moment.now ≡ true }
    ensures value { IsWrittenMoment moment.now result }
    ensures formed { HasTree time result }
{
    match moment.utc() {
        Some(at) => written(at),
        None => unreachable!(),
    }
}

/// The validity from one moment to another, in whichever order.
#[tactic(auto, unfolding(pkix_cert::specs::Times::validity_fields))]
pub(crate) fn validity(from: &OffsetDateTime, to: &OffsetDateTime) -> Validity
    requires from { has_utc from.now ≡ true }
    requires to { has_utc to.now ≡ true }
    ensures from { IsWrittenMoment from.now result.not_before }
    ensures to { IsWrittenMoment to.now result.not_after }
    ensures formed { HasTree validity result }
{
    Validity {
        not_before: written_moment(from),
        not_after: written_moment(to),
    }
}
