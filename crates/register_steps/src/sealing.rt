//! What a signature makes of a message.
ghost use Rattle.std.specs.Prelude.{◌≡◌, None, Some, true, false, IfOk, IfErr, IfSome};
ghost use Rattle.std.specs.Option.{option_map};
ghost use Rattle.asn1_core.specs.Bits.{bits};
ghost use Rattle.der_tree.specs.Form.{IsDerOf, value_of};
ghost use Rattle.der_tree.specs.Grammar.{any};
ghost use Rattle.der_tree.specs.HasTree.{HasTree};
ghost use Rattle.pkix_attr.specs.Certificates.{attribute_certificate_info};
ghost use Rattle.pkix_cert.specs.Algorithms.{algorithm_identifier};
ghost use Rattle.pkix_cert.specs.Certificates.{tbs_certificate};
ghost use Rattle.pkix_cert.specs.Revocations.{tbs_cert_list};
ghost use Rattle.rcgen_certificate.specs.Signed.{signed, signed_value};
ghost use Rattle.register_steps.specs.Messages.{algorithm_in};
ghost use Rattle.register_steps.specs.SignedOctets.{signed_octets};
ghost use Rattle.signature_verifier.specs.Accepted.{accepts};
ghost use Rattle.register_steps.specs.Sealing.{ExplainsOpen, ExplainsSeal, HasVerdict, IsOpened, IsSealed, verifier};
ghost use Rattle.register_steps.specs.declared.sealing.SealError.TheVariants.{OutOfMemory as NoMemory};

use crate::encoding::{are_same, encoded};
use crate::signed_octets::SignedOctets;
use asn1_core::{BitString, OctetString, OutOfMemory, TryClone};
use der_tree::{Any, der};
use pkix_attr::AttributeCertificateInfo;
use pkix_cert::{AlgorithmIdentifier, CertificateView, TbsCertList, TbsCertificate};
use rcgen_sign::Verifier;
use signature_verifier::SignatureVerifier;
use std::alloc::Global;

/// Why a signature makes nothing of a message.
#[derive(Clone, Copy, Debug)]
pub enum SealError {
    /// The issuer's octets begin with no certificate.
    NoIssuer,
    /// The message isn't the DER of a TBSCertificate, an AttributeCertificateInfo or a TBSCertList.
    NotMessage,
    /// The issuer's key didn't make the signature of the message, by the algorithm that it names.
    WrongSignature,
    /// The certificate names another issuer: only `imported` looks at it.
    OtherIssuer,
    OutOfMemory,
}

impl From<OutOfMemory> for SealError {
    ghost use Rattle.std.specs.Prelude.{◌≡◌};
    ghost use Rattle.register_steps.specs.declared.sealing.SealError.TheVariants.{OutOfMemory as NoMemory};

    ghost from_gives = { λ _ r. r ≡ NoMemory };

    fn from(_: OutOfMemory) -> SealError {
        SealError::OutOfMemory
    }
}

fn certificate_algorithm(
    alloc: Global,
    message: &[u8],
) -> Result<Option<AlgorithmIdentifier>, OutOfMemory>
    ensures { IfOk result (λ o. o ≡ option_map (λ t. t.signature) (value_of tbs_certificate message.now)) }
{
    let Some(tbs) = der::value_of::<TbsCertificate>(alloc, message)? else {
        return Ok(None);
    };
    let algorithm = tbs.signature.try_clone(alloc)?;
    Ok(Some(algorithm))
}

fn attribute_algorithm(
    alloc: Global,
    message: &[u8],
) -> Result<Option<AlgorithmIdentifier>, OutOfMemory>
    ensures { IfOk result (λ o. o ≡ option_map (λ i. i.signature) (value_of attribute_certificate_info message.now)) }
{
    let Some(info) = der::value_of::<AttributeCertificateInfo>(alloc, message)? else {
        return Ok(None);
    };
    let algorithm = info.signature.try_clone(alloc)?;
    Ok(Some(algorithm))
}

fn list_algorithm(alloc: Global, message: &[u8]) -> Result<Option<AlgorithmIdentifier>, OutOfMemory>
    ensures { IfOk result (λ o. o ≡ option_map (λ t. t.signature) (value_of tbs_cert_list message.now)) }
{
    let Some(list) = der::value_of::<TbsCertList>(alloc, message)? else {
        return Ok(None);
    };
    let algorithm = list.signature.try_clone(alloc)?;
    Ok(Some(algorithm))
}

/// The algorithm by which a message says that it is signed.
#[tactic(auto, unfolding(crate::specs::Messages::algorithm_in))]
pub fn algorithm_in(
    alloc: Global,
    message: &[u8],
) -> Result<Option<AlgorithmIdentifier>, OutOfMemory>
    ensures { IfOk result (λ o. o ≡ algorithm_in message.now) }
{
    if let Some(algorithm) = certificate_algorithm(alloc, message)? {
        return Ok(Some(algorithm));
    }
    if let Some(algorithm) = attribute_algorithm(alloc, message)? {
        return Ok(Some(algorithm));
    }
    let algorithm = list_algorithm(alloc, message)?;
    Ok(algorithm)
}

/// Whether the key made the signature of the message by the algorithm of this name.
fn is_accepted(message: &[u8], key: &[u8], name: &[u8], signature: &[u8]) -> bool
    ensures { result ≡ accepts verifier message.now key.now name.now signature.now }
{
    SignatureVerifier::new().verify(message, key, name, signature)
}

/// The algorithm of a message whose signature the issuer's key made.
fn verified(
    alloc: Global,
    issuer: &[u8],
    message: &[u8],
    signature: &[u8],
) -> Result<AlgorithmIdentifier, SealError>
    ensures ok { IfOk result (λ a. HasVerdict issuer.now message.now signature.now a true) }
    ensures why { IfErr result (ExplainsSeal issuer.now message.now signature.now) }
{
    let Some(view) = CertificateView::new(issuer) else {
        return Err(SealError::NoIssuer);
    };
    let Some(algorithm) = algorithm_in(alloc, message)? else {
        return Err(SealError::NotMessage);
    };
    let name = encoded(alloc, &algorithm)?;
    if !is_accepted(message, view.key_info(), name.as_slice(), signature) {
        return Err(SealError::WrongSignature);
    }
    Ok(algorithm)
}

fn element(alloc: Global, message: &[u8]) -> Result<Any, OutOfMemory>
    ensures { IfOk result (λ element. element ≡ message.now) }
{
    let octets = Vec::from_slice(alloc, message)?;
    Ok(Any::new(octets))
}

fn all_bits(alloc: Global, signature: &[u8]) -> Result<BitString, OutOfMemory>
    ensures { IfOk result (λ all. all ≡ bits 0 signature.now) }
{
    let octets = Vec::from_slice(alloc, signature)?;
    Ok(BitString::new(octets, 0).unwrap())
}

/// The message as it is, the algorithm and the signature.
fn assembled(
    alloc: Global,
    message: &[u8],
    algorithm: AlgorithmIdentifier,
    signature: &[u8],
) -> Result<Vec<u8>, OutOfMemory>
    requires { algorithm_in message.now ≡ Some algorithm }
    ensures { IfOk result (λ der. IsDerOf (signed any) (signed_value message.now algorithm (bits 0 signature.now)) der.items) }
{
    let to_be_signed = element(alloc, message)?;
    let signature = all_bits(alloc, signature)?;
    let value = SignedOctets {
        to_be_signed,
        algorithm,
        signature,
    };
    let der = encoded(alloc, &value)?;
    Ok(der)
}

/// What a signature makes of a message: the DER of a certificate, of an attribute certificate or of a
/// list. The key is that of the issuer's certificate, at the front of its octets.
pub fn sealed(
    alloc: Global,
    issuer: &[u8],
    message: &[u8],
    signature: &[u8],
) -> Result<Vec<u8>, SealError>
    ensures ok { IfOk result (λ der. IsSealed issuer.now message.now signature.now der.items) }
    ensures why { IfErr result (ExplainsSeal issuer.now message.now signature.now) }
{
    let algorithm = verified(alloc, issuer, message, signature)?;
    let der = assembled(alloc, message, algorithm, signature)?;
    Ok(der)
}

fn copy(alloc: Global, octets: &[u8]) -> Result<OctetString, OutOfMemory>
    ensures { IfOk result (λ copy. copy ≡ octets.now) }
{
    let octets = Vec::from_slice(alloc, octets)?;
    Ok(OctetString::new(octets))
}

/// What is sealed of the parts of these octets.
fn sealed_again(
    alloc: Global,
    issuer: &[u8],
    parts: &SignedOctets,
    octets: &[u8],
) -> Result<Vec<u8>, SealError>
    requires { value_of signed_octets octets.now ≡ Some parts.now }
    ensures ok { IfOk result (λ der. IsSealed issuer.now parts.now.to_be_signed parts.now.signature.bytes der.items) }
    ensures why { IfErr result (ExplainsOpen issuer.now octets.now) }
{
    let message = parts.to_be_signed.as_bytes();
    match sealed(alloc, issuer, message, parts.signature.bytes()) {
        Ok(der) => Ok(der),
        Err(why) => Err(why),
    }
}

/// The message of which a signature made these octets: `sealed` the other way. Refused exactly where
/// no signature of the issuer's key makes them of a message.
pub fn opened(alloc: Global, issuer: &[u8], octets: &[u8]) -> Result<OctetString, SealError>
    ensures ok { IfOk result (IsOpened issuer.now octets.now) }
    ensures why { IfErr result (ExplainsOpen issuer.now octets.now) }
{
    let Some(parts) = der::value_of::<SignedOctets>(alloc, octets)? else {
        return Err(SealError::NotMessage);
    };
    let der = sealed_again(alloc, issuer, &parts, octets)?;
    if !are_same(der.as_slice(), octets) {
        return Err(SealError::NotMessage);
    }
    let message = copy(alloc, parts.to_be_signed.as_bytes())?;
    Ok(message)
}
