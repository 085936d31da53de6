//! Certification requests, read (RFC 2986).
ghost use Rattle.std.specs.Prelude.{◌≡◌, true, None, IfOk, IfErr, OnOk, ok_or};
ghost use Rattle.rcgen_text.specs.Causes.{Explains, not_request, origin_of, unsupported_algorithm};
ghost use Rattle.rcgen_text.specs.declared.error.Error.TheVariants.{OutOfMemory as NoMemory};
ghost use Rattle.rcgen_sign.specs.Keys.{key_of_parts};
ghost use Rattle.rcgen_certificate.specs.Issue.{first_cause, Issues, Refuses};
ghost use Rattle.rcgen_certificate.specs.Issuers.{key_of, view_of};
ghost use Rattle.rcgen_certificate.specs.Params.{SaysSame};
ghost use Rattle.rcgen_certificate.specs.ParamsView.{params_view};
ghost use Rattle.rcgen_read.specs.ExtensionReading.{asked_view};
ghost use Rattle.rcgen_read.specs.Reading.{Reads, ReadsAs};
ghost use Rattle.rcgen_read.specs.ReceivedRequests.{received_at, received_view};
ghost use Rattle.rcgen_read.specs.contracts.request.CertificateSigningRequestParamsPartialEq.TheImpl.{ghosts as equality};
ghost use Rattle.rcgen_read.specs.RequestReading.{algorithm_of, AreParamsOf, IsAskedFor, IsReadAs, asked_of, key_algorithm_of, read_request, verified};

use crate::extended_key_usage::each_once;
use crate::extensions::{Asked, asked_for};
use crate::name::distinguished_name;
use crate::received::{ReceivedRequest, received_at};
use asn1_core::{OutOfMemory, TryClone};
use der_tree::DecodeError;
use pkix_cert::{AlgorithmIdentifier, CertificationRequest, Extension};
use pkix_name::Name;
use rcgen_issue::{
    Certificate, CertificateParams, DistinguishedName, Error, Issuer, PublicKey,
    SignatureAlgorithm, SigningKey,
};
use rcgen_sign::{KeyAlgorithm, Verifier};
use std::alloc::Global;

/// What a certification request asks for, as parameters have it, and the key that it is for.
#[derive(Clone, Debug, PartialEq, Eq, Drop)]
pub struct CertificateSigningRequestParams {
    /// The name and the extensions that are asked for, and else the defaults.
    pub params: CertificateParams,
    /// The key of the request.
    pub public_key: PublicKey,
}

// no `TryClone`: a copied `Vec` may have another capacity
impl CertificateSigningRequestParams {
    /// Parameters that say the same, and the same key.
    #[tactic(auto, using(crate::proofs::Equality::requests_equal))]
    pub fn try_clone(&self, alloc: Global) -> Result<CertificateSigningRequestParams, OutOfMemory>
        ensures params { IfOk result (λ copy. SaysSame self.now.params copy.params) }
        ensures key { IfOk result (λ copy. copy.public_key ≡ self.now.public_key) }
        ensures equal { IfOk result (λ copy. equality.eq copy self.now ≡ true) }
    {
        let params = self.params.try_clone(alloc)?;
        let public_key = self.public_key.try_clone(alloc)?;
        Ok(CertificateSigningRequestParams { params, public_key })
    }
}

/// The request at the front of the input.
fn received<'a>(alloc: Global, der: &'a [u8]) -> Result<ReceivedRequest<'a>, Error>
    ensures { ReadsAs received_view (ok_or (received_at der.now) not_request) result }
{
    match received_at(alloc, der) {
        Ok(received) => Ok(received),
        Err(DecodeError::NotInGrammar) => Err(Error::CouldNotParseCertificationRequest),
        Err(DecodeError::OutOfMemory) => Err(Error::OutOfMemory),
    }
}

/// Asks the verifier about the octets of the input.
#[tactic(auto, unfolding(crate::specs::RequestReading::verified))]
fn verify<V: Verifier>(received: &ReceivedRequest<'_>, verifier: &V) -> Result<(), Error>
    ensures { ReadsAs (λ u. u) (verified (V.accepts verifier.now) (received_view received.now)) result }
{
    let signed = &received.signed;
    let signature = received.request.signature.bytes();
    if verifier.verify(signed.info, signed.key_info, signed.algorithm, signature) {
        Ok(())
    } else {
        Err(Error::InvalidCertificationRequestSignature)
    }
}

/// The same identifier, as keys have it.
fn key_algorithm(alloc: Global, identifier: &AlgorithmIdentifier) -> Result<KeyAlgorithm, Error>
    ensures value { IfOk result (λ k. k ≡ key_algorithm_of identifier.now) }
    ensures memory { IfErr result (λ e. e ≡ NoMemory) }
{
    let algorithm = identifier.algorithm.try_clone(alloc)?;
    let parameters = match &identifier.parameters {
        Some(parameters) => Some(parameters.try_clone(alloc)?),
        None => None,
    };
    Ok(KeyAlgorithm {
        algorithm,
        parameters,
    })
}

/// The algorithm of the request's signature and of its key.
#[tactic(auto, unfolding(crate::specs::RequestReading::algorithm_of))]
fn algorithm_of(alloc: Global, request: &CertificationRequest) -> Result<SignatureAlgorithm, Error>
    ensures { ReadsAs (λ a. a) (ok_or (algorithm_of request.now) unsupported_algorithm) result }
{
    let key = key_algorithm(alloc, &request.info.subject_public_key_info.algorithm)?;
    SignatureAlgorithm::from_identifiers(&request.signature_algorithm.algorithm, &key)
}

/// The request's key.
fn public_key(
    alloc: Global,
    algorithm: SignatureAlgorithm,
    request: &CertificationRequest,
) -> Result<PublicKey, Error>
    ensures value { IfOk result (λ k. k ≡ key_of_parts algorithm request.now.info.subject_public_key_info.subject_public_key.bytes) }
    ensures memory { IfErr result (λ e. e ≡ NoMemory) }
{
    let key = &request.info.subject_public_key_info.subject_public_key;
    let raw = Vec::from_slice(alloc, key.bytes())?;
    Ok(PublicKey::new(raw, algorithm))
}

/// The default parameters with that name and what is asked for.
fn params_of(
    alloc: Global,
    name: DistinguishedName,
    asked: Asked,
) -> Result<CertificateParams, Error>
    ensures value { IfOk result (AreParamsOf name (asked_view asked)) }
    ensures memory { IfErr result (λ e. e ≡ NoMemory) }
{
    let purposes = each_once(alloc, asked.purposes)?;
    let defaults = CertificateParams::default(alloc)?;
    Ok(CertificateParams {
        distinguished_name: name,
        subject_alt_names: asked.names,
        is_ca: asked.is_ca,
        key_usages: asked.usages,
        extended_key_usages: purposes,
        ..defaults
    })
}

/// The default parameters with this subject and what the extensions ask for, in their order. Refused as
/// `CertificateSigningRequestParams::from_der` refuses the subject of a request and its extensions.
#[tactic(auto, unfolding(crate::specs::RequestReading::asked_of))]
pub fn params_asked_for(
    alloc: Global,
    subject: &Name,
    extensions: &[Extension],
) -> Result<CertificateParams, Error>
    ensures { Reads IsAskedFor (asked_of subject.now extensions.now) result }
{
    let name = distinguished_name(alloc, subject)?;
    let asked = asked_for(alloc, extensions)?;
    let params = params_of(alloc, name, asked)?;
    Ok(params)
}

impl CertificateSigningRequestParams {
    /// Reads the certification request at the front of the input (RFC 2986, 4); what follows it is
    /// ignored. Refused with the first of these:
    ///
    /// - `CouldNotParseCertificationRequest` where no front of the input is a request, where bits at
    ///   the end of its key or its signature are unused, and where its first attribute of type
    ///   extensionRequest (RFC 2985, 5.4.2) hasn't exactly one value, a SEQUENCE of extensions;
    /// - `InvalidCertificationRequestSignature` where the verifier doesn't accept the octets of the
    ///   info, of the key's info and of the signature's algorithm in the input, and the signature;
    /// - `UnsupportedSignatureAlgorithm` where no listed algorithm has the identifier of the signature
    ///   and that of the key;
    /// - `CouldNotParseCertificate` or `InvalidAsn1String` of the subject;
    /// - `UnsupportedExtension` where an extension isn't one of the four that are known (RFC 5280,
    ///   4.2.1.3, 4.2.1.6, 4.2.1.9 and 4.2.1.12) or has contents of another type; `InvalidNameType`,
    ///   `InvalidIpAddressOctetLength` or `CouldNotParseCertificate` of an alternative name;
    ///   `CouldNotParseCertificate` where a path length isn't from 0 to 255.
    pub fn from_der<V: Verifier>(alloc: Global, der: &[u8], verifier: &V) -> Result<Self, Error>
        ensures read { Reads IsReadAs (read_request (V.accepts verifier.now) der.now) result }
    {
        let received = received(alloc, der)?;
        verify(&received, verifier)?;
        let algorithm = algorithm_of(alloc, &received.request)?;
        let name = distinguished_name(alloc, &received.request.info.subject)?;
        let asked = asked_for(alloc, received.extensions.as_slice())?;
        let public_key = public_key(alloc, algorithm, &received.request)?;
        let params = params_of(alloc, name, asked)?;
        Ok(CertificateSigningRequestParams { params, public_key })
    }

    /// The certificate that `CertificateParams::signed_by` issues for the parameters and the key.
    pub fn signed_by<S: SigningKey>(
        &self,
        alloc: Global,
        issuer: &Issuer<'_, S>,
    ) -> Result<Certificate, Error>
        ensures issued { IfOk result (Issues (params_view self.now.params) self.now.public_key (view_of S.key issuer.now) (S.fits (key_of issuer.now))) }
        ensures ok { OnOk result (first_cause (params_view self.now.params) (view_of S.key issuer.now).name ≡ None) }
        ensures why { IfErr result (λ e. Explains (first_cause (params_view self.now.params) (view_of S.key issuer.now).name)
            (Refuses (params_view self.now.params) self.now.public_key (view_of S.key issuer.now) (S.may_refuse (key_of issuer.now))) (origin_of e)) }
    {
        self.params.signed_by(alloc, &self.public_key, issuer)
    }
}
