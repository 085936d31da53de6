ghost use Rattle.std.specs.Prelude.{◌≡◌, ℕ, List, None, IfOk, IfErr, OnOk};
ghost use Rattle.std.proofs.Common.{rules};
ghost use Rattle.der_tree.specs.HasTree.{HasTree};
ghost use Rattle.pkix_cert.specs.Certificates.{tbs_certificate as tbs_codec};
ghost use Rattle.pkix_cert.specs.declared.certificate.TbsCertificate.{TbsCertificate};
ghost use Rattle.rcgen_text.specs.Causes.{Explains, origin_of};
ghost use Rattle.rcgen_sign.specs.Keys.{Key};
ghost use Rattle.rcgen_certificate.specs.Issue.{first_cause, IsToBeSigned, Issues, IssuesAs, Refuses, CertificateExists};
ghost use Rattle.rcgen_certificate.specs.Issuers.{IssuerView, key_of, own_view, view_of};
ghost use Rattle.rcgen_certificate.specs.NameValues.{issuer_name};
ghost use Rattle.rcgen_certificate.specs.ParamsView.{ParamsView, params_view};
ghost use Rattle.rcgen_certificate.specs.Signed.{FitsOnce};

use crate::causes::refuse_causes;
use crate::extensions::extensions;
use crate::issuer::Issuer;
use crate::name_value::name_value;
use crate::params::CertificateParams;
use crate::signing::sign_value;
use crate::subject_alt_name::names_are_ascii;
use crate::value::{key_value, serial_number, signature_identifier, validity};
use asn1_core::{OctetString, TryClone, has_utc_exactly, written_once};
use pkix_cert::{TbsCertificate, Version};
use rcgen_sign::{PublicKeyData, SigningKey};
use rcgen_text::Error;
use std::alloc::Global;
use std::marker::Model;

/// What the issuer's key signs for the certificate that `CertificateParams::signed_by` issues (RFC 5280,
/// 4.1.1.3). Refused as that is, but never by the key.
#[tactic(auto, unfolding(pkix_cert::specs::Certificates::tbs_certificate_fields))]
pub fn to_be_signed<K: PublicKeyData, S: SigningKey>(
    alloc: Global,
    params: &CertificateParams,
    public_key: &K,
    issuer: &Issuer<'_, S>,
) -> Result<TbsCertificate, Error>
    ensures value { IfOk result (IsToBeSigned (params_view params.now) (K.key public_key.now) (view_of S.key issuer.now)) }
    ensures formed { IfOk result (HasTree tbs_codec) }
    ensures ok { OnOk result (first_cause (params_view params.now) (view_of S.key issuer.now).name ≡ None) }
    ensures why { IfErr result (λ e. Explains (first_cause (params_view params.now) (view_of S.key issuer.now).name) ⊥ (origin_of e)) }
{
    refuse_causes(alloc, params, issuer)?;
    let validity = validity(&params.not_before, &params.not_after);
    let key = public_key.der_bytes();
    let serial_number = serial_number(alloc, params.serial_number.as_ref(), key)?;
    let signature = signature_identifier(alloc, issuer.key().algorithm())?;
    let extensions = extensions(alloc, params, public_key, issuer)?;
    let issuer = issuer.issuer_field(alloc)?;
    let subject = name_value(alloc, &params.distinguished_name)?;
    let subject_public_key_info = key_value(alloc, public_key.algorithm(), key)?;
    Ok(TbsCertificate {
        version: Version::V3,
        serial_number,
        signature,
        issuer,
        validity,
        subject,
        subject_public_key_info,
        issuer_unique_id: None,
        subject_unique_id: None,
        extensions,
    })
}

/// An issued certificate.
#[derive(Clone, Debug, PartialEq, Eq, Drop)]
pub struct Certificate {
    der: OctetString,
}

impl Model for Certificate {
    ghost use Rattle.std.specs.Prelude.{ℕ, List};

    ghost Value = { List ℕ };

    ghost view = { λ c. c.der };

    ghost inverse = { λ b. record { der = b } };
}

impl Certificate {
    /// The certificate's DER.
    pub fn der(&self) -> &[u8]
        ensures { result.now ≡ self.now }
    {
        self.der.as_slice()
    }

    /// The certificate's DER.
    pub fn into_der(self) -> Vec<u8>
        ensures { result.items ≡ self }
    {
        self.der.into_vec()
    }
}

impl TryClone for Certificate {
    ghost copies_are_equal = { Prim.search rules };
}

impl CertificateParams {
    /// The certificate for the subject's public key, with the name of the issuer and signed by its
    /// key. `EmptyCrlDistributionPointUris` where a distribution point has no URI, else `Time` where
    /// a time has no form in UTC, else `InvalidObjectIdentifier` where a type of a name or of an
    /// other name, a purpose or the arcs of a given extension are none, else `InvalidAsn1String` with
    /// the first text that isn't ASCII, of the permitted subtrees, the excluded ones, then the URIs.
    /// `RemoteKeyError` only where none of these is so and the issuer's key may refuse what is to be
    /// signed.
    pub fn signed_by<K: PublicKeyData, S: SigningKey>(
        &self,
        alloc: Global,
        public_key: &K,
        issuer: &Issuer<'_, S>,
    ) -> Result<Certificate, Error>
        ensures issued { IfOk result (Issues (params_view self.now) (K.key public_key.now) (view_of S.key issuer.now) (S.fits (key_of issuer.now))) }
        ensures ok { OnOk result (first_cause (params_view self.now) (view_of S.key issuer.now).name ≡ None) }
        ensures why { IfErr result (λ e. Explains (first_cause (params_view self.now) (view_of S.key issuer.now).name)
            (Refuses (params_view self.now) (K.key public_key.now) (view_of S.key issuer.now) (S.may_refuse (key_of issuer.now))) (origin_of e)) }
    {
        let (certificate, _value) = issue_and_read(alloc, self, public_key, issuer)?;
        Ok(certificate)
    }

    /// The same, issued for the key that signs, under these parameters' own name, method and
    /// key usages.
    pub fn self_signed<S: SigningKey>(
        &self,
        alloc: Global,
        signing_key: &S,
    ) -> Result<Certificate, Error>
        ensures issued { let key = S.key signing_key.now in
            IfOk result (Issues (params_view self.now) key (own_view (params_view self.now) key) (S.fits signing_key.now)) }
        ensures ok { OnOk result (first_cause (params_view self.now) (issuer_name self.now.distinguished_name) ≡ None) }
        ensures why { let key = S.key signing_key.now in
            IfErr result (λ e. Explains (first_cause (params_view self.now) (issuer_name self.now.distinguished_name))
            (Refuses (params_view self.now) key (own_view (params_view self.now) key) (S.may_refuse signing_key.now)) (origin_of e)) }
    {
        let issuer = Issuer::from_params(self, signing_key);
        self.signed_by(alloc, signing_key, &issuer)
    }
}

/// What `signed_by` issues, and the certificate whose form its bytes are. Refused as `signed_by` is.
pub fn issue_and_read<K: PublicKeyData, S: SigningKey>(
    alloc: Global,
    params: &CertificateParams,
    public_key: &K,
    issuer: &Issuer<'_, S>,
) -> Result<(Certificate, pkix_cert::Certificate), Error>
    ensures issued { IfOk result (λ x. IssuesAs (params_view params.now) (K.key public_key.now) (view_of S.key issuer.now) (S.fits (key_of issuer.now)) x.1 x.0) }
    ensures ok { OnOk result (first_cause (params_view params.now) (view_of S.key issuer.now).name ≡ None) }
    ensures why { IfErr result (λ e. Explains (first_cause (params_view params.now) (view_of S.key issuer.now).name)
        (Refuses (params_view params.now) (K.key public_key.now) (view_of S.key issuer.now) (S.may_refuse (key_of issuer.now))) (origin_of e)) }
{
    let tbs_certificate = to_be_signed(alloc, params, public_key, issuer)?;
    let signed = sign_value(alloc, issuer.key(), &tbs_certificate)?;
    let value = pkix_cert::Certificate {
        tbs_certificate,
        signature_algorithm: signed.algorithm,
        signature_value: signed.signature,
    };
    let certificate = Certificate {
        der: OctetString::new(signed.der),
    };
    Ok((certificate, value))
}

/// A law: where there is no cause against it, what the issue table asks for exists, whoever issues,
/// unless a part of it or its form would be 2^64 octets or more.
pub fn certificate_exists(params: &CertificateParams)
    ensures { (issuer : IssuerView) → first_cause (params_view params.now) issuer.name ≡ None → CertificateExists (params_view params.now) issuer }
{
    has_utc_exactly(&params.not_before);
    has_utc_exactly(&params.not_after);
    names_are_ascii(&params.subject_alt_names);
}

/// A law: what is signed for parameters and a subject's key, in view of an issuer, is one value.
pub fn to_be_signed_once()
    ensures { (params : ParamsView) (subject : Key) (issuer : IssuerView) (s t : TbsCertificate)
        → IsToBeSigned params subject issuer s → IsToBeSigned params subject issuer t → s ≡ t }
{
    written_once();
}

/// A law: where one signature alone of the issuer's key fits each message, the DER of what is issued
/// is the same octets each time.
pub fn issued_once<S: SigningKey>()
    ensures { (key : S) → FitsOnce (S.fits key) → (params : ParamsView) (subject : Key) (issuer : IssuerView) (a b : List ℕ)
        → Issues params subject issuer (S.fits key) a → Issues params subject issuer (S.fits key) b → a ≡ b }
{
    written_once();
}
