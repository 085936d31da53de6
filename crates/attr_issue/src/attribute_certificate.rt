//! Attribute certificates (RFC 5755).
ghost use Rattle.std.specs.Prelude.{◌≡◌, true, None, IfOk, IfErr, OnOk};
ghost use Rattle.std.proofs.Common.{rules};
ghost use Rattle.der_tree.specs.HasTree.{HasTree};
ghost use Rattle.pkix_attr.specs.Certificates.{attribute_certificate_info};
ghost use Rattle.rcgen_text.specs.Causes.{Explains, origin_of};
ghost use Rattle.rcgen_certificate.specs.Issuers.{key_of, view_of};
ghost use Rattle.attr_issue.specs.AttributeCauses.{first_attribute_cause, refused_cause, ExplainsAttribute};
ghost use Rattle.attr_issue.specs.AttributeCertificateView.{attribute_certificate_view};
ghost use Rattle.attr_issue.specs.AttributeCertificates.{IsAttributeInfo, IssuesAttribute, IssuesAttributeAs, RefusesAttribute, SaysSameAttributes};
ghost use Rattle.attr_issue.specs.contracts.attribute_certificate.AttributeCertificateParamsPartialEq.TheImpl.{ghosts as equality};

use crate::causes::refuse_attributes;
use crate::error::AttrError;
use crate::info::attribute_info;
use asn1_core::{OctetString, OffsetDateTime, OutOfMemory, TryClone};
use pkix_attr::attribute_certificate::{AttributeCertificate, AttributeCertificateInfo};
use rcgen_certificate::{Attribute, Issuer, sign_value};
use rcgen_sign::SigningKey;
use rcgen_text::{DistinguishedName, Error, SerialNumber};
use std::alloc::Global;
use std::marker::Model;

/// An issued attribute certificate.
#[derive(Clone, Debug, PartialEq, Eq, Drop)]
pub struct IssuedAttribute {
    der: OctetString,
}

impl Model for IssuedAttribute {
    ghost use Rattle.std.specs.Prelude.{ℕ, List};

    ghost Value = { List ℕ };

    ghost view = { λ c. c.der };

    ghost inverse = { λ b. record { der = b } };
}

impl IssuedAttribute {
    /// The attribute certificate's DER.
    pub fn der(&self) -> &[u8]
        ensures { result.now ≡ self.now }
    {
        self.der.as_slice()
    }
}

impl TryClone for IssuedAttribute {
    ghost copies_are_equal = { Prim.search rules };
}

/// Parameters of an attribute certificate: who holds which attributes, and when. Times are equal
/// where they are the same instant.
#[derive(Clone, Debug, PartialEq, Eq, Drop)]
pub struct AttributeCertificateParams {
    /// The name of the issuer of the holder's own certificate (RFC 5755, 4.2.2).
    pub holder_issuer: DistinguishedName,
    /// The number of the holder's own certificate.
    pub holder_serial: SerialNumber,
    /// The number of the attribute certificate (RFC 5755, 4.2.5).
    pub serial_number: SerialNumber,
    /// When the attributes begin to hold (RFC 5755, 4.2.6).
    pub not_before: OffsetDateTime,
    /// When they cease to. The order of the two is free.
    pub not_after: OffsetDateTime,
    /// At least one, each with a type of its own, in the order of the certificate (RFC 5755, 4.2.7).
    pub attributes: Vec<Attribute>,
    /// Whether it contains the identifier of the issuer's key (RFC 5755, 4.3.3).
    pub use_authority_key_identifier_extension: bool,
}

impl AttributeCertificateParams {
    /// The attribute certificate, with the name of the issuer and signed by its key. `NoAttributes`
    /// where there is no attribute, else `RepeatedAttribute` where two have the same type, else
    /// `Refused`: with `Time` where a time has no form in UTC, else with `InvalidObjectIdentifier`
    /// where a type of a name or the arcs of an attribute are no object identifier, else with
    /// `InvalidAttributeValues` where the values of an attribute aren't the DER of a set of at least
    /// one. With `RemoteKeyError` only where none of these is so and the issuer's key may refuse what
    /// is to be signed.
    pub fn signed_by<S: SigningKey>(
        &self,
        alloc: Global,
        issuer: &Issuer<'_, S>,
    ) -> Result<IssuedAttribute, AttrError>
        ensures issued { IfOk result (IssuesAttribute (attribute_certificate_view self.now) (view_of S.key issuer.now) (S.fits (key_of issuer.now))) }
        ensures ok { OnOk result (first_attribute_cause (attribute_certificate_view self.now) (view_of S.key issuer.now).name ≡ None) }
        ensures why { IfErr result (ExplainsAttribute (first_attribute_cause (attribute_certificate_view self.now) (view_of S.key issuer.now).name)
            (RefusesAttribute (attribute_certificate_view self.now) (view_of S.key issuer.now) (S.may_refuse (key_of issuer.now)))) }
    {
        let (issued, _value) = issue_and_read_attribute(alloc, self, issuer)?;
        Ok(issued)
    }
}

// no `TryClone`: a copied `Vec` may have another capacity
impl AttributeCertificateParams {
    /// Parameters that say the same.
    #[tactic(auto, using(crate::proofs::Copies::params_equal))]
    pub fn try_clone(&self, _alloc: Global) -> Result<AttributeCertificateParams, OutOfMemory>
        ensures same { IfOk result (SaysSameAttributes self.now) }
        ensures equal { IfOk result (λ copy. equality.eq copy self.now ≡ true) }
    {
        let copy = self.copied()?;
        Ok(copy)
    }

    /// Parameters that say the same.
    #[tactic(auto, using(crate::proofs::Copies::copies))]
    fn copied(&self) -> Result<AttributeCertificateParams, OutOfMemory>
        ensures { IfOk result (SaysSameAttributes self.now) }
    {
        Ok(self.clone()?)
    }
}

/// What is issued for parameters whose attributes have no cause of their own against them.
fn issue_attributes<S: SigningKey>(
    alloc: Global,
    params: &AttributeCertificateParams,
    issuer: &Issuer<'_, S>,
) -> Result<(IssuedAttribute, AttributeCertificate), Error>
    ensures issued { IfOk result (λ x. IssuesAttributeAs (attribute_certificate_view params.now) (view_of S.key issuer.now) (S.fits (key_of issuer.now)) x.1 x.0) }
    ensures ok { OnOk result (refused_cause (attribute_certificate_view params.now) (view_of S.key issuer.now).name ≡ None) }
    ensures why { IfErr result (λ e. Explains (refused_cause (attribute_certificate_view params.now) (view_of S.key issuer.now).name)
        (RefusesAttribute (attribute_certificate_view params.now) (view_of S.key issuer.now) (S.may_refuse (key_of issuer.now))) (origin_of e)) }
{
    let info = attribute_info(alloc, params, issuer)?;
    let signed = sign_value(alloc, issuer.key(), &info)?;
    let value = AttributeCertificate {
        info,
        signature_algorithm: signed.algorithm,
        signature_value: signed.signature,
    };
    let issued = IssuedAttribute {
        der: OctetString::new(signed.der),
    };
    Ok((issued, value))
}

/// What the issuer's key signs for the attribute certificate that `signed_by` issues (RFC 5755, 4.1).
/// Refused as that is, but never by the key.
pub fn info_to_be_signed<S: SigningKey>(
    alloc: Global,
    params: &AttributeCertificateParams,
    issuer: &Issuer<'_, S>,
) -> Result<AttributeCertificateInfo, AttrError>
    ensures value { IfOk result (IsAttributeInfo (attribute_certificate_view params.now) (view_of S.key issuer.now)) }
    ensures formed { IfOk result (HasTree attribute_certificate_info) }
    ensures ok { OnOk result (first_attribute_cause (attribute_certificate_view params.now) (view_of S.key issuer.now).name ≡ None) }
    ensures why { IfErr result (ExplainsAttribute (first_attribute_cause (attribute_certificate_view params.now) (view_of S.key issuer.now).name) ⊥) }
{
    refuse_attributes(alloc, &params.attributes)?;
    Ok(attribute_info(alloc, params, issuer)?)
}

/// What `signed_by` issues, and the attribute certificate whose form its bytes are. Refused as
/// `signed_by` is.
pub fn issue_and_read_attribute<S: SigningKey>(
    alloc: Global,
    params: &AttributeCertificateParams,
    issuer: &Issuer<'_, S>,
) -> Result<(IssuedAttribute, AttributeCertificate), AttrError>
    ensures issued { IfOk result (λ x. IssuesAttributeAs (attribute_certificate_view params.now) (view_of S.key issuer.now) (S.fits (key_of issuer.now)) x.1 x.0) }
    ensures ok { OnOk result (first_attribute_cause (attribute_certificate_view params.now) (view_of S.key issuer.now).name ≡ None) }
    ensures why { IfErr result (ExplainsAttribute (first_attribute_cause (attribute_certificate_view params.now) (view_of S.key issuer.now).name)
        (RefusesAttribute (attribute_certificate_view params.now) (view_of S.key issuer.now) (S.may_refuse (key_of issuer.now)))) }
{
    refuse_attributes(alloc, &params.attributes)?;
    Ok(issue_attributes(alloc, params, issuer)?)
}
