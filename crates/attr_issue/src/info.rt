//! What the issuer of attributes signs (RFC 5755, 4.1).
ghost use Rattle.std.specs.Prelude.{◌≡◌, None, Some, is_some, not, true, map, IfOk, IfErr, OnOk, refl};
ghost use Rattle.std.specs.List.{list_all};
ghost use Rattle.std.specs.Option.{IfSome, option_map};
ghost use Rattle.asn1_core.specs.Moment.{has_utc};
ghost use Rattle.der_tree.specs.Grammar.{sequence_of};
ghost use Rattle.der_tree.specs.HasTree.{HasTree};
ghost use Rattle.pkix_attr.specs.Certificates.{attribute_certificate_info, attribute_certificate_version};
ghost use Rattle.pkix_attr.specs.Certificates.{attribute_certificate_validity_period as validity_codec};
ghost use Rattle.pkix_attr.specs.Holders.{holder as holder_codec, issuer as issuer_codec};
ghost use Rattle.pkix_cert.specs.Extensions.{extensions as extensions_codec};
ghost use Rattle.pkix_name.specs.GeneralNames.{general_name};
ghost use Rattle.pkix_name.specs.Names.{attribute as attribute_codec, name as name_codec};
ghost use Rattle.rcgen_text.specs.Causes.{attribute_values, Explains, origin_of, when};
ghost use Rattle.rcgen_text.specs.declared.error.Error.TheVariants.{OutOfMemory};
ghost use Rattle.rcgen_certificate.specs.ExtensionRows.{IsField};
ghost use Rattle.rcgen_certificate.specs.Issuers.{issuer_field_of, view_of};
ghost use Rattle.rcgen_certificate.specs.NameValues.{issuer_name};
ghost use Rattle.rcgen_certificate.specs.Requests.{attribute_value, given_of, has_attribute_type, has_values};
ghost use Rattle.rcgen_issue.specs.Entries.{IsGeneralMoment};
ghost use Rattle.attr_issue.specs.AttributeCauses.{refused_cause, HasNoEarlyCause};
ghost use Rattle.attr_issue.specs.AttributeCertificateView.{attribute_certificate_view};
ghost use Rattle.attr_issue.specs.AttributeCertificates.{attribute_extension_rows, attribute_of, directory_name, holder_value, IsAttributeInfo, issuer_value, v2};

use crate::attribute_certificate::AttributeCertificateParams;
use crate::causes::refuse_early;
use asn1_core::{Integer, OffsetDateTime};
use der_tree::SequenceOf;
use pkix_attr::{
    AttributeCertificateInfo, AttributeCertificateValidityPeriod, AttributeCertificateVersion,
    Holder, IssuerSerial, V2Form,
};
use pkix_cert::Extensions;
use pkix_name::{GeneralName, GeneralNames, Name};
use rcgen_certificate::{
    Attribute, Issuer, attribute_value, extensions_field, issuer_value, push_authority_key,
    signature_identifier,
};
use rcgen_issue::general_moment;
use rcgen_sign::SigningKey;
use rcgen_text::{DistinguishedName, Error, SerialNumber};
use std::alloc::Global;

/// The version that each attribute certificate has.
fn version(alloc: Global) -> Result<AttributeCertificateVersion, Error>
    ensures value { IfOk result (λ v. v ≡ v2) }
    ensures formed { IfOk result (HasTree attribute_certificate_version) }
    ensures memory { IfErr result (λ e. e ≡ OutOfMemory) }
{
    let number = Integer::from_unsigned(alloc, &[AttributeCertificateVersion::V2])?;
    Ok(AttributeCertificateVersion(number))
}

/// The name, as the one directory name.
fn directory_name(alloc: Global, name: Name) -> Result<GeneralNames, Error>
    requires { HasTree name_codec name }
    ensures value { IfOk result (λ names. names ≡ directory_name name) }
    ensures formed { IfOk result (HasTree (sequence_of general_name 0 None refl)) }
    ensures memory { IfErr result (λ e. e ≡ OutOfMemory) }
{
    let mut names = SequenceOf::new(alloc);
    names.push(GeneralName::DirectoryName(name))?;
    Ok(names)
}

/// The holder of the certificate with this number, of the issuer with this name (RFC 5755, 4.2.2).
#[tactic(auto, unfolding(pkix_attr::specs::Holders::holder_fields, pkix_attr::specs::Holders::issuer_serial_fields))]
fn holder(alloc: Global, issuer: &DistinguishedName, serial: &SerialNumber) -> Result<Holder, Error>
    requires { is_some (issuer_name issuer.now) ≡ true }
    ensures value { IfOk result (λ h. option_map (holder_value serial.now) (issuer_name issuer.now) ≡ Some h) }
    ensures formed { IfOk result (HasTree holder_codec) }
    ensures memory { IfErr result (λ e. e ≡ OutOfMemory) }
{
    let issuer = directory_name(alloc, issuer_value(alloc, issuer)?)?;
    let serial = Integer::from_unsigned(alloc, serial.as_slice())?;
    Ok(Holder {
        base_certificate_id: Some(IssuerSerial {
            issuer,
            serial,
            issuer_uid: None,
        }),
        entity_name: None,
        object_digest_info: None,
    })
}

/// The issuer under its name, in the form of version 2 (RFC 5755, 4.2.3).
#[tactic(auto, unfolding(pkix_attr::specs::Holders::v2_form_fields))]
fn issuer_form<S: SigningKey>(
    alloc: Global,
    issuer: &Issuer<'_, S>,
) -> Result<pkix_attr::Issuer, Error>
    requires { is_some (issuer_field_of issuer.now) ≡ true }
    ensures value { IfOk result (λ i. option_map issuer_value (issuer_field_of issuer.now) ≡ Some i) }
    ensures formed { IfOk result (HasTree issuer_codec) }
    ensures memory { IfErr result (λ e. e ≡ OutOfMemory) }
{
    let issuer_name = directory_name(alloc, issuer.issuer_field(alloc)?)?;
    Ok(pkix_attr::Issuer::V2(V2Form {
        issuer_name: Some(issuer_name),
        base_certificate_id: None,
        object_digest_info: None,
    }))
}

/// The validity from one moment to another, in whichever order (RFC 5755, 4.2.6).
#[tactic(auto, unfolding(pkix_attr::specs::Certificates::attribute_certificate_validity_period_fields))]
fn validity(from: &OffsetDateTime, to: &OffsetDateTime) -> AttributeCertificateValidityPeriod
    requires from { has_utc from.now ≡ true }
    requires to { has_utc to.now ≡ true }
    ensures from { IsGeneralMoment from.now result.not_before }
    ensures to { IsGeneralMoment to.now result.not_after }
    ensures formed { HasTree validity_codec result }
{
    AttributeCertificateValidityPeriod {
        not_before: general_moment(from),
        not_after: general_moment(to),
    }
}

/// The attributes that are given, in order. `InvalidAttributeValues` where the octets of one are no
/// set of values.
fn attributes(alloc: Global, given: &[Attribute]) -> Result<SequenceOf<pkix_name::Attribute>, Error>
    requires { list_all has_attribute_type given.now ≡ true }
    ensures values { IfOk result (λ list. list ≡ map attribute_value given.now) }
    ensures formed { IfOk result (λ list. list_all attribute_codec.has_tree list ≡ true) }
    ensures ok { OnOk result (list_all has_values given.now ≡ true) }
    ensures why { IfErr result (λ e. Explains (when (not (list_all has_values given.now)) attribute_values) ⊥ (origin_of e)) }
{
    let mut list = SequenceOf::new(alloc);
    for attribute in given {
        list.push(attribute_value(alloc, attribute)?)?;
    }
    Ok(list)
}

/// The attributes of the parameters, where there is no cause against these under the issuer's name.
fn issued_attributes<S: SigningKey>(
    alloc: Global,
    params: &AttributeCertificateParams,
    issuer: &Issuer<'_, S>,
) -> Result<SequenceOf<pkix_name::Attribute>, Error>
    ensures values { IfOk result (λ list. list ≡ map attribute_of (map given_of params.now.attributes.items)) }
    ensures formed { IfOk result (λ list. list_all attribute_codec.has_tree list ≡ true) }
    ensures parts { OnOk result (HasNoEarlyCause (attribute_certificate_view params.now) (issuer_field_of issuer.now)) }
    ensures ok { OnOk result (refused_cause (attribute_certificate_view params.now) (issuer_field_of issuer.now) ≡ None) }
    ensures why { IfErr result (λ e. Explains (refused_cause (attribute_certificate_view params.now) (issuer_field_of issuer.now)) ⊥ (origin_of e)) }
{
    refuse_early(params, issuer)?;
    Ok(attributes(alloc, &params.attributes)?)
}

/// The extension on the identifier of the issuer's key, where it is asked for.
#[tactic(auto, using(rcgen_certificate::proofs::Rows::named))]
fn extensions<S: SigningKey>(
    alloc: Global,
    params: &AttributeCertificateParams,
    issuer: &Issuer<'_, S>,
) -> Result<Option<Extensions>, Error>
    ensures rows { IfOk result (IsField (attribute_extension_rows (attribute_certificate_view params.now) (view_of S.key issuer.now))) }
    ensures formed { IfOk result (λ x. IfSome x (HasTree extensions_codec)) }
    ensures memory { IfErr result (λ e. e ≡ OutOfMemory) }
{
    let mut list = SequenceOf::new(alloc);
    let asked = params.use_authority_key_identifier_extension;
    push_authority_key(alloc, &mut list, asked, issuer)?;
    Ok(extensions_field(list))
}

/// What is signed for the parameters, by the issuer.
#[tactic(auto, unfolding(pkix_attr::specs::Certificates::attribute_certificate_info_fields))]
pub(crate) fn attribute_info<S: SigningKey>(
    alloc: Global,
    params: &AttributeCertificateParams,
    issuer: &Issuer<'_, S>,
) -> Result<AttributeCertificateInfo, Error>
    ensures value { IfOk result (IsAttributeInfo (attribute_certificate_view params.now) (view_of S.key issuer.now)) }
    ensures formed { IfOk result (HasTree attribute_certificate_info) }
    ensures ok { OnOk result (refused_cause (attribute_certificate_view params.now) (view_of S.key issuer.now).name ≡ None) }
    ensures why { IfErr result (λ e. Explains (refused_cause (attribute_certificate_view params.now) (view_of S.key issuer.now).name) ⊥ (origin_of e)) }
{
    let attributes = issued_attributes(alloc, params, issuer)?;
    let version = version(alloc)?;
    let holder = holder(alloc, &params.holder_issuer, &params.holder_serial)?;
    let form = issuer_form(alloc, issuer)?;
    let signature = signature_identifier(alloc, issuer.key().algorithm())?;
    let serial_number = Integer::from_unsigned(alloc, params.serial_number.as_slice())?;
    let extensions = extensions(alloc, params, issuer)?;
    Ok(AttributeCertificateInfo {
        version,
        holder,
        issuer: form,
        signature,
        serial_number,
        attr_cert_validity_period: validity(&params.not_before, &params.not_after),
        attributes,
        issuer_unique_id: None,
        extensions,
    })
}
