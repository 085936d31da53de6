//! Whom a message names as its issuer.
ghost use Rattle.std.specs.Prelude.{◌≡◌, IfOk};
ghost use Rattle.std.specs.Option.{option_copied};
ghost use Rattle.der_tree.specs.Form.{value_of};
ghost use Rattle.pkix_attr.specs.Certificates.{attribute_certificate_info};
ghost use Rattle.pkix_cert.specs.Views.{certificate_parts};
ghost use Rattle.register_steps.specs.Names.{is_attribute_named, is_named_in, issuer_named, matches_subject, only_name, subject_in};

use asn1_core::OutOfMemory;
use der_tree::der;
use path_names::names_match;
use pkix_attr::{AttributeCertificateInfo, Issuer};
use pkix_cert::{CertificateView, GeneralName, GeneralNames, Name};
use std::alloc::Global;

/// The subject of the certificate at the front of these octets.
pub fn subject_in(alloc: Global, issuer: &[u8]) -> Result<Option<Name>, OutOfMemory>
    ensures { IfOk result (λ o. o ≡ subject_in (certificate_parts issuer.now)) }
{
    let Some(view) = CertificateView::new(issuer) else {
        return Ok(None);
    };
    let subject: Option<Name> = der::value_of(alloc, view.subject())?;
    Ok(subject)
}

fn matches_subject(subject: &Option<Name>, name: &Name) -> bool
    ensures { result ≡ matches_subject subject.now name.now }
{
    match subject {
        Some(subject) => names_match(subject, name),
        None => false,
    }
}

/// Whether the certificate at the front of the issuer's octets is of this subject.
pub(crate) fn is_subject(alloc: Global, issuer: &[u8], name: &Name) -> Result<bool, OutOfMemory>
    ensures { IfOk result (λ b. b ≡ matches_subject (subject_in (certificate_parts issuer.now)) name.now) }
{
    let subject = subject_in(alloc, issuer)?;
    Ok(matches_subject(&subject, name))
}

fn only_name(names: &Option<GeneralNames>) -> Option<&Name>
    ensures { option_copied result ≡ only_name names.now }
{
    let Some(names) = names else {
        return None;
    };
    match names.as_slice() {
        [GeneralName::DirectoryName(name)] => Some(name),
        _ => None,
    }
}

/// The name that an attribute certificate has of its issuer.
fn issuer_named(issuer: &Issuer) -> Option<&Name>
    ensures { option_copied result ≡ issuer_named issuer.now }
{
    match issuer {
        Issuer::V1(_) => None,
        Issuer::V2(form) => only_name(&form.issuer_name),
    }
}

fn is_named_in(subject: &Option<Name>, name: Option<&Name>) -> bool
    ensures { result ≡ is_named_in subject.now (option_copied name.entry) }
{
    match name {
        Some(name) => matches_subject(subject, name),
        None => false,
    }
}

/// Whether the message of an attribute certificate names the subject of this certificate as its issuer.
pub(crate) fn is_attribute_named(
    alloc: Global,
    issuer: &[u8],
    message: &[u8],
) -> Result<bool, OutOfMemory>
    ensures { IfOk result (λ b. b ≡ is_attribute_named (certificate_parts issuer.now) (value_of attribute_certificate_info message.now)) }
{
    let Some(info) = der::value_of::<AttributeCertificateInfo>(alloc, message)? else {
        return Ok(false);
    };
    let subject = subject_in(alloc, issuer)?;
    Ok(is_named_in(&subject, issuer_named(&info.issuer)))
}
