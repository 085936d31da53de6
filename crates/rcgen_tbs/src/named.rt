//! What is to be signed for a subject that has a name of its own, octet by octet (RFC 5280, 4.1.2.6).
ghost use Rattle.std.specs.Prelude.{◌≡◌, None, Some, IfOk, IfErr, OnOk};
ghost use Rattle.std.specs.Option.{IfSome};
ghost use Rattle.der_tree.specs.HasTree.{HasTree};
ghost use Rattle.pkix_cert.specs.Certificates.{tbs_certificate};
ghost use Rattle.pkix_name.specs.Names.{name as name_codec};
ghost use Rattle.rcgen_text.specs.Causes.{Explains, origin_of};
ghost use Rattle.rcgen_text.specs.declared.error.Error.TheVariants.{OutOfMemory};
ghost use Rattle.rcgen_certificate.specs.Issue.{first_cause};
ghost use Rattle.rcgen_certificate.specs.Issuers.{view_of};
ghost use Rattle.rcgen_certificate.specs.ParamsView.{params_view};
ghost use Rattle.rcgen_tbs.specs.Named.{IsCertificateMessageAs, IsToBeSignedNamed, with_name};
ghost use Rattle.rcgen_tbs.specs.Subjects.{HasInfoTree, IsToBeSignedFor};

use crate::stand_in::info_value;
use crate::subject::Subject;
use crate::subject_certificate::certificate_to_be_signed_for;
use crate::to_be_signed::octets;
use asn1_core::TryClone;
use pkix_cert::{Name, TbsCertificate};
use rcgen_issue::{CertificateParams, Issuer, to_be_signed};
use rcgen_sign::SigningKey;
use rcgen_text::Error;
use std::alloc::Global;

/// What is signed for the subject, under the name of the parameters.
fn value_for<S: SigningKey>(
    alloc: Global,
    params: &CertificateParams,
    subject: &Subject,
    issuer: &Issuer<'_, S>,
) -> Result<TbsCertificate, Error>
    requires { HasInfoTree subject.now }
    ensures value { IfOk result (IsToBeSignedFor (params_view params.now) subject.now (view_of S.key issuer.now)) }
    ensures formed { IfOk result (HasTree tbs_certificate) }
    ensures ok { OnOk result (first_cause (params_view params.now) (view_of S.key issuer.now).name ≡ None) }
    ensures why { IfErr result (λ e. Explains (first_cause (params_view params.now) (view_of S.key issuer.now).name) ⊥ (origin_of e)) }
{
    match subject {
        Subject::Known(key) => to_be_signed(alloc, params, key, issuer),
        Subject::Other(info) => info_value(alloc, params, info, issuer),
    }
}

/// The value with this name as its subject.
fn with_name(alloc: Global, mut value: TbsCertificate, name: &Name) -> Result<TbsCertificate, Error>
    ensures value { IfOk result (λ t. t ≡ with_name name.now value) }
    ensures memory { IfErr result (λ e. e ≡ OutOfMemory) }
{
    value.subject = name.try_clone(alloc)?;
    Ok(value)
}

/// What is signed for the subject under this name.
fn named_value<S: SigningKey>(
    alloc: Global,
    params: &CertificateParams,
    subject: &Subject,
    name: &Name,
    issuer: &Issuer<'_, S>,
) -> Result<TbsCertificate, Error>
    requires info { HasInfoTree subject.now }
    requires name { HasTree name_codec name.now }
    ensures value { IfOk result (IsToBeSignedNamed (params_view params.now) subject.now name.now (view_of S.key issuer.now)) }
    ensures formed { IfOk result (HasTree tbs_certificate) }
    ensures ok { OnOk result (first_cause (params_view params.now) (view_of S.key issuer.now).name ≡ None) }
    ensures why { IfErr result (λ e. Explains (first_cause (params_view params.now) (view_of S.key issuer.now).name) ⊥ (origin_of e)) }
{
    let base = value_for(alloc, params, subject, issuer)?;
    let value = with_name(alloc, base, name)?;
    Ok(value)
}

/// The octets that the issuer's key signs for the certificate of this subject under this name.
fn named_to_be_signed<S: SigningKey>(
    alloc: Global,
    params: &CertificateParams,
    subject: &Subject,
    name: &Name,
    issuer: &Issuer<'_, S>,
) -> Result<Vec<u8>, Error>
    requires info { HasInfoTree subject.now }
    requires name { HasTree name_codec name.now }
    ensures message { IfOk result (λ m. IsCertificateMessageAs (params_view params.now) subject.now (Some name.now) (view_of S.key issuer.now) m.items) }
    ensures ok { OnOk result (first_cause (params_view params.now) (view_of S.key issuer.now).name ≡ None) }
    ensures why { IfErr result (λ e. Explains (first_cause (params_view params.now) (view_of S.key issuer.now).name) ⊥ (origin_of e)) }
{
    let value = named_value(alloc, params, subject, name, issuer)?;
    let message = octets(alloc, &value)?;
    Ok(message)
}

/// The octets that the issuer's key signs for the certificate of this subject, under this name where one
/// is given, and else under that of the parameters. Refused as `certificate_to_be_signed` refuses,
/// whatever the name.
pub fn certificate_to_be_signed_as<S: SigningKey>(
    alloc: Global,
    params: &CertificateParams,
    subject: &Subject,
    name: &Option<Name>,
    issuer: &Issuer<'_, S>,
) -> Result<Vec<u8>, Error>
    requires info { HasInfoTree subject.now }
    requires name { IfSome name.now (HasTree name_codec) }
    ensures message { IfOk result (λ m. IsCertificateMessageAs (params_view params.now) subject.now name.now (view_of S.key issuer.now) m.items) }
    ensures ok { OnOk result (first_cause (params_view params.now) (view_of S.key issuer.now).name ≡ None) }
    ensures why { IfErr result (λ e. Explains (first_cause (params_view params.now) (view_of S.key issuer.now).name) ⊥ (origin_of e)) }
{
    match name {
        Some(name) => named_to_be_signed(alloc, params, subject, name, issuer),
        None => certificate_to_be_signed_for(alloc, params, subject, issuer),
    }
}
