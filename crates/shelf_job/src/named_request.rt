//! What is to be signed for a request whose subject has a name of its own, octet by octet (RFC 2986, 4.1).
ghost use Rattle.std.specs.Prelude.{◌≡◌, [], None, Some, IfOk, IfErr, OnOk};
ghost use Rattle.std.specs.Option.{IfSome};
ghost use Rattle.der_tree.specs.Form.{IsDerOf};
ghost use Rattle.der_tree.specs.HasTree.{HasTree};
ghost use Rattle.pkix_cert.specs.Requests.{certification_request_info};
ghost use Rattle.pkix_name.specs.Names.{name as name_codec};
ghost use Rattle.rcgen_certificate.specs.ParamsView.{params_view};
ghost use Rattle.rcgen_certificate.specs.Requests.{first_request_cause};
ghost use Rattle.rcgen_text.specs.Causes.{Explains, origin_of};
ghost use Rattle.rcgen_text.specs.declared.error.Error.TheVariants.{OutOfMemory};
ghost use Rattle.shelf_job.specs.NamedRequests.{IsInfoNamed, IsRequestMessageAs, with_subject};

use asn1_core::TryClone;
use der_tree::der;
use pkix_cert::{CertificationRequestInfo, Name};
use rcgen_issue::{Attribute, CertificateParams, RefusingKey, request_info};
use rcgen_sign::memory_only;
use rcgen_tbs::request_to_be_signed;
use rcgen_text::Error;
use std::alloc::Global;

/// The info with this name as its subject.
fn with_subject(
    alloc: Global,
    mut info: CertificationRequestInfo,
    name: &Name,
) -> Result<CertificationRequestInfo, Error>
    ensures info { IfOk result (λ i. i ≡ with_subject name.now info) }
    ensures memory { IfErr result (λ e. e ≡ OutOfMemory) }
{
    info.subject = name.try_clone(alloc)?;
    Ok(info)
}

/// What is signed for the request of this key under this name.
fn named_info(
    alloc: Global,
    params: &CertificateParams,
    name: &Name,
    key: &RefusingKey,
) -> Result<CertificationRequestInfo, Error>
    requires { HasTree name_codec name.now }
    ensures info { IfOk result (IsInfoNamed (params_view params.now) key.now name.now) }
    ensures formed { IfOk result (HasTree certification_request_info) }
    ensures ok { OnOk result (first_request_cause (params_view params.now) [] ≡ None) }
    ensures why { IfErr result (λ e. Explains (first_request_cause (params_view params.now) []) ⊥ (origin_of e)) }
{
    let no_attributes: &[Attribute] = &[];
    let base = request_info(alloc, params, key, no_attributes)?;
    let info = with_subject(alloc, base, name)?;
    Ok(info)
}

/// The DER of an info, of which only memory runs out.
fn info_octets(alloc: Global, info: &CertificationRequestInfo) -> Result<Vec<u8>, Error>
    requires { HasTree certification_request_info info.now }
    ensures form { IfOk result (λ octets. IsDerOf certification_request_info info.now octets.items) }
    ensures memory { IfErr result (λ e. e ≡ OutOfMemory) }
{
    let octets = memory_only(der::encode(alloc, info))?;
    Ok(octets)
}

/// The octets that the subject's key signs for the request of this key under this name.
fn named_to_be_signed(
    alloc: Global,
    params: &CertificateParams,
    name: &Name,
    key: &RefusingKey,
) -> Result<Vec<u8>, Error>
    requires { HasTree name_codec name.now }
    ensures message { IfOk result (λ m. IsRequestMessageAs (params_view params.now) key.now (Some name.now) m.items) }
    ensures ok { OnOk result (first_request_cause (params_view params.now) [] ≡ None) }
    ensures why { IfErr result (λ e. Explains (first_request_cause (params_view params.now) []) ⊥ (origin_of e)) }
{
    let info = named_info(alloc, params, name, key)?;
    let message = info_octets(alloc, &info)?;
    Ok(message)
}

/// The octets that the subject's key signs for the request of this key, under this name where one is
/// given, and else under that of the parameters. Refused as `request_to_be_signed` refuses, whatever the
/// name.
pub(crate) fn request_to_be_signed_as(
    alloc: Global,
    params: &CertificateParams,
    name: &Option<Name>,
    key: &RefusingKey,
) -> Result<Vec<u8>, Error>
    requires { IfSome name.now (HasTree name_codec) }
    ensures message { IfOk result (λ m. IsRequestMessageAs (params_view params.now) key.now name.now m.items) }
    ensures ok { OnOk result (first_request_cause (params_view params.now) [] ≡ None) }
    ensures why { IfErr result (λ e. Explains (first_request_cause (params_view params.now) []) ⊥ (origin_of e)) }
{
    match name {
        Some(name) => named_to_be_signed(alloc, params, name, key),
        None => request_to_be_signed(alloc, params, key),
    }
}
