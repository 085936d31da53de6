//! The octets that are to be signed (RFC 5280, 4.1.1.3 and 5.1.1.3; RFC 2986, 4.2; RFC 5755, 4.1).
ghost use Rattle.std.specs.Prelude.{◌≡◌, [], None, IfOk, IfErr, OnOk};
ghost use Rattle.attr_issue.specs.AttributeCauses.{ExplainsAttribute, first_attribute_cause};
ghost use Rattle.attr_issue.specs.AttributeCertificateView.{attribute_certificate_view};
ghost use Rattle.der_tree.specs.Form.{IsDerOf};
ghost use Rattle.der_tree.specs.HasTree.{HasTree};
ghost use Rattle.rcgen_text.specs.Causes.{Explains, origin_of};
ghost use Rattle.rcgen_text.specs.declared.error.Error.TheVariants.{OutOfMemory};
ghost use Rattle.rcgen_certificate.specs.Issue.{first_cause};
ghost use Rattle.rcgen_certificate.specs.Issuers.{view_of};
ghost use Rattle.rcgen_certificate.specs.ParamsView.{params_view};
ghost use Rattle.rcgen_certificate.specs.Requests.{first_request_cause};
ghost use Rattle.rcgen_issue.specs.CrlView.{crl_view};
ghost use Rattle.rcgen_issue.specs.Lists.{first_crl_cause};
ghost use Rattle.rcgen_tbs.specs.Messages.{IsAttributeMessage, IsCrlMessage, IsCertificateMessage, IsRequestMessage};

use crate::list::{entry_trees, framed_octets};
use attr_issue::{AttrError, AttributeCertificateParams, info_to_be_signed};
use der_tree::{DerType, der};
use rcgen_issue::{
    Attribute, CertificateParams, CertificateRevocationListParams, Issuer, list_frame,
    request_info, to_be_signed,
};
use rcgen_sign::{PublicKeyData, SigningKey, memory_only};
use rcgen_text::Error;
use std::alloc::Global;

/// The DER of a value, of which only memory runs out.
pub(crate) fn octets<T: DerType>(alloc: Global, value: &T) -> Result<Vec<u8>, Error>
    requires { HasTree T.codec value.now }
    ensures form { IfOk result (λ octets. IsDerOf T.codec value.now octets.items) }
    ensures memory { IfErr result (λ e. e ≡ OutOfMemory) }
{
    let octets = memory_only(der::encode(alloc, value))?;
    Ok(octets)
}

/// The octets that the issuer's key signs for the certificate that `CertificateParams::signed_by`
/// issues. Refused as that is, but never by the key.
pub fn certificate_to_be_signed<K: PublicKeyData, S: SigningKey>(
    alloc: Global,
    params: &CertificateParams,
    public_key: &K,
    issuer: &Issuer<'_, S>,
) -> Result<Vec<u8>, Error>
    ensures message { IfOk result (λ m. IsCertificateMessage (params_view params.now) (K.key public_key.now) (view_of S.key issuer.now) m.items) }
    ensures ok { OnOk result (first_cause (params_view params.now) (view_of S.key issuer.now).name ≡ None) }
    ensures why { IfErr result (λ e. Explains (first_cause (params_view params.now) (view_of S.key issuer.now).name) ⊥ (origin_of e)) }
{
    let value = to_be_signed(alloc, params, public_key, issuer)?;
    let message = octets(alloc, &value)?;
    Ok(message)
}

/// The octets that the issuer's key signs for the list that `CertificateRevocationListParams::signed_by`
/// issues. Refused as that is, but never by the key.
pub fn crl_to_be_signed<S: SigningKey>(
    alloc: Global,
    params: &CertificateRevocationListParams,
    issuer: &Issuer<'_, S>,
) -> Result<Vec<u8>, Error>
    ensures message { IfOk result (λ m. IsCrlMessage (crl_view params.now) (view_of S.key issuer.now) m.items) }
    ensures ok { OnOk result (first_crl_cause (crl_view params.now) (view_of S.key issuer.now) ≡ None) }
    ensures why { IfErr result (λ e. Explains (first_crl_cause (crl_view params.now) (view_of S.key issuer.now)) ⊥ (origin_of e)) }
{
    let frame = list_frame(alloc, params, issuer)?;
    let entries = entry_trees(alloc, &params.revoked_certs)?;
    let message = framed_octets(alloc, &frame, entries)?;
    Ok(message)
}

/// The octets that the subject's key signs for the request that `CertificateParams::serialize_request`
/// writes. Refused as that is, but never by the key.
pub fn request_to_be_signed<K: PublicKeyData>(
    alloc: Global,
    params: &CertificateParams,
    subject_key: &K,
) -> Result<Vec<u8>, Error>
    ensures message { IfOk result (λ m. IsRequestMessage (params_view params.now) (K.key subject_key.now) [] m.items) }
    ensures ok { OnOk result (first_request_cause (params_view params.now) [] ≡ None) }
    ensures why { IfErr result (λ e. Explains (first_request_cause (params_view params.now) []) ⊥ (origin_of e)) }
{
    let no_attributes: &[Attribute] = &[];
    let value = request_info(alloc, params, subject_key, no_attributes)?;
    let message = octets(alloc, &value)?;
    Ok(message)
}

/// The octets that the issuer's key signs for the attribute certificate that
/// `AttributeCertificateParams::signed_by` issues. Refused as that is, but never by the key.
pub fn attribute_to_be_signed<S: SigningKey>(
    alloc: Global,
    params: &AttributeCertificateParams,
    issuer: &Issuer<'_, S>,
) -> Result<Vec<u8>, AttrError>
    ensures message { IfOk result (λ m. IsAttributeMessage (attribute_certificate_view params.now) (view_of S.key issuer.now) m.items) }
    ensures ok { OnOk result (first_attribute_cause (attribute_certificate_view params.now) (view_of S.key issuer.now).name ≡ None) }
    ensures why { IfErr result (ExplainsAttribute (first_attribute_cause (attribute_certificate_view params.now) (view_of S.key issuer.now).name) ⊥) }
{
    let value = info_to_be_signed(alloc, params, issuer)?;
    let message = octets(alloc, &value)?;
    Ok(message)
}
