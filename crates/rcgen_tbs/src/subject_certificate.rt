//! What is to be signed for a subject whose key may be of any algorithm (RFC 5280, 4.1).
ghost use Rattle.std.specs.Prelude.{◌≡◌, None, IfOk, IfErr, OnOk};
ghost use Rattle.der_tree.specs.HasTree.{HasTree};
ghost use Rattle.pkix_cert.specs.Algorithms.{subject_public_key_info};
ghost use Rattle.rcgen_text.specs.Causes.{Explains, origin_of};
ghost use Rattle.rcgen_certificate.specs.Issue.{first_cause};
ghost use Rattle.rcgen_certificate.specs.Issuers.{view_of};
ghost use Rattle.rcgen_certificate.specs.ParamsView.{params_view};
ghost use Rattle.rcgen_tbs.specs.Subjects.{HasInfoTree, IsCertificateMessageFor};
ghost use Rattle.rcgen_tbs.specs.declared.subject.Subject.TheVariants.{Other};

use crate::stand_in::info_value;
use crate::subject::Subject;
use crate::to_be_signed::{certificate_to_be_signed, octets};
use pkix_cert::SubjectPublicKeyInfo;
use rcgen_issue::{CertificateParams, Issuer};
use rcgen_sign::SigningKey;
use rcgen_text::Error;
use std::alloc::Global;

/// The octets that the issuer's key signs for the certificate of a subject whose key has this info.
fn info_to_be_signed<S: SigningKey>(
    alloc: Global,
    params: &CertificateParams,
    info: &SubjectPublicKeyInfo,
    issuer: &Issuer<'_, S>,
) -> Result<Vec<u8>, Error>
    requires { HasTree subject_public_key_info info.now }
    ensures message { IfOk result (λ m. IsCertificateMessageFor (params_view params.now) (Other info.now) (view_of S.key issuer.now) m.items) }
    ensures ok { OnOk result (first_cause (params_view params.now) (view_of S.key issuer.now).name ≡ None) }
    ensures why { IfErr result (λ e. Explains (first_cause (params_view params.now) (view_of S.key issuer.now).name) ⊥ (origin_of e)) }
{
    let value = info_value(alloc, params, info, issuer)?;
    let message = octets(alloc, &value)?;
    Ok(message)
}

/// The octets that the issuer's key signs for the certificate of this subject. Refused as
/// `certificate_to_be_signed` refuses, whatever the subject's key.
pub fn certificate_to_be_signed_for<S: SigningKey>(
    alloc: Global,
    params: &CertificateParams,
    subject: &Subject,
    issuer: &Issuer<'_, S>,
) -> Result<Vec<u8>, Error>
    requires { HasInfoTree subject.now }
    ensures message { IfOk result (λ m. IsCertificateMessageFor (params_view params.now) subject.now (view_of S.key issuer.now) m.items) }
    ensures ok { OnOk result (first_cause (params_view params.now) (view_of S.key issuer.now).name ≡ None) }
    ensures why { IfErr result (λ e. Explains (first_cause (params_view params.now) (view_of S.key issuer.now).name) ⊥ (origin_of e)) }
{
    match subject {
        Subject::Known(key) => certificate_to_be_signed(alloc, params, key, issuer),
        Subject::Other(info) => info_to_be_signed(alloc, params, info, issuer),
    }
}
