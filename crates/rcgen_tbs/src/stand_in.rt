//! A key that takes the place of another one where parameters make a certificate.
ghost use Rattle.std.specs.Prelude.{◌≡◌, ℕ, List, None, IfOk, IfErr, OnOk};
ghost use Rattle.der_tree.specs.Form.{IsDerOf};
ghost use Rattle.der_tree.specs.HasTree.{HasTree};
ghost use Rattle.pkix_cert.specs.Algorithms.{subject_public_key_info};
ghost use Rattle.pkix_cert.specs.Certificates.{tbs_certificate};
ghost use Rattle.rcgen_text.specs.Causes.{Explains, origin_of};
ghost use Rattle.rcgen_text.specs.declared.error.Error.TheVariants.{OutOfMemory};
ghost use Rattle.rcgen_certificate.specs.Issue.{first_cause};
ghost use Rattle.rcgen_certificate.specs.Issuers.{view_of};
ghost use Rattle.rcgen_certificate.specs.ParamsView.{params_view};
ghost use Rattle.rcgen_tbs.specs.StandIns.{IsOfStandIn};
ghost use Rattle.rcgen_tbs.specs.Subjects.{IsToBeSignedWith, identified, stand_in, with_info};

use crate::to_be_signed::octets;
use asn1_core::TryClone;
use pkix_cert::{SubjectPublicKeyInfo, TbsCertificate};
use rcgen_issue::{CertificateParams, Issuer, to_be_signed};
use rcgen_sign::{KeyIdMethod, PKCS_ED25519, PublicKey, SigningKey};
use rcgen_text::Error;
use std::alloc::Global;

/// The parameters, with the identifier of the key with this info given.
fn identified(
    alloc: Global,
    params: &CertificateParams,
    info: &SubjectPublicKeyInfo,
) -> Result<CertificateParams, Error>
    requires { HasTree subject_public_key_info info.now }
    ensures view { IfOk result (λ copy. (octets : List ℕ) × IsDerOf subject_public_key_info info.now octets
        × (params_view copy ≡ identified (params_view params.now) octets)) }
    ensures memory { IfErr result (λ e. e ≡ OutOfMemory) }
{
    let octets = octets(alloc, info)?;
    let id = params
        .key_identifier_method
        .derive(alloc, octets.as_slice())?;
    let mut copy = params.try_clone(alloc)?;
    copy.key_identifier_method = KeyIdMethod::PreSpecified(id);
    Ok(copy)
}

/// The key that takes the place of the one with this info.
fn stand_in(alloc: Global, info: &SubjectPublicKeyInfo) -> Result<PublicKey, Error>
    ensures key { IfOk result (λ key. key ≡ stand_in info.now) }
    ensures memory { IfErr result (λ e. e ≡ OutOfMemory) }
{
    let octets = Vec::from_slice(alloc, info.subject_public_key.bytes())?;
    Ok(PublicKey::new(octets, PKCS_ED25519))
}

/// What is signed for the key that takes the place of the one with this info.
fn of_stand_in<S: SigningKey>(
    alloc: Global,
    params: &CertificateParams,
    info: &SubjectPublicKeyInfo,
    issuer: &Issuer<'_, S>,
) -> Result<TbsCertificate, Error>
    requires { HasTree subject_public_key_info info.now }
    ensures value { IfOk result (IsOfStandIn (params_view params.now) info.now (view_of S.key issuer.now)) }
    ensures formed { IfOk result (HasTree tbs_certificate) }
    ensures ok { OnOk result (first_cause (params_view params.now) (view_of S.key issuer.now).name ≡ None) }
    ensures why { IfErr result (λ e. Explains (first_cause (params_view params.now) (view_of S.key issuer.now).name) ⊥ (origin_of e)) }
{
    let copy = identified(alloc, params, info)?;
    let key = stand_in(alloc, info)?;
    let value = to_be_signed(alloc, &copy, &key, issuer)?;
    Ok(value)
}

/// The value with this info in the place of its own.
fn with_info(
    alloc: Global,
    mut value: TbsCertificate,
    info: &SubjectPublicKeyInfo,
) -> Result<TbsCertificate, Error>
    ensures value { IfOk result (λ t. t ≡ with_info info.now value) }
    ensures memory { IfErr result (λ e. e ≡ OutOfMemory) }
{
    value.subject_public_key_info = info.try_clone(alloc)?;
    Ok(value)
}

/// What is signed for a subject whose key has this info.
pub(crate) fn info_value<S: SigningKey>(
    alloc: Global,
    params: &CertificateParams,
    info: &SubjectPublicKeyInfo,
    issuer: &Issuer<'_, S>,
) -> Result<TbsCertificate, Error>
    requires { HasTree subject_public_key_info info.now }
    ensures value { IfOk result (IsToBeSignedWith (params_view params.now) info.now (view_of S.key issuer.now)) }
    ensures formed { IfOk result (HasTree tbs_certificate) }
    ensures ok { OnOk result (first_cause (params_view params.now) (view_of S.key issuer.now).name ≡ None) }
    ensures why { IfErr result (λ e. Explains (first_cause (params_view params.now) (view_of S.key issuer.now).name) ⊥ (origin_of e)) }
{
    let base = of_stand_in(alloc, params, info, issuer)?;
    let value = with_info(alloc, base, info)?;
    Ok(value)
}
