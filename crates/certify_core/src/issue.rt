//! Issues the certificate of a profile.
ghost use Rattle.std.specs.Prelude.{◌≡◌, None, IfOk, IfErr, OnOk};
ghost use Rattle.rcgen_certificate.specs.Issue.{first_cause, IssuesAs, Refuses};
ghost use Rattle.rcgen_certificate.specs.Issuers.{key_of, view_of};
ghost use Rattle.rcgen_certificate.specs.ParamsView.{params_view};
ghost use Rattle.rcgen_text.specs.Causes.{Explains, origin_of};
ghost use Rattle.certify_core.specs.Issuing.{IsTextOf};

use crate::document::Subcommand;
use crate::listing::listing;
use crate::params::issuer_of_profile;
use crate::refusal::Refusal;
use crate::text::hex_line;
use certify_profile::CertificateProfile;
use profile_params::params_of_profile;
use rcgen_issue::{CertificateParams, DigestKey, Error, Issuer, PublicKeyData, SigningKey};
use std::alloc::Global;

/// The line and the listing of the certificate that the issuer issues for the subject's key.
pub(crate) fn certificate_text<K: PublicKeyData, S: SigningKey>(
    alloc: Global,
    params: &CertificateParams,
    subject: &K,
    issuer: &Issuer<'_, S>,
) -> Result<Vec<u8>, Error>
    ensures text { IfOk result (λ text. IsTextOf (IssuesAs (params_view params.now) (K.key subject.now) (view_of S.key issuer.now) (S.fits (key_of issuer.now))) text.items) }
    ensures ok { OnOk result (first_cause (params_view params.now) (view_of S.key issuer.now).name ≡ None) }
    ensures why { IfErr result (λ e. Explains (first_cause (params_view params.now) (view_of S.key issuer.now).name)
        (Refuses (params_view params.now) (K.key subject.now) (view_of S.key issuer.now) (S.may_refuse (key_of issuer.now))) (origin_of e)) }
{
    let certificate = params.signed_by(alloc, subject, issuer)?;
    let mut text = hex_line(alloc, certificate.der())?;
    let Some(lines) = listing(alloc, certificate.der())? else {
        unreachable!();
    };
    text.extend_from_slice(&lines)?;
    Ok(text)
}

/// The line and the listing of the certificate of a profile.
pub(crate) struct Issuing;

impl Subcommand for Issuing {
    ghost use Rattle.certify_core.specs.Issuing.{issuing};

    type Profile = CertificateProfile;

    ghost spec = { issuing };

    fn text(alloc: Global, profile: CertificateProfile) -> Result<Vec<u8>, Refusal> {
        let CertificateProfile {
            secret,
            content,
            issuer,
        } = profile;
        let key = DigestKey::new(alloc, secret.as_bytes())?;
        let params = params_of_profile(alloc, content)?;
        match issuer {
            Some(table) => {
                let issuer = issuer_of_profile(alloc, table)?;
                Ok(certificate_text(alloc, &params, &key, &issuer)?)
            }
            None => {
                let issuer = Issuer::from_params(&params, &key);
                Ok(certificate_text(alloc, &params, &key, &issuer)?)
            }
        }
    }
}
