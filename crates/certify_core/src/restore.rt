//! Restores an issuer from its certificate.
ghost use Rattle.std.specs.Prelude.{◌≡◌, true, is_some, IfOk, IfErr};
ghost use Rattle.rcgen_certificate.specs.Issuers.{issuer_field_of, view_of};
ghost use Rattle.rcgen_text.specs.declared.error.Error.TheVariants.{OutOfMemory};
ghost use Rattle.certify_core.specs.Restoring.{IsViewText};

use crate::document::Subcommand;
use crate::listing::issuer_lines;
use crate::refusal::Refusal;
use asn1_core::OctetString;
use certify_profile::RestoreProfile;
use rcgen_certificate::{key_id, signs_lists};
use rcgen_issue::{DigestKey, Error, Issuer, SigningKey};
use rcgen_read::{ReadBack, restored_names_have_types};
use std::alloc::Global;

/// The lines of the issuer.
fn view_text<S: SigningKey>(alloc: Global, issuer: &Issuer<'_, S>) -> Result<Vec<u8>, Error>
    requires { is_some (issuer_field_of issuer.now) ≡ true }
    ensures text { IfOk result (λ text. IsViewText (view_of S.key issuer.now) text.items) }
    ensures memory { IfErr result (λ e. e ≡ OutOfMemory) }
{
    let name = issuer.issuer_field(alloc)?;
    let id = key_id(alloc, issuer.key_identifier_method(), issuer.key())?;
    let signs_lists = signs_lists(issuer.key_usages());
    Ok(issuer_lines(alloc, &name, &OctetString::new(id), signs_lists)?)
}

/// The lines of the issuer that is restored.
pub(crate) struct Restoring;

impl Subcommand for Restoring {
    ghost use Rattle.certify_core.specs.Restoring.{restoring};

    type Profile = RestoreProfile;

    ghost spec = { restoring };

    fn text(alloc: Global, profile: RestoreProfile) -> Result<Vec<u8>, Refusal> {
        restored_names_have_types();
        let key = DigestKey::new(alloc, profile.secret.as_bytes())?;
        let certificate = profile.certificate.as_slice();
        let issuer = Issuer::from_ca_cert_der(alloc, certificate, key)?;
        let text = view_text(alloc, &issuer)?;
        Ok(text)
    }
}
