//! What the extensions of a certificate say about a path (RFC 5280, 4.2).
ghost use Rattle.std.specs.Prelude.{◌≡◌, IfOk};
ghost use Rattle.std.specs.List.{list_any};
ghost use Rattle.chain_check.specs.ViewChecks.{handled, read_ca_extensions, unhandled};

use asn1_core::OutOfMemory;
use extension_lookup::{are_distinct, contents_at, read_optional};
use pkix_cert::extension_id::{
    BASIC_CONSTRAINTS_DER, EXT_KEY_USAGE_DER, KEY_USAGE_DER, SUBJECT_ALT_NAME_DER,
};
use pkix_cert::{BasicConstraints, CertificateView, KeyUsage};
use std::alloc::Global;

/// What a certificate says of whom it may certify.
#[derive(Debug, Drop)]
pub(crate) struct CaExtensions {
    /// What its key is for, where it is said.
    pub(crate) usage: Option<KeyUsage>,
    /// Whether the subject issues certificates, and how long a path below it may be, where it is said.
    pub(crate) constraints: Option<BasicConstraints>,
}

/// What key usage and basic constraints say. None where two extensions have one identifier, or the
/// contents of one of those two aren't exactly one value.
#[tactic(auto, unfolding(crate::specs::ViewChecks::read_ca_extensions))]
pub(crate) fn read_ca_extensions(
    alloc: Global,
    view: &CertificateView<'_>,
) -> Result<Option<CaExtensions>, OutOfMemory>
    ensures { IfOk result (λ o. o ≡ read_ca_extensions view.now.extensions) }
{
    if !are_distinct(alloc, view)? {
        return Ok(None);
    }
    let Some(usage) = read_optional(alloc, contents_at(view, KEY_USAGE_DER))? else {
        return Ok(None);
    };
    let Some(constraints) = read_optional(alloc, contents_at(view, BASIC_CONSTRAINTS_DER))? else {
        return Ok(None);
    };
    Ok(Some(CaExtensions { usage, constraints }))
}

/// Whether the extension is processed, or is left to who uses the certificate.
#[tactic(auto, unfolding(crate::specs::ViewChecks::handled))]
fn handled(id: &[u8]) -> bool
    ensures { result ≡ handled id.now }
{
    id == KEY_USAGE_DER
        || id == SUBJECT_ALT_NAME_DER
        || id == BASIC_CONSTRAINTS_DER
        || id == EXT_KEY_USAGE_DER
}

/// Whether a critical extension isn't handled.
pub(crate) fn has_unhandled(view: &CertificateView<'_>) -> bool
    ensures { result ≡ list_any unhandled view.now.extensions }
{
    for extension in view.extensions() {
        if extension.critical && !handled(extension.id) {
            return true;
        }
    }
    false
}
