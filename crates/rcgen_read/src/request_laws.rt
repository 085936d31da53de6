//! Laws: a request that is written is read again, and what is issued for it is what it asks for.
ghost use Rattle.std.specs.Prelude.{◌≡◌, ℕ, ◌<◌};
ghost use Rattle.rcgen_sign.specs.Keys.{Key};
ghost use Rattle.rcgen_certificate.specs.ParamsView.{ParamsView, params_view};
ghost use Rattle.rcgen_text.specs.declared.basic_constraints.BasicConstraints.TheVariants.{Constrained};
ghost use Rattle.rcgen_text.specs.declared.basic_constraints.IsCa.TheVariants.{Ca};
ghost use Rattle.rcgen_read.specs.RequestLaws.{ExtensionsAreKept, HasNoCustomExtension, IssuedAsRequested, WrittenIsRead};

use crate::reading_laws::{
    alternative_names_are_read_back, name_is_held, names_are_read_back, names_are_written_back,
    sans_are_held,
};
use rcgen_issue::{BasicConstraints, CertificateParams, IsCa, key_usage_bits};

/// A law: a path length is below 256.
fn length_is_octet(is_ca: &IsCa)
    ensures { (n : ℕ) → is_ca.now ≡ Ca (Constrained n) → n < 256 }
{
    if let IsCa::Ca(BasicConstraints::Constrained(length)) = is_ca {
        let _length = *length;
    }
}

/// A request that is written without other attributes is read again, whatever follows it, as the
/// parameters have it (`read_back`): where no extension is given, the key's algorithm is one of those
/// that are looked for, and the verifier accepts the signature.
pub fn written_requests_are_read(params: &CertificateParams)
    ensures { WrittenIsRead (params_view params.now) }
{
    names_are_read_back();
    alternative_names_are_read_back();
    key_usage_bits();
    name_is_held(&params.distinguished_name);
    sans_are_held(&params.subject_alt_names);
    length_is_octet(&params.is_ca);
}

/// A certificate that is issued for what was read of a request has the request's key, byte for byte,
/// and its subject, where no identifier occurs twice in that.
pub fn issued_as_requested()
    ensures { IssuedAsRequested }
{
    names_are_written_back();
}

/// The extensions of such a certificate, for a request as `written_requests_are_read` has it: the
/// request's alternative names, key usage, purposes, and basic constraints, with the identifier of
/// the subject's key before the last. Purposes that have a name are in their fixed order, the
/// others after them in that of the request, each once.
pub fn extensions_are_kept()
    ensures { (params : ParamsView) (key : Key) → HasNoCustomExtension params → ExtensionsAreKept params key }
{}
