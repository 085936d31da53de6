//! Laws: an issuer that is restored from its own certificate is the issuer that it was, and its name
//! has a value.
ghost use Rattle.std.specs.Prelude.{◌≡◌, ℕ, true, List, Ok};
ghost use Rattle.rcgen_certificate.specs.NameValues.{has_types};
ghost use Rattle.rcgen_certificate.specs.ParamsView.{params_view};
ghost use Rattle.rcgen_read.specs.IssuerReading.{RestoredIssuer, read_issuer};
ghost use Rattle.rcgen_read.specs.RestoredIssuers.{IsRestored};

use crate::reading_laws::{name_is_held, names_are_read_back};
use rcgen_issue::{CertificateParams, key_usage_bits, one_view_signs_the_same};

/// The issuer of these parameters and a key, and one that is restored with this key from a certificate
/// that was issued for both, have the same view: so both sign the same certificates and lists, and the
/// same causes are against them, whatever the parameters. The conditions are that
/// `is_ca` isn't `NoCa`, or else that the method is `KeyIdMethod::Sha256` and no extension 2.5.29.14 is
/// given; that no identifier occurs twice in the name; and that no extension 2.5.29.15 is given.
pub fn issuers_are_restored(params: &CertificateParams)
    ensures { IsRestored (params_view params.now) }
{
    names_are_read_back();
    key_usage_bits();
    one_view_signs_the_same();
    name_is_held(&params.distinguished_name);
}

/// The types of a restored issuer's name are object identifiers, so that it has a value.
#[tactic(auto, using(crate::proofs::RestoredNames::restored_name_has_types))]
pub fn restored_names_have_types()
    ensures { (der : List ℕ) (r : RestoredIssuer) → read_issuer der ≡ Ok r → has_types r.name ≡ true }
{}
