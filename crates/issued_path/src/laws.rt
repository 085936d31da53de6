//! Laws: why a step may fail at a certificate that was issued.
ghost use Rattle.issued_path.specs.Ends.{IsAcceptedBeneathItsIssuer, IsAcceptedInItsPath, IsAcceptedUnderItsAnchor, PlainIsValid};

use path_names::names_match_is_equivalence;
use path_validation::first_reason;
use pkix_cert::{extension_ids_are_encoded, parts_of_each_view};

/// A law: a certificate that was issued, with a signature that the verifier accepts under the issuer's
/// key, is valid in a path of its own with the issuer as the trust anchor, or a step fails for one of
/// the causes: what is asked about the path, its own dates, or extensions that were given as they are.
pub fn accepted_under_its_anchor()
    ensures { IsAcceptedUnderItsAnchor }
{
    extension_ids_are_encoded();
    parts_of_each_view();
    names_match_is_equivalence();
    first_reason();
}

/// A law: without any of these causes it is valid.
pub fn plain_is_valid()
    ensures { PlainIsValid }
{
    extension_ids_are_encoded();
    parts_of_each_view();
    names_match_is_equivalence();
    first_reason();
}

/// A law: the same in a path of two, after its issuer's certificate: the path is valid, or a step fails
/// at the issuer's certificate, or at the one that was issued for such a cause.
pub fn accepted_beneath_its_issuer()
    ensures { IsAcceptedBeneathItsIssuer }
{
    extension_ids_are_encoded();
    parts_of_each_view();
    names_match_is_equivalence();
    first_reason();
}

/// A law: the same after any certificates, where they leave the issuer's name and key.
pub fn accepted_in_its_path()
    ensures { IsAcceptedInItsPath }
{
    extension_ids_are_encoded();
    parts_of_each_view();
    names_match_is_equivalence();
    first_reason();
}
