//! What the explanation of a certificate or a revocation list contains.
ghost use Rattle.std.specs.Prelude.{List, codes, ℕ};
ghost use Rattle.der_tree.specs.Form.{IsDerOf};
ghost use Rattle.pkix_cert.specs.Certificates.{certificate};
ghost use Rattle.pkix_cert.specs.Revocations.{certificate_list};
ghost use Rattle.shelf_explain.specs.Explanation.{long_explanation};
ghost use Rattle.shelf_explain.specs.ShownFields.{ShowsFields};
ghost use Rattle.shelf_explain.specs.ShownLists.{ShowsList};

use der_tree::der;
use pkix_cert::{Certificate, CertificateList};

/// The explanation of a certificate, before its lines are folded, contains the lines of each of its fields, a line for each of its
/// extensions, and the digest of its octets.
pub fn certificate_is_shown()
    ensures { (c : Certificate) (octets : List ℕ) → IsDerOf certificate c octets → ShowsFields c octets (long_explanation (codes "CERTIFICATE") octets) }
{
    der::value_exactly::<Certificate>();
}

/// The explanation of a revocation list, before its lines are folded, contains the lines of each of its fields, a line for each of its
/// extensions, the lines of each of its entries, and the digest of its octets.
pub fn list_is_shown()
    ensures { (l : CertificateList) (octets : List ℕ) → IsDerOf certificate_list l octets → ShowsList l octets (long_explanation (codes "X509 CRL") octets) }
{
    der::value_exactly::<CertificateList>();
}
