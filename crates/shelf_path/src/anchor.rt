//! Whom the user trusts.
ghost use Rattle.std.specs.Prelude.{◌≡◌, ℕ, List, Ok, Some};
ghost use Rattle.der_tree.specs.Form.{IsDerOf};
ghost use Rattle.pkix_cert.specs.Certificates.{certificate};
ghost use Rattle.pkix_cert.specs.Views.{CertificateParts};
ghost use Rattle.pkix_cert.specs.declared.certificate.Certificate.{Certificate};
ghost use Rattle.shelf_fault.specs.Faults.{Gets};
ghost use Rattle.shelf_path.specs.Asked.{anchor_in, anchor_of};
ghost use Rattle.shelf_path.specs.Certificates.{whole_certificate};

use der_tree::der;
use path_validation::TrustAnchor;
use pkix_cert::{CertificateView, parts_of_each_view};
use shelf_fault::Fault;
use std::alloc::Global;

/// The subject and the key of the certificate in the block of this number. Each
/// certificate has both.
#[tactic(auto, unfolding(crate::specs::Asked::anchor_of))]
pub(crate) fn anchor_of(
    alloc: Global,
    number: usize,
    view: &CertificateView<'_>,
) -> Result<TrustAnchor, Fault>
    ensures { Gets (λ a. a) (anchor_of number view.now) result }
{
    let Some(name) = der::value_of(alloc, view.subject())? else {
        return Err(Fault::NotCertificate(number));
    };
    let Some(key_info) = der::value_of(alloc, view.key_info())? else {
        return Err(Fault::NotCertificate(number));
    };
    Ok(TrustAnchor { name, key_info })
}

/// A law: what a block has as a certificate is one whole form (RFC 5280, 4.1), and the anchor that it
/// gives has that certificate's subject and key.
pub fn anchor_is_subject()
    ensures { (octets : List ℕ) (p : CertificateParts) (number : ℕ) → whole_certificate octets ≡ Some p
        → (c : Certificate) × IsDerOf certificate c octets × (anchor_of number p ≡ Ok (anchor_in c)) }
{
    parts_of_each_view();
}
