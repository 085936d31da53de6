//! The certificates of a question.
ghost use Rattle.std.specs.Prelude.{◌≡◌};
ghost use Rattle.shelf_fault.specs.Faults.{Gets};
ghost use Rattle.shelf_path.specs.Certificates.{certificate_in, certificates_behind, is_certificate, whole_certificate};

use pem::Block;
use pkix_cert::CertificateView;
use shelf_fault::Fault;
use std::alloc::Global;

/// The certificate whose form the octets are, with nothing after it.
#[tactic(auto, unfolding(crate::specs::Certificates::whole_certificate))]
pub(crate) fn whole_certificate(octets: &[u8]) -> Option<CertificateView<'_>>
    ensures { result ≡ whole_certificate octets.now }
{
    let view = CertificateView::new(octets)?;
    if view.rest().is_empty() {
        Some(view)
    } else {
        None
    }
}

/// Whether the block is a certificate's, by its label (RFC 7468, 5).
fn is_certificate(block: &Block) -> bool
    ensures { result ≡ is_certificate block.now }
{
    block.label() == b"CERTIFICATE".as_slice()
}

/// The certificate of the block of this number.
#[tactic(auto, unfolding(crate::specs::Certificates::certificate_in))]
fn certificate_in(number: usize, block: &Block) -> Result<CertificateView<'_>, Fault>
    ensures { Gets (λ view. view) (certificate_in number block.now) result }
{
    if !is_certificate(block) {
        return Err(Fault::NotCertificate(number));
    }
    match whole_certificate(block.octets()) {
        Some(view) => Ok(view),
        None => Err(Fault::NotCertificate(number)),
    }
}

/// The certificates of these blocks, in their order.
pub(crate) fn certificates<'a>(
    alloc: Global,
    blocks: &'a [Block],
) -> Result<Vec<CertificateView<'a>>, Fault>
    ensures { Gets (λ views. views.items) (certificates_behind 0 blocks.now) result }
{
    let mut views = Vec::new(alloc);
    let mut number = 0usize;
    for block in blocks {
        number += 1;
        views.push(certificate_in(number, block)?)?;
    }
    Ok(views)
}
