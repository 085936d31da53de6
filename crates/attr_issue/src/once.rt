//! What is signed is one value.
ghost use Rattle.std.specs.Prelude.{◌≡◌, ℕ, List};
ghost use Rattle.pkix_attr.specs.declared.certificate.AttributeCertificateInfo.{AttributeCertificateInfo};
ghost use Rattle.rcgen_certificate.specs.Issuers.{IssuerView};
ghost use Rattle.rcgen_certificate.specs.Signed.{FitsOnce};
ghost use Rattle.attr_issue.specs.AttributeCertificateView.{AttributeCertificateView};
ghost use Rattle.attr_issue.specs.AttributeCertificates.{IsAttributeInfo, IssuesAttribute};

use asn1_core::written_once;
use rcgen_sign::SigningKey;

/// A law: what is signed for an attribute certificate's parameters, in view of an issuer, is one
/// value.
pub fn attribute_info_once()
    ensures { (params : AttributeCertificateView) (issuer : IssuerView) (s t : AttributeCertificateInfo)
        → IsAttributeInfo params issuer s → IsAttributeInfo params issuer t → s ≡ t }
{
    written_once();
}

/// A law: where one signature alone of the issuer's key fits each message, the DER of the attribute
/// certificate that is issued is the same octets each time.
pub fn attribute_issued_once<S: SigningKey>()
    ensures { (key : S) → FitsOnce (S.fits key) → (params : AttributeCertificateView) (issuer : IssuerView) (a b : List ℕ)
        → IssuesAttribute params issuer (S.fits key) a → IssuesAttribute params issuer (S.fits key) b → a ≡ b }
{
    written_once();
}
