//! What is signed is one value, and the same under issuers with the same view.
ghost use Rattle.std.specs.Prelude.{◌≡◌, ℕ, List};
ghost use Rattle.pkix_cert.specs.declared.revocation.TbsCertList.{TbsCertList};
ghost use Rattle.rcgen_certificate.specs.Issuers.{IssuerView};
ghost use Rattle.rcgen_certificate.specs.Signed.{FitsOnce};
ghost use Rattle.rcgen_issue.specs.CrlView.{CrlView};
ghost use Rattle.rcgen_issue.specs.Lists.{IsCrlToBeSigned, IssuesCrl};
ghost use Rattle.rcgen_issue.specs.SameIssuers.{IssueTheSame, SignTheSame};

use asn1_core::written_once;
use rcgen_sign::{DigestKey, SigningKey};

/// A law: what is signed for a list's parameters, in view of an issuer, is one value.
pub fn list_to_be_signed_once()
    ensures { (params : CrlView) (issuer : IssuerView) (s t : TbsCertList)
        → IsCrlToBeSigned params issuer s → IsCrlToBeSigned params issuer t → s ≡ t }
{
    written_once();
}

/// A law: where one signature alone of the issuer's key fits each message, the DER of the list that
/// is issued is the same octets each time.
pub fn list_issued_once<S: SigningKey>()
    ensures { (key : S) → FitsOnce (S.fits key) → (params : CrlView) (issuer : IssuerView) (a b : List ℕ)
        → IssuesCrl params issuer (S.fits key) a → IssuesCrl params issuer (S.fits key) b → a ≡ b }
{
    written_once();
}

/// A law: two issuers with the same view sign the same certificates and lists, whatever the
/// parameters and the subject's key, and sign nothing for the same causes.
pub fn one_view_signs_the_same()
    ensures { (one other : IssuerView) → one ≡ other → SignTheSame one other }
{
    written_once();
}

/// A law: two issuers with the same view, and a key of which one signature alone fits each message,
/// issue the same octets.
pub fn one_view_issues_the_same<S: SigningKey>()
    ensures { (key : S) → FitsOnce (S.fits key) → (one other : IssuerView) → one ≡ other → IssueTheSame one other (S.fits key) }
{
    written_once();
}

/// A law: one signature alone of a `DigestKey` fits each message.
pub fn digest_key_fits_once()
    ensures { (secret : List ℕ) → FitsOnce (⟦<DigestKey as SigningKey>⟧.fits secret) }
{}
