//! Laws: what is to be signed is one string of octets, and the signature of what is issued fits exactly that.
ghost use Rattle.std.specs.Prelude.{◌≡◌, ℕ, List, true};
ghost use Rattle.attr_issue.specs.AttributeCertificateView.{AttributeCertificateView};
ghost use Rattle.attr_issue.specs.AttributeCertificates.{IssuesAttribute};
ghost use Rattle.rcgen_sign.specs.Keys.{Key};
ghost use Rattle.rcgen_certificate.specs.Issue.{Issues};
ghost use Rattle.rcgen_certificate.specs.Issuers.{IssuerView};
ghost use Rattle.rcgen_certificate.specs.Requests.{Requests};
ghost use Rattle.rcgen_certificate.specs.declared.csr.Attribute.{Attribute};
ghost use Rattle.rcgen_certificate.specs.ParamsView.{ParamsView};
ghost use Rattle.rcgen_issue.specs.Lists.{IssuesCrl};
ghost use Rattle.rcgen_issue.specs.CrlView.{CrlView};
ghost use Rattle.rcgen_certificate.specs.Signed.{FitsOnce, IsAssembled};
ghost use Rattle.rcgen_tbs.specs.Messages.{IsAttributeMessage, IsAttributeOver, IsCrlMessage, IsCrlOver, IsCertificateMessage, IsCertificateOver, IsRequestMessage, IsRequestOver};
ghost use Rattle.rcgen_tbs.specs.Subjects.{HasInfoTree, IsCertificateMessageFor, IsCertificateOverFor};
ghost use Rattle.rcgen_tbs.specs.declared.subject.Subject.{Subject};
ghost use Rattle.rcgen_tbs.specs.declared.subject.Subject.TheVariants.{Known, Other};
ghost use Rattle.der_tree.specs.AnyElement.{is_one};
ghost use Rattle.der_tree.specs.Form.{IsDerOf};
ghost use Rattle.pkix_cert.specs.Algorithms.{subject_public_key_info};
ghost use Rattle.pkix_cert.specs.declared.algorithm.SubjectPublicKeyInfo.{SubjectPublicKeyInfo};

use attr_issue::attribute_info_once;
use rcgen_certificate::{request_info_once, to_be_signed_once};
use rcgen_issue::list_to_be_signed_once;
use rcgen_sign::SigningKey;

/// A law: for parameters, a subject's key and a view of an issuer there is at most one message, and so
/// for those of a revocation list, of a request and of an attribute certificate.
#[tactic(auto, using(crate::proofs::Once::one_attribute_message, crate::proofs::Once::one_certificate_message, crate::proofs::Once::one_crl_message, crate::proofs::Once::one_request_message))]
pub fn one_message()
    ensures certificate { (params : ParamsView) (subject : Key) (issuer : IssuerView) (m n : List ℕ)
        → IsCertificateMessage params subject issuer m → IsCertificateMessage params subject issuer n → m ≡ n }
    ensures crl { (params : CrlView) (issuer : IssuerView) (m n : List ℕ)
        → IsCrlMessage params issuer m → IsCrlMessage params issuer n → m ≡ n }
    ensures request { (params : ParamsView) (subject : Key) (attrs : List Attribute) (m n : List ℕ)
        → IsRequestMessage params subject attrs m → IsRequestMessage params subject attrs n → m ≡ n }
    ensures attribute { (params : AttributeCertificateView) (issuer : IssuerView) (m n : List ℕ)
        → IsAttributeMessage params issuer m → IsAttributeMessage params issuer n → m ≡ n }
{
    to_be_signed_once();
    list_to_be_signed_once();
    request_info_once();
    attribute_info_once();
}

/// A law: the signature of a certificate that is issued for parameters fits their message, whatever
/// key signed it, and what is signed in the certificate has the message as its DER.
pub fn certificate_is_over_message<S: SigningKey>()
    ensures { (key : S) → (params : ParamsView) (subject : Key) (issuer : IssuerView) (message der : List ℕ)
        → IsCertificateMessage params subject issuer message → Issues params subject issuer (S.fits key) der → IsCertificateOver params subject issuer (S.fits key) message der }
{
    to_be_signed_once();
}

/// A law: the same of revocation lists.
pub fn crl_is_over_message<S: SigningKey>()
    ensures { (key : S) → (params : CrlView) (issuer : IssuerView) (message der : List ℕ)
        → IsCrlMessage params issuer message → IssuesCrl params issuer (S.fits key) der → IsCrlOver params issuer (S.fits key) message der }
{
    list_to_be_signed_once();
}

/// A law: the same of requests.
pub fn request_is_over_message<S: SigningKey>()
    ensures { (key : S) → (params : ParamsView) (subject : Key) (attrs : List Attribute) (message der : List ℕ)
        → IsRequestMessage params subject attrs message → Requests params subject attrs (S.fits key) der → IsRequestOver params subject attrs (S.fits key) message der }
{
    request_info_once();
}

/// A law: the same of attribute certificates.
pub fn attribute_is_over_message<S: SigningKey>()
    ensures { (key : S) → (params : AttributeCertificateView) (issuer : IssuerView) (message der : List ℕ)
        → IsAttributeMessage params issuer message → IssuesAttribute params issuer (S.fits key) der → IsAttributeOver params issuer (S.fits key) message der }
{
    attribute_info_once();
}

/// A law: the info of a key that was read can be written in a certificate.
pub fn info_tree_of_form()
    ensures { (info : SubjectPublicKeyInfo) (der : List ℕ) → IsDerOf subject_public_key_info info der → HasInfoTree (Other info) }
{}

/// A law: for parameters, a subject and a view of an issuer there is at most one message.
pub fn one_message_for()
    ensures { (params : ParamsView) (subject : Subject) (issuer : IssuerView) (m n : List ℕ)
        → IsCertificateMessageFor params subject issuer m → IsCertificateMessageFor params subject issuer n → m ≡ n }
{
    to_be_signed_once();
}

/// A law: where one signature alone of the issuer's key fits each message, the DER of the certificate
/// of a subject is the same octets each time.
pub fn certificate_over_message_once<S: SigningKey>()
    ensures { (key : S) → FitsOnce (S.fits key) → (params : ParamsView) (subject : Subject) (issuer : IssuerView) (m n a b : List ℕ)
        → IsCertificateOverFor params subject issuer (S.fits key) m a → IsCertificateOverFor params subject issuer (S.fits key) n b → a ≡ b }
{
    to_be_signed_once();
}

/// A law: of a known key the certificate over a message is the one that is issued for it.
pub fn known_subject<S: SigningKey>()
    ensures from { (key : S) → (params : ParamsView) (subject : Key) (issuer : IssuerView) (message der : List ℕ)
        → IsCertificateOver params subject issuer (S.fits key) message der → IsCertificateOverFor params (Known subject) issuer (S.fits key) message der }
    ensures back { (key : S) → (params : ParamsView) (subject : Key) (issuer : IssuerView) (message der : List ℕ)
        → IsCertificateOverFor params (Known subject) issuer (S.fits key) message der → IsCertificateOver params subject issuer (S.fits key) message der }
{}

/// A law: each message is one element, as `assemble` takes it.
pub fn messages_are_elements()
    ensures certificate { (params : ParamsView) (subject : Subject) (issuer : IssuerView) (m : List ℕ)
        → IsCertificateMessageFor params subject issuer m → is_one m ≡ true }
    ensures crl { (params : CrlView) (issuer : IssuerView) (m : List ℕ) → IsCrlMessage params issuer m → is_one m ≡ true }
    ensures request { (params : ParamsView) (subject : Key) (attrs : List Attribute) (m : List ℕ) → IsRequestMessage params subject attrs m → is_one m ≡ true }
    ensures attribute { (params : AttributeCertificateView) (issuer : IssuerView) (m : List ℕ) → IsAttributeMessage params issuer m → is_one m ≡ true }
{}

/// A law: what `assemble` makes of a message, the algorithm of the key that signs and a signature is
/// what is issued over the message with this signature.
pub fn assembled_is_issued()
    ensures certificate { (params : ParamsView) (subject : Subject) (issuer : IssuerView) (s message der : List ℕ)
        → IsCertificateMessageFor params subject issuer message → IsAssembled message issuer.algorithm s der
        → IsCertificateOverFor params subject issuer (λ m t. t ≡ s) message der }
    ensures crl { (params : CrlView) (issuer : IssuerView) (s message der : List ℕ)
        → IsCrlMessage params issuer message → IsAssembled message issuer.algorithm s der → IsCrlOver params issuer (λ m t. t ≡ s) message der }
    ensures request { (params : ParamsView) (subject : Key) (attrs : List Attribute) (s message der : List ℕ)
        → IsRequestMessage params subject attrs message → IsAssembled message subject.algorithm s der
        → IsRequestOver params subject attrs (λ m t. t ≡ s) message der }
    ensures attribute { (params : AttributeCertificateView) (issuer : IssuerView) (s message der : List ℕ)
        → IsAttributeMessage params issuer message → IsAssembled message issuer.algorithm s der
        → IsAttributeOver params issuer (λ m t. t ≡ s) message der }
{
    list_to_be_signed_once();
    request_info_once();
}
