//! Laws: of a subject under a name there is one message, and what is assembled over that is issued.
ghost use Rattle.std.specs.Prelude.{◌≡◌, ℕ, List, Option, true};
ghost use Rattle.der_tree.specs.AnyElement.{is_one};
ghost use Rattle.pkix_name.specs.declared.name.Name.{Name};
ghost use Rattle.rcgen_certificate.specs.Issuers.{IssuerView};
ghost use Rattle.rcgen_certificate.specs.ParamsView.{ParamsView};
ghost use Rattle.rcgen_certificate.specs.Signed.{FitsOnce, IsAssembled};
ghost use Rattle.rcgen_tbs.specs.Named.{IsCertificateMessageAs, IsCertificateOverAs};
ghost use Rattle.rcgen_tbs.specs.declared.subject.Subject.{Subject};

use rcgen_certificate::to_be_signed_once;
use rcgen_sign::SigningKey;

/// A law: for parameters, a subject, a name and a view of an issuer there is at most one message.
pub fn one_message_as()
    ensures { (params : ParamsView) (subject : Subject) (name : Option Name) (issuer : IssuerView) (m n : List ℕ)
        → IsCertificateMessageAs params subject name issuer m → IsCertificateMessageAs params subject name issuer n → m ≡ n }
{
    to_be_signed_once();
}

/// A law: where one signature alone of the issuer's key fits each message, the DER of the certificate
/// of a subject under a name is the same octets each time.
pub fn certificate_as_once<S: SigningKey>()
    ensures { (key : S) → FitsOnce (S.fits key) → (params : ParamsView) (subject : Subject) (name : Option Name) (issuer : IssuerView) (m n a b : List ℕ)
        → IsCertificateOverAs params subject name issuer (S.fits key) m a → IsCertificateOverAs params subject name issuer (S.fits key) n b → a ≡ b }
{
    to_be_signed_once();
}

/// A law: the message is one element, as `assemble` takes it, and what `assemble` makes of it, the
/// algorithm of the key that signs and a signature is the certificate over it with this signature.
pub fn assembled_as()
    ensures element { (params : ParamsView) (subject : Subject) (name : Option Name) (issuer : IssuerView) (m : List ℕ)
        → IsCertificateMessageAs params subject name issuer m → is_one m ≡ true }
    ensures certificate { (params : ParamsView) (subject : Subject) (name : Option Name) (issuer : IssuerView) (s message der : List ℕ)
        → IsCertificateMessageAs params subject name issuer message → IsAssembled message issuer.algorithm s der
        → IsCertificateOverAs params subject name issuer (λ m t. t ≡ s) message der }
{}
