//! Laws: of a list, with a base or without one, there is one message, and what is assembled over that is issued.
ghost use Rattle.std.specs.Prelude.{◌≡◌, ℕ, List, Option, true};
ghost use Rattle.der_tree.specs.AnyElement.{is_one};
ghost use Rattle.rcgen_certificate.specs.Issuers.{IssuerView};
ghost use Rattle.rcgen_certificate.specs.Signed.{FitsOnce, IsAssembled};
ghost use Rattle.rcgen_issue.specs.CrlView.{CrlView};
ghost use Rattle.rcgen_tbs.specs.Deltas.{IsListMessage, IsListOver};

use rcgen_issue::{list_issued_once, list_to_be_signed_once};
use rcgen_sign::SigningKey;

/// A law: for parameters, a base and a view of an issuer there is at most one message.
pub fn one_list_message()
    ensures { (base : Option (List ℕ)) (params : CrlView) (issuer : IssuerView) (m n : List ℕ)
        → IsListMessage base params issuer m → IsListMessage base params issuer n → m ≡ n }
{
    list_to_be_signed_once();
}

/// A law: where one signature alone of the issuer's key fits each message, the DER of a list is the same
/// octets each time.
pub fn list_over_once<S: SigningKey>()
    ensures { (key : S) → FitsOnce (S.fits key) → (base : Option (List ℕ)) (params : CrlView) (issuer : IssuerView) (m n a b : List ℕ)
        → IsListOver base params issuer (S.fits key) m a → IsListOver base params issuer (S.fits key) n b → a ≡ b }
{
    list_to_be_signed_once();
    list_issued_once::<S>();
}

/// A law: the message is one element, as `assemble` takes it, and what `assemble` makes of it, the
/// algorithm of the key that signs and a signature is the list over it with this signature.
pub fn assembled_list()
    ensures element { (base : Option (List ℕ)) (params : CrlView) (issuer : IssuerView) (m : List ℕ)
        → IsListMessage base params issuer m → is_one m ≡ true }
    ensures list { (base : Option (List ℕ)) (params : CrlView) (issuer : IssuerView) (s message der : List ℕ)
        → IsListMessage base params issuer message → IsAssembled message issuer.algorithm s der
        → IsListOver base params issuer (λ m t. t ≡ s) message der }
{
    list_to_be_signed_once();
}
