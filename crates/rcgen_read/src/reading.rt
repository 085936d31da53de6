//! What the bytes of a part of the input are.
ghost use Rattle.std.specs.Prelude.{◌≡◌, ◌↔◌, ◌++◌, ℕ, List, Some};
ghost use Rattle.der_tree.specs.Form.{IsDerOf};
ghost use Rattle.rcgen_read.specs.ReceivedRequests.{front_value};
ghost use Rattle.rcgen_read.specs.Reading.{ReadsAs, not_utf8, unless_cause};

use der_tree::DerType;
use rcgen_text::Error;

/// A law: the value at the front of some bytes is the one whose form they begin with.
pub fn fronts_are_forms<T: DerType>()
    ensures { (bytes : List ℕ) (v : T)
        → (front_value T.codec bytes ≡ Some v) ↔ ((b rest : List ℕ) × IsDerOf T.codec v b × (bytes ≡ b ++ rest)) }
{}

/// The octets as a text in UTF-8. `CouldNotParseCertificate` exactly where they are none.
#[tactic(auto, using(crate::proofs::Utf8Texts::text_read, crate::proofs::Utf8Texts::text_refused))]
pub(crate) fn utf8_text(octets: &[u8]) -> Result<&str, Error>
    ensures { ReadsAs (λ text. text.now) (unless_cause (not_utf8 octets.now) octets.now) result }
{
    match str::from_utf8(octets) {
        Ok(text) => Ok(text),
        Err(_) => Err(Error::CouldNotParseCertificate),
    }
}
