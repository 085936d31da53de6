ghost use Rattle.std.specs.Prelude.{◌≡◌, true, IfOk};
ghost use Rattle.rcgen_text.specs.DnValues.{text_of};
ghost use Rattle.rcgen_text.specs.contracts.dn_value.DnValuePartialEq.TheImpl.{ghosts as equality};
ghost use Rattle.rcgen_text.specs.declared.dn_value.DnValue.TheVariants as values;

use crate::string::{BmpString, Ia5String, PrintableString, TeletexString, UniversalString};
use asn1_core::OutOfMemory;
use std::alloc::Global;

/// The value of an attribute of a name (RFC 5280, 4.1.2.4).
#[derive(Clone, Debug, PartialEq, Eq, Hash)]
pub enum DnValue {
    /// A text that is written as BMPString.
    BmpString(BmpString),
    /// A text that is written as IA5String.
    Ia5String(Ia5String),
    /// A text that is written as PrintableString.
    PrintableString(PrintableString),
    /// A text that is written as TeletexString.
    TeletexString(TeletexString),
    /// A text that is written as UniversalString.
    UniversalString(UniversalString),
    /// A text that is written as UTF8String.
    Utf8String(String),
}

impl Drop for DnValue {
    fn drop(self) {
        match self {
            DnValue::BmpString(_) => (),
            DnValue::Ia5String(_) => (),
            DnValue::PrintableString(_) => (),
            DnValue::TeletexString(_) => (),
            DnValue::UniversalString(_) => (),
            DnValue::Utf8String(_) => (),
        }
    }
}

// no `TryClone`: a copied `String` may have another capacity
impl DnValue {
    /// A value with the same text.
    #[tactic(auto, using(crate::proofs::Equality::values_equal))]
    pub fn try_clone(&self, _alloc: Global) -> Result<DnValue, OutOfMemory>
        ensures text { IfOk result (λ copy. text_of copy ≡ text_of self.now) }
        ensures equal { IfOk result (λ copy. equality.eq copy self.now ≡ true) }
    {
        Ok(self.clone()?)
    }
}

impl From<String> for DnValue {
    ghost from_gives = { λ text v. v ≡ values.Utf8String text };

    fn from(text: String) -> DnValue {
        DnValue::Utf8String(text)
    }
}
