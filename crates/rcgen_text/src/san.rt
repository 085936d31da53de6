ghost use Rattle.std.specs.Prelude.{◌≡◌, true, IfOk};
ghost use Rattle.rcgen_text.specs.AlternativeNames.{other_text, alternative_name};
ghost use Rattle.rcgen_text.specs.contracts.san.OtherNameValuePartialEq.TheImpl.{ghosts as other_equality};
ghost use Rattle.rcgen_text.specs.contracts.san.SanTypePartialEq.TheImpl.{ghosts as equality};
ghost use Rattle.rcgen_text.specs.declared.san.OtherNameValue.TheVariants as other;

use crate::ip::IpAddr;
use crate::string::Ia5String;
use asn1_core::OutOfMemory;
use std::alloc::{AllocError, Global};

/// An alternative name (RFC 5280, 4.2.1.6).
#[derive(Debug, PartialEq, Eq, Hash)]
pub enum SanType {
    /// The address of an electronic mailbox.
    Rfc822Name(Ia5String),
    /// A name of the domain name system.
    DnsName(Ia5String),
    /// A uniform resource identifier.
    URI(Ia5String),
    /// An address of the internet protocol.
    IpAddress(IpAddr),
    /// A value of a type that is given by its arcs.
    OtherName((Vec<u64>, OtherNameValue)),
}

impl Drop for SanType {
    fn drop(self) {
        match self {
            SanType::Rfc822Name(_) => (),
            SanType::DnsName(_) => (),
            SanType::URI(_) => (),
            SanType::IpAddress(_) => (),
            SanType::OtherName(_) => (),
        }
    }
}

// no `TryClone`: a copied `Vec` or `String` may have another capacity
impl Clone for SanType {
    ghost is_clone = { λ x y. alternative_name y ≡ alternative_name x };

    fn clone(&self) -> Result<SanType, AllocError> {
        match self {
            SanType::Rfc822Name(text) => Ok(SanType::Rfc822Name(text.clone()?)),
            SanType::DnsName(text) => Ok(SanType::DnsName(text.clone()?)),
            SanType::URI(text) => Ok(SanType::URI(text.clone()?)),
            SanType::IpAddress(address) => Ok(SanType::IpAddress(*address)),
            SanType::OtherName((arcs, value)) => {
                let arcs = Vec::from_slice(*arcs.allocator(), arcs.as_slice())?;
                Ok(SanType::OtherName((arcs, value.clone()?)))
            }
        }
    }
}

impl SanType {
    /// The same name.
    #[tactic(auto, using(crate::proofs::Equality::names_equal))]
    pub fn try_clone(&self, _alloc: Global) -> Result<SanType, OutOfMemory>
        ensures name { IfOk result (λ copy. alternative_name copy ≡ alternative_name self.now) }
        ensures equal { IfOk result (λ copy. equality.eq copy self.now ≡ true) }
    {
        Ok(self.clone()?)
    }
}

/// The value of an other name (RFC 5280, 4.2.1.6).
#[derive(Clone, Debug, PartialEq, Eq, Hash)]
pub enum OtherNameValue {
    /// A text that is written as UTF8String.
    Utf8String(String),
}

impl Drop for OtherNameValue {
    fn drop(self) {
        match self {
            OtherNameValue::Utf8String(_) => (),
        }
    }
}

// no `TryClone`: a copied `String` may have another capacity
impl OtherNameValue {
    /// A value with the same text.
    #[tactic(auto, using(crate::proofs::Equality::others_equal))]
    pub fn try_clone(&self, _alloc: Global) -> Result<OtherNameValue, OutOfMemory>
        ensures text { IfOk result (λ copy. other_text copy ≡ other_text self.now) }
        ensures equal { IfOk result (λ copy. other_equality.eq copy self.now ≡ true) }
    {
        Ok(self.clone()?)
    }
}

impl From<String> for OtherNameValue {
    ghost from_gives = { λ text v. v ≡ other.Utf8String text };

    fn from(text: String) -> OtherNameValue {
        OtherNameValue::Utf8String(text)
    }
}
