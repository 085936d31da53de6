//! The texts of the parts of a certificate.
ghost use Rattle.std.specs.Prelude.{◌≡◌, ◌++◌, ℕ, List, decimal, OnOk};
ghost use Rattle.std.specs.List.{join_by};
ghost use Rattle.pkix_cert.specs.ViewsShown.{parts_shown};
ghost use Rattle.certify_core.specs.ListedParts.{extension_part_text};
ghost use Rattle.certify_core.specs.Listing.{hex, object_identifier_text, version_number, bit_string_text, algorithm_text, attribute_text, relative_distinguished_name_text, name_text, time_text, yes_or_no};

use asn1_core::{BitString, Integer, ObjectIdentifier, OctetString};
use der_tree::der;
use pkix_cert::{
    AlgorithmIdentifier, AttributeTypeAndValue, ExtensionView, Name, RelativeDistinguishedName,
    Time, Version,
};
use std::alloc::{AllocError, Global};

/// Has a text in a listing.
pub(crate) trait ShowText {
    ghost text: { Self → List ℕ };

    /// Appends the text to the lines. An error may leave the start of it there.
    fn push_onto(&self, alloc: Global, lines: &mut Vec<u8>) -> Result<(), AllocError>
        ensures { OnOk result (lines.new.items ≡ lines.old.items ++ text self.now) };
}

/// Pushes a number in decimal digits.
pub(crate) fn push_decimal(
    alloc: Global,
    lines: &mut Vec<u8>,
    number: u64,
) -> Result<(), AllocError>
    ensures { OnOk result (lines.new.items ≡ lines.old.items ++ decimal number) }
{
    lines.extend_from_slice(number.to_string(alloc)?.as_bytes())
}

/// Pushes bytes in hexadecimal digits, or a dash.
#[tactic(auto, unfolding(crate::specs::Listing::hex))]
pub(crate) fn push_hex(alloc: Global, lines: &mut Vec<u8>, bytes: &[u8]) -> Result<(), AllocError>
    ensures { OnOk result (lines.new.items ≡ lines.old.items ++ hex bytes.now) }
{
    match bytes {
        [] => lines.extend_from_slice(b"-"),
        [_, ..] => lines.extend_from_slice(hex::encode(alloc, bytes)?.as_bytes()),
    }
}

/// Pushes the texts with the separator between.
#[tactic(auto, using(crate::proofs::Joined::pushing))]
fn push_joined<T: ShowText>(
    alloc: Global,
    lines: &mut Vec<u8>,
    separator: &[u8],
    parts: &[T],
) -> Result<(), AllocError>
    ensures { OnOk result (lines.new.items ≡ lines.old.items ++ join_by T.text separator.now parts.now) }
{
    let [first, rest @ ..] = parts else {
        return Ok(());
    };
    first.push_onto(alloc, lines)?;
    for part in rest {
        lines.extend_from_slice(separator)?;
        part.push_onto(alloc, lines)?;
    }
    Ok(())
}

impl ShowText for u32 {
    ghost text = { decimal };

    fn push_onto(&self, alloc: Global, lines: &mut Vec<u8>) -> Result<(), AllocError> {
        push_decimal(alloc, lines, u64::from(*self))
    }
}

impl ShowText for u64 {
    ghost text = { decimal };

    fn push_onto(&self, alloc: Global, lines: &mut Vec<u8>) -> Result<(), AllocError> {
        push_decimal(alloc, lines, *self)
    }
}

impl ShowText for bool {
    ghost text = { yes_or_no };

    #[tactic(auto, unfolding(crate::specs::Listing::yes_or_no))]
    fn push_onto(&self, _alloc: Global, lines: &mut Vec<u8>) -> Result<(), AllocError> {
        let word = if *self { b"yes".as_slice() } else { b"no" };
        lines.extend_from_slice(word)
    }
}

impl ShowText for ObjectIdentifier {
    ghost text = { object_identifier_text };

    #[tactic(auto, unfolding(crate::specs::Listing::object_identifier_text))]
    fn push_onto(&self, alloc: Global, lines: &mut Vec<u8>) -> Result<(), AllocError> {
        push_joined(alloc, lines, b".", self.arcs())
    }
}

impl ShowText for Version {
    ghost text = { version_number };

    #[tactic(auto, unfolding(crate::specs::Listing::version_number))]
    fn push_onto(&self, alloc: Global, lines: &mut Vec<u8>) -> Result<(), AllocError> {
        push_decimal(alloc, lines, self.raw_value())
    }
}

impl ShowText for Integer {
    ghost text = { hex };

    fn push_onto(&self, alloc: Global, lines: &mut Vec<u8>) -> Result<(), AllocError> {
        push_hex(alloc, lines, self.as_bytes())
    }
}

impl ShowText for OctetString {
    ghost text = { hex };

    fn push_onto(&self, alloc: Global, lines: &mut Vec<u8>) -> Result<(), AllocError> {
        push_hex(alloc, lines, self.as_slice())
    }
}

impl ShowText for BitString {
    ghost text = { bit_string_text };

    #[tactic(auto, unfolding(crate::specs::Listing::bit_string_text))]
    fn push_onto(&self, alloc: Global, lines: &mut Vec<u8>) -> Result<(), AllocError> {
        push_decimal(alloc, lines, u64::from(self.unused()))?;
        lines.push(b' ')?;
        push_hex(alloc, lines, self.bytes())
    }
}

impl ShowText for AlgorithmIdentifier {
    ghost text = { algorithm_text };

    #[tactic(auto, unfolding(crate::specs::Listing::algorithm_text, crate::specs::Listing::parameters_text))]
    fn push_onto(&self, alloc: Global, lines: &mut Vec<u8>) -> Result<(), AllocError> {
        self.algorithm.push_onto(alloc, lines)?;
        if let Some(parameters) = &self.parameters {
            lines.push(b' ')?;
            push_hex(alloc, lines, parameters.as_bytes())?;
        }
        Ok(())
    }
}

impl ShowText for AttributeTypeAndValue {
    ghost text = { attribute_text };

    #[tactic(auto, unfolding(crate::specs::Listing::attribute_text))]
    fn push_onto(&self, alloc: Global, lines: &mut Vec<u8>) -> Result<(), AllocError> {
        self.attr_type.push_onto(alloc, lines)?;
        lines.push(b'=')?;
        push_hex(alloc, lines, self.value.as_bytes())
    }
}

impl ShowText for RelativeDistinguishedName {
    ghost text = { relative_distinguished_name_text };

    #[tactic(auto, unfolding(crate::specs::Listing::relative_distinguished_name_text))]
    fn push_onto(&self, alloc: Global, lines: &mut Vec<u8>) -> Result<(), AllocError> {
        push_joined(alloc, lines, b"+", self.0.as_slice())
    }
}

impl ShowText for Name {
    ghost text = { name_text };

    #[tactic(auto, unfolding(crate::specs::Listing::name_text))]
    fn push_onto(&self, alloc: Global, lines: &mut Vec<u8>) -> Result<(), AllocError> {
        let Name::RdnSequence(parts) = self;
        match parts.as_slice() {
            [] => lines.extend_from_slice(b"-"),
            parts => push_joined(alloc, lines, b", ", parts),
        }
    }
}

impl ShowText for Time {
    ghost text = { time_text };

    #[tactic(auto, unfolding(crate::specs::Listing::time_text))]
    fn push_onto(&self, alloc: Global, lines: &mut Vec<u8>) -> Result<(), AllocError> {
        let (form, contents) = match self {
            Time::Utc(time) => (b"utc ".as_slice(), time.to_contents(alloc)),
            Time::General(time) => (b"general ".as_slice(), time.to_contents(alloc)),
        };
        lines.extend_from_slice(form)?;
        match contents {
            Ok(Some(contents)) => lines.extend_from_slice(&contents),
            Ok(None) => Ok(()),
            Err(_) => Err(AllocError),
        }
    }
}

impl<'a> ShowText for ExtensionView<'a> {
    ghost text = { λ e. extension_part_text (parts_shown e) };

    #[tactic(auto, unfolding(crate::specs::ListedParts::extension_part_text, crate::specs::ListedParts::identifier_text, crate::specs::Listing::criticality))]
    fn push_onto(&self, alloc: Global, lines: &mut Vec<u8>) -> Result<(), AllocError> {
        if let Some(id) = der::value_of::<ObjectIdentifier>(alloc, self.id)? {
            id.push_onto(alloc, lines)?;
        }
        let mark = if self.critical {
            b" critical ".as_slice()
        } else {
            b" - "
        };
        lines.extend_from_slice(mark)?;
        push_hex(alloc, lines, self.contents)
    }
}
