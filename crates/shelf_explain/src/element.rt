//! Elements of types without a grammar here.
ghost use Rattle.std.specs.Prelude.{◌≡◌, ◌++◌, OnOk};
ghost use Rattle.der_tree.specs.Form.{value_of};
ghost use Rattle.der_tree.specs.PrimitiveTypes.{integer};
ghost use Rattle.shelf_explain.specs.Elements.{element_at, feature_at, feature_text, number_or_value};
ghost use Rattle.shelf_explain.specs.PartTexts.{spread};
ghost use Rattle.shelf_explain.specs.Parts.{in_front};

use crate::known::push_identifier;
use crate::name::push_attribute_value;
use crate::part::Part;
use crate::part_text::{ShowPart, push_spread, push_unreadable_at};
use crate::show::ShowText;
use asn1_core::{Integer, ObjectIdentifier};
use der_tree::der;
use std::alloc::{AllocError, Global};

/// Pushes a feature by the number of its TLS extension.
#[tactic(auto, unfolding(crate::specs::Elements::feature_text))]
fn push_feature(alloc: Global, lines: &mut Vec<u8>, number: &Integer) -> Result<(), AllocError>
    ensures { OnOk result (lines.new.items ≡ lines.old.items ++ feature_text number.now) }
{
    if number.as_bytes() == [5].as_slice() {
        return lines.extend_from_slice(b"status request (must-staple)");
    }
    if number.as_bytes() == [17].as_slice() {
        return lines.extend_from_slice(b"status request, version 2");
    }
    number.push_onto(alloc, lines)
}

/// A feature of TLS (RFC 7633, 4.1).
struct FeaturePart;

impl ShowPart for FeaturePart {
    ghost part_text = { feature_at };

    #[tactic(auto, unfolding(crate::specs::Elements::feature_at, crate::specs::Elements::feature_or_unreadable))]
    fn push_part(alloc: Global, lines: &mut Vec<u8>, part: &Part<'_>) -> Result<(), AllocError> {
        let Some(number) = der::value_of::<Integer>(alloc, part.octets())? else {
            return push_unreadable_at(alloc, lines, part);
        };
        push_feature(alloc, lines, &number)?;
        Ok(())
    }
}

#[tactic(auto, unfolding(crate::specs::Elements::number_or_value))]
fn push_number_or_value(alloc: Global, lines: &mut Vec<u8>, octets: &[u8]) -> Result<(), AllocError>
    ensures { OnOk result (lines.new.items ≡ lines.old.items ++ number_or_value (value_of integer octets.now) octets.now) }
{
    let Some(number) = der::value_of::<Integer>(alloc, octets)? else {
        return push_attribute_value(alloc, lines, octets);
    };
    number.push_onto(alloc, lines)?;
    Ok(())
}

/// An element of any type.
struct ElementPart;

impl ShowPart for ElementPart {
    ghost part_text = { element_at };

    #[tactic(auto, unfolding(crate::specs::Elements::element_at, crate::specs::Elements::identifier_or_other))]
    fn push_part(alloc: Global, lines: &mut Vec<u8>, part: &Part<'_>) -> Result<(), AllocError> {
        let Some(id) = der::value_of::<ObjectIdentifier>(alloc, part.octets())? else {
            return push_number_or_value(alloc, lines, part.octets());
        };
        push_identifier(alloc, lines, id.arcs())?;
        Ok(())
    }
}

/// Pushes what a server has to offer.
pub(crate) fn push_features(
    alloc: Global,
    lines: &mut Vec<u8>,
    octets: &[u8],
) -> Result<(), AllocError>
    ensures { OnOk result (lines.new.items ≡ lines.old.items ++ spread feature_at (in_front octets.now)) }
{
    push_spread::<FeaturePart>(alloc, lines, &Part::in_front(octets))
}

/// Pushes the elements within an element.
pub(crate) fn push_elements(
    alloc: Global,
    lines: &mut Vec<u8>,
    octets: &[u8],
) -> Result<(), AllocError>
    ensures { OnOk result (lines.new.items ≡ lines.old.items ++ spread element_at (in_front octets.now)) }
{
    push_spread::<ElementPart>(alloc, lines, &Part::in_front(octets))
}
