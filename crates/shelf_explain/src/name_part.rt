//! Names that can't be read as a whole, attribute by attribute.
ghost use Rattle.std.specs.Prelude.{◌≡◌, ◌++◌, OnOk};
ghost use Rattle.shelf_explain.specs.NameParts.{attribute_at, name_at, relative_name_at};

use crate::line::{below_line, next_line};
use crate::part::Part;
use crate::part_text::{ShowPart, push_read_at, push_read_or_parts};
use pkix_name::{AttributeTypeAndValue, Name, RelativeDistinguishedName};
use std::alloc::{AllocError, Global};

/// An attribute of a name.
pub(crate) struct AttributePart;

impl ShowPart for AttributePart {
    ghost part_text = { attribute_at };

    #[tactic(auto, unfolding(crate::specs::NameParts::attribute_at))]
    fn push_part(alloc: Global, lines: &mut Vec<u8>, part: &Part<'_>) -> Result<(), AllocError> {
        push_read_at::<AttributeTypeAndValue>(alloc, lines, part)
    }
}

/// A relative distinguished name.
pub(crate) struct RelativeNamePart;

impl ShowPart for RelativeNamePart {
    ghost part_text = { relative_name_at };

    #[tactic(auto, unfolding(crate::specs::NameParts::relative_name_at))]
    fn push_part(alloc: Global, lines: &mut Vec<u8>, part: &Part<'_>) -> Result<(), AllocError> {
        push_read_or_parts::<RelativeDistinguishedName, AttributePart>(
            alloc,
            lines,
            below_line(),
            part,
        )
    }
}

/// Pushes a name, in the order of its parts where it can't be read as a whole.
#[tactic(auto, unfolding(crate::specs::NameParts::name_at))]
pub(crate) fn push_name_at(
    alloc: Global,
    lines: &mut Vec<u8>,
    part: &Part<'_>,
) -> Result<(), AllocError>
    ensures { OnOk result (lines.new.items ≡ lines.old.items ++ name_at part.now) }
{
    push_read_or_parts::<Name, RelativeNamePart>(alloc, lines, next_line(), part)
}
