//! Notices to the user of a certificate (RFC 5280, 4.2.1.4).
ghost use Rattle.std.specs.Prelude.{◌≡◌, ◌++◌, OnOk};
ghost use Rattle.std.specs.Option.{option_copied};
ghost use Rattle.shelf_explain.specs.Lines.{labelled};
ghost use Rattle.shelf_explain.specs.Notices.{display_text, notice_text, reference_text, some_reference, some_text};

use crate::line::push_labelled;
use crate::show::{ShowText, push_joined};
use crate::value::push_plain_text;
use pkix_name::{Characters, utf8_characters};
use pkix_trust::{DisplayText, NoticeReference, UserNotice};
use std::alloc::{AllocError, Global};

impl ShowText for DisplayText {
    ghost text = { display_text };

    #[tactic(auto, unfolding(crate::specs::Notices::display_text))]
    fn push_onto(&self, alloc: Global, lines: &mut Vec<u8>) -> Result<(), AllocError> {
        match self {
            DisplayText::Ia5String(text) => {
                push_plain_text(alloc, lines, Characters::Octets(text.as_bytes()))
            }
            DisplayText::VisibleString(text) => {
                push_plain_text(alloc, lines, Characters::Octets(text.as_bytes()))
            }
            DisplayText::BmpString(text) => {
                push_plain_text(alloc, lines, Characters::Pairs(text.as_bytes()))
            }
            DisplayText::Utf8String(text) => {
                push_plain_text(alloc, lines, utf8_characters(text.as_bytes()))
            }
        }
    }
}

impl ShowText for NoticeReference {
    ghost text = { reference_text };

    #[tactic(auto, unfolding(crate::specs::Notices::reference_text))]
    fn push_onto(&self, alloc: Global, lines: &mut Vec<u8>) -> Result<(), AllocError> {
        self.organisation.push_onto(alloc, lines)?;
        lines.extend_from_slice(b" number ")?;
        push_joined(alloc, lines, b", ", self.notice_numbers.as_slice())?;
        Ok(())
    }
}

#[tactic(auto, unfolding(crate::specs::Notices::some_reference))]
fn push_reference(
    alloc: Global,
    lines: &mut Vec<u8>,
    reference: Option<&NoticeReference>,
) -> Result<(), AllocError>
    ensures { OnOk result (lines.new.items ≡ lines.old.items ++ some_reference (option_copied reference.entry)) }
{
    match reference {
        None => Ok(()),
        Some(reference) => push_labelled(alloc, lines, b" of ", reference),
    }
}

#[tactic(auto, unfolding(crate::specs::Notices::some_text))]
fn push_text(
    alloc: Global,
    lines: &mut Vec<u8>,
    text: Option<&DisplayText>,
) -> Result<(), AllocError>
    ensures { OnOk result (lines.new.items ≡ lines.old.items ++ some_text (option_copied text.entry)) }
{
    match text {
        None => Ok(()),
        Some(text) => push_labelled(alloc, lines, b": ", text),
    }
}

impl ShowText for UserNotice {
    ghost text = { notice_text };

    #[tactic(auto, unfolding(crate::specs::Notices::notice_text))]
    fn push_onto(&self, alloc: Global, lines: &mut Vec<u8>) -> Result<(), AllocError> {
        push_reference(alloc, lines, self.notice_ref.as_ref())?;
        push_text(alloc, lines, self.explicit_text.as_ref())
    }
}
