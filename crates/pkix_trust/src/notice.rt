ghost use Rattle.std.specs.Prelude.{None, refl};
ghost use Rattle.std.proofs.Common.{rules};
ghost use Rattle.pkix_trust.specs.Notices.{user_notice, user_notice_fields, notice_reference, notice_reference_fields, display_text};

use asn1_core::{BmpString, Ia5String, Integer, Tag, TryClone, Utf8String, VisibleString};
use der_tree::{
    DecodeError, DerType, EncodeError, Fields, Form, Sequence, SequenceOf, Tree, Trees, Window,
    optional, put, put_optional, required,
};
use std::alloc::Global;

/// What is shown to the user of a certificate (RFC 5280, 4.2.1.4).
#[derive(Clone, Debug, PartialEq, Eq, PartialOrd, Ord, Hash)]
pub struct UserNotice {
    /// Numbered texts, which the software that shows the notice has.
    pub notice_ref: Option<NoticeReference>,
    /// A text that is shown as it is written.
    pub explicit_text: Option<DisplayText>,
}

impl Drop for UserNotice {
    fn drop(self) {
        let UserNotice {
            notice_ref: _,
            explicit_text: _,
        } = self;
    }
}

impl TryClone for UserNotice {
    ghost copies_are_equal = { Prim.search rules };
}

impl Form for UserNotice {
    ghost codec = { user_notice };
}

#[tactic(auto, unfolding(crate::specs::Notices::user_notice_fields))]
impl Sequence for UserNotice {
    ghost layout = { user_notice_fields };

    ghost is_sequence = { refl };

    fn put_fields(&self, alloc: Global, fields: &mut Trees) -> Result<(), EncodeError> {
        put_optional(alloc, fields, self.notice_ref.as_ref())?;
        put_optional(alloc, fields, self.explicit_text.as_ref())?;
        Ok(())
    }

    fn read_fields(alloc: Global, fields: &mut Fields<'_>) -> Result<Self, DecodeError> {
        Ok(UserNotice {
            notice_ref: optional(alloc, fields)?,
            explicit_text: optional(alloc, fields)?,
        })
    }
}

/// Numbered texts of an organization (RFC 5280, 4.2.1.4).
#[derive(Clone, Debug, PartialEq, Eq, PartialOrd, Ord, Hash)]
pub struct NoticeReference {
    /// Whose texts they are.
    pub organisation: DisplayText,
    /// Which of them are meant.
    pub notice_numbers: SequenceOf<Integer>,
}

impl Drop for NoticeReference {
    fn drop(self) {
        let NoticeReference {
            organisation: _,
            notice_numbers: _,
        } = self;
    }
}

impl TryClone for NoticeReference {
    ghost copies_are_equal = { Prim.search rules };
}

impl Form for NoticeReference {
    ghost codec = { notice_reference };
}

#[tactic(auto, unfolding(crate::specs::Notices::notice_reference_fields))]
impl Sequence for NoticeReference {
    ghost layout = { notice_reference_fields };

    ghost is_sequence = { refl };

    fn put_fields(&self, alloc: Global, fields: &mut Trees) -> Result<(), EncodeError> {
        put(alloc, fields, &self.organisation)?;
        put(alloc, fields, &self.notice_numbers)?;
        Ok(())
    }

    fn read_fields(alloc: Global, fields: &mut Fields<'_>) -> Result<Self, DecodeError> {
        Ok(NoticeReference {
            organisation: required(alloc, fields)?,
            notice_numbers: required(alloc, fields)?,
        })
    }
}

/// A text that is shown (RFC 5280, 4.2.1.4).
#[derive(Clone, Debug, PartialEq, Eq, PartialOrd, Ord, Hash)]
pub enum DisplayText {
    /// In characters of IA5.
    Ia5String(Ia5String),
    /// In printing characters of ASCII and space.
    VisibleString(VisibleString),
    /// In characters of the basic multilingual plane.
    BmpString(BmpString),
    /// In characters of Unicode, as UTF-8.
    Utf8String(Utf8String),
}

impl Drop for DisplayText {
    fn drop(self) {
        match self {
            DisplayText::Ia5String(_) => (),
            DisplayText::VisibleString(_) => (),
            DisplayText::BmpString(_) => (),
            DisplayText::Utf8String(_) => (),
        }
    }
}

impl TryClone for DisplayText {
    ghost copies_are_equal = { Prim.search rules };
}

impl Form for DisplayText {
    ghost codec = { display_text };
}

impl DerType for DisplayText {
    ghost TAG = { None };

    ghost tag_is = { refl };

    const TAG: Option<Tag> = None;

    fn starts(tag: Tag) -> bool {
        Ia5String::starts(tag)
            || VisibleString::starts(tag)
            || BmpString::starts(tag)
            || Utf8String::starts(tag)
    }

    fn to_tree(&self, alloc: Global) -> Result<Tree, EncodeError> {
        match self {
            DisplayText::Ia5String(value) => value.to_tree(alloc),
            DisplayText::VisibleString(value) => value.to_tree(alloc),
            DisplayText::BmpString(value) => value.to_tree(alloc),
            DisplayText::Utf8String(value) => value.to_tree(alloc),
        }
    }

    fn from_tree(alloc: Global, window: Window<'_>) -> Result<Self, DecodeError> {
        let tag = window.tag();
        if Ia5String::starts(tag) {
            Ok(DisplayText::Ia5String(Ia5String::from_tree(alloc, window)?))
        } else if VisibleString::starts(tag) {
            Ok(DisplayText::VisibleString(VisibleString::from_tree(alloc, window)?))
        } else if BmpString::starts(tag) {
            Ok(DisplayText::BmpString(BmpString::from_tree(alloc, window)?))
        } else {
            Ok(DisplayText::Utf8String(Utf8String::from_tree(alloc, window)?))
        }
    }
}
