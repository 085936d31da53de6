ghost use Rattle.std.specs.Prelude.{◌≡◌, None, refl};
ghost use Rattle.std.proofs.Common.{rules};
ghost use Rattle.pkix_name.specs.DirectoryStrings.{directory_string};

use asn1_core::{
    BmpString, PrintableString, Tag, TeletexString, TryClone, UniversalString, Utf8String,
};
use der_tree::{DecodeError, DerType, EncodeError, Form, Tree, Window, text_of, text_tree};
use std::alloc::Global;

/// A text of one of five types, of at least one character (RFC 5280, 4.1.2.4). An empty text is refused
/// when it is encoded, with `SizeOutOfRange`, and isn't read.
#[derive(Clone, Debug, Drop, PartialEq, Eq, PartialOrd, Ord, Hash)]
pub enum DirectoryString {
    Teletex(TeletexString),
    Printable(PrintableString),
    Universal(UniversalString),
    Utf8(Utf8String),
    Bmp(BmpString),
}

impl TryClone for DirectoryString {
    ghost copies_are_equal = { Prim.search rules };
}

impl Form for DirectoryString {
    ghost codec = { directory_string };
}

impl DerType for DirectoryString {
    ghost TAG = { None };

    ghost tag_is = { refl };

    const TAG: Option<Tag> = None;

    fn starts(tag: Tag) -> bool {
        TeletexString::starts(tag)
            || PrintableString::starts(tag)
            || UniversalString::starts(tag)
            || Utf8String::starts(tag)
            || BmpString::starts(tag)
    }

    fn to_tree(&self, alloc: Global) -> Result<Tree, EncodeError> {
        match self {
            DirectoryString::Teletex(text) => text_tree(alloc, text, 1, None),
            DirectoryString::Printable(text) => text_tree(alloc, text, 1, None),
            DirectoryString::Universal(text) => text_tree(alloc, text, 1, None),
            DirectoryString::Utf8(text) => text_tree(alloc, text, 1, None),
            DirectoryString::Bmp(text) => text_tree(alloc, text, 1, None),
        }
    }

    fn from_tree(alloc: Global, window: Window<'_>) -> Result<Self, DecodeError> {
        let tag = window.tag();
        if TeletexString::starts(tag) {
            Ok(DirectoryString::Teletex(text_of(alloc, window, 1, None)?))
        } else if PrintableString::starts(tag) {
            Ok(DirectoryString::Printable(text_of(alloc, window, 1, None)?))
        } else if UniversalString::starts(tag) {
            Ok(DirectoryString::Universal(text_of(alloc, window, 1, None)?))
        } else if Utf8String::starts(tag) {
            Ok(DirectoryString::Utf8(text_of(alloc, window, 1, None)?))
        } else {
            Ok(DirectoryString::Bmp(text_of(alloc, window, 1, None)?))
        }
    }
}
