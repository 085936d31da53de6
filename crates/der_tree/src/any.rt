ghost use Rattle.std.specs.Prelude.{◌≡◌, None, refl};
ghost use Rattle.std.proofs.Common.{rules};
ghost use Rattle.der_tree.specs.Grammar.{any};

use crate::der_type::{DerType, Form};
use crate::encode::octets_of_element;
use crate::error::{DecodeError, EncodeError};
use crate::tree::{Bytes, Tree};
use crate::window::{Window, element_at};
use asn1_core::{OctetString, Tag, TryClone};
use std::alloc::Global;
use std::marker::Model;

/// One element of any type, as its bytes (X.690, 8.1.1). Bytes that aren't a single element are
/// refused when they are encoded, with `NotOneElement`. What is within the element isn't looked
/// at: `30 02 05 05`, whose contents are cut short, is one.
#[derive(Clone, Debug, PartialEq, Eq, PartialOrd, Ord, Hash)]
pub struct Any {
    bytes: OctetString,
}

impl Model for Any {
    ghost use Rattle.std.specs.Prelude.{ℕ, List};

    ghost Value = { List ℕ };

    ghost view = { λ s. s.bytes };

    ghost inverse = { λ b. record { bytes = b } };
}

impl Drop for Any {
    fn drop(self) {
        let Any { bytes: _ } = self;
    }
}

impl Any {
    /// Whatever the bytes are.
    pub fn new(bytes: Vec<u8>) -> Any
        ensures { result ≡ bytes.items }
    {
        Any {
            bytes: OctetString::new(bytes),
        }
    }

    /// The tag, the length and the contents.
    pub fn as_bytes(&self) -> &[u8]
        ensures { result.now ≡ self.now }
    {
        self.bytes.as_slice()
    }
}

impl TryClone for Any {
    ghost copies_are_equal = { Prim.search rules };
}

impl Form for Any {
    ghost codec = { any };
}

impl DerType for Any {
    ghost TAG = { None };

    ghost tag_is = { refl };

    const TAG: Option<Tag> = None;

    fn starts(_tag: Tag) -> bool {
        true
    }

    fn to_tree(&self, alloc: Global) -> Result<Tree, EncodeError> {
        match element_at(self.as_bytes()) {
            Ok((_, [])) => {
                let bytes = Bytes::from_vec(Vec::from_slice(alloc, self.as_bytes())?);
                Ok(Tree::Raw { bytes })
            }
            _ => Err(EncodeError::NotOneElement),
        }
    }

    fn from_tree(alloc: Global, window: Window<'_>) -> Result<Self, DecodeError> {
        let bytes = octets_of_element(
            alloc,
            window.tag(),
            window.is_constructed(),
            window.content(),
        )?;
        Ok(Any::new(bytes))
    }
}
