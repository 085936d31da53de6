ghost use Rattle.std.specs.Prelude.{◌≡◌, Some, refl};
ghost use Rattle.der_tree.specs.Answers.{Encodes, Puts};
ghost use Rattle.der_tree.specs.Codec.{Struct};
ghost use Rattle.der_tree.specs.Grammar.{sequence};
ghost use Rattle.der_tree.specs.Sequence.{fields_read, node_read_of, node_tree_of};
ghost use Rattle.der_tree.specs.Tags.{universal};
ghost use Rattle.der_tree.specs.Windows.{Decodes, Reads, shown};
ghost use Rattle.der_tree.specs.laws.Grammar.{tag_as};

use crate::der_type::{DerType, Form, finish, opened};
use crate::error::{DecodeError, EncodeError};
use crate::fields::Fields;
use crate::tree::{Tree, Trees};
use crate::window::Window;
use asn1_core::Tag;
use std::alloc::Global;

/// A SEQUENCE of fields, each in its place (X.690, 8.9). Such a type is a `DerType`.
pub trait Sequence: Form + Drop {
    /// The fields, both ways, with their laws.
    ghost layout: { Struct Self };

    /// Puts the fields' trees after those before them. An error but for memory is the first fault
    /// in field order; after it some of the trees may be there.
    fn put_fields(&self, alloc: Global, fields: &mut Trees) -> Result<(), EncodeError>
        ensures { Puts result fields.old fields.new (layout.fields.put self.now) };

    /// Takes the value's fields from those that are left. `NotInGrammar` exactly where they don't
    /// begin with a value's. After an error some of the fields may be taken.
    fn read_fields(alloc: Global, fields: &mut Fields<'_>) -> Result<Self, DecodeError>
        ensures { Reads result fields.new (fields_read layout fields.old) };

    ghost is_sequence: { Self.codec ≡ sequence (universal 16) layout };
}

/// The SEQUENCE around the fields.
fn to_node<T: Sequence>(alloc: Global, value: &T) -> Result<Tree, EncodeError>
    ensures { Encodes result (node_tree_of (universal 16) T.layout.fields value.now) }
{
    let mut children = Trees::new(alloc);
    value.put_fields(alloc, &mut children)?;
    Ok(Tree::Node {
        tag: Tag::SEQUENCE,
        children,
    })
}

/// The fields of a SEQUENCE.
#[tactic(auto, using(crate::specs::laws::Sequence::read_then_end))]
fn from_node<T: Sequence>(alloc: Global, window: Window<'_>) -> Result<T, DecodeError>
    ensures { Decodes result (node_read_of (universal 16) T.layout.fields (shown window.entry)) }
{
    let mut fields = opened(window, Tag::SEQUENCE)?;
    let value = T::read_fields(alloc, &mut fields)?;
    finish(&fields, value)
}

impl<T: Sequence> DerType for T {
    ghost TAG = { Some (universal 16) };

    ghost tag_is = { tag_as T.codec T.layout T.is_sequence };

    const TAG: Option<Tag> = Some(Tag::SEQUENCE);

    fn starts(tag: Tag) -> bool {
        tag == Tag::SEQUENCE
    }

    fn to_tree(&self, alloc: Global) -> Result<Tree, EncodeError> {
        to_node(alloc, self)
    }

    fn from_tree(alloc: Global, window: Window<'_>) -> Result<Self, DecodeError> {
        from_node(alloc, window)
    }
}
