ghost use Rattle.std.specs.Prelude.{Some, refl};
ghost use Rattle.std.proofs.Common.{rules};
ghost use Rattle.der_tree.specs.InstanceOf.{instance_of};
ghost use Rattle.der_tree.specs.Tags.{universal};

use crate::der_type::{
    DerType, Form, finish, opened, put, put_explicit, required, required_explicit,
};
use crate::error::{DecodeError, EncodeError};
use crate::tree::{Tree, Trees};
use crate::window::Window;
use asn1_core::{ObjectIdentifier, Tag, TryClone};
use std::alloc::Global;

/// A value and the identifier of its type (X.681, annex C; RFC 5280, 4.2.1.6): a SEQUENCE of the
/// identifier and the value under the explicit tag 0. The tag is that of SEQUENCE, and not the 8 of
/// INSTANCE OF.
#[derive(Clone, Debug, Drop, PartialEq, Eq, PartialOrd, Ord, Hash)]
pub struct InstanceOf<T> {
    pub type_id: ObjectIdentifier,
    pub value: T,
}

impl<T: TryClone> TryClone for InstanceOf<T> {
    ghost copies_are_equal = { Prim.search (T.copies_are_equal, rules) };
}

impl<T: Form> Form for InstanceOf<T> {
    ghost codec = { instance_of T.codec };
}

impl<T: DerType> DerType for InstanceOf<T> {
    ghost TAG = { Some (universal 16) };

    ghost tag_is = { refl };

    const TAG: Option<Tag> = Some(Tag::SEQUENCE);

    fn starts(tag: Tag) -> bool {
        tag == Tag::SEQUENCE
    }

    #[tactic(auto, unfolding(crate::specs::InstanceOf::instance_of_fields))]
    fn to_tree(&self, alloc: Global) -> Result<Tree, EncodeError> {
        let mut fields = Trees::new(alloc);
        put(alloc, &mut fields, &self.type_id)?;
        put_explicit(alloc, &mut fields, Some(&self.value), Tag::CONTEXT_0)?;
        Ok(Tree::Node {
            tag: Tag::SEQUENCE,
            children: fields,
        })
    }

    #[tactic(auto, unfolding(crate::specs::InstanceOf::instance_of_fields))]
    fn from_tree(alloc: Global, window: Window<'_>) -> Result<Self, DecodeError> {
        let mut fields = opened(window, Tag::SEQUENCE)?;
        let type_id = required(alloc, &mut fields)?;
        let value = required_explicit(alloc, &mut fields, Tag::CONTEXT_0)?;
        finish(&fields, InstanceOf { type_id, value })
    }
}
