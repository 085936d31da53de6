ghost use Rattle.std.specs.Prelude.{◌≡◌, Some, None, refl};
ghost use Rattle.std.proofs.Common.{rules};
ghost use Rattle.der_tree.specs.Tags.{universal};
ghost use Rattle.pkix_cert.specs.Extensions.{extension, extension_fields, extensions};

use asn1_core::{ObjectIdentifier, OctetString, Tag, TryClone};
use der_tree::{
    DecodeError, DerType, EncodeError, Fields, Form, Sequence, SequenceOf, Tree, Trees, Window,
    defaulted, put, put_optional, required, sequence_of, sequence_tree, unless_default,
};
use std::alloc::Global;
use std::ops::{Deref, DerefMut};

/// An extension (RFC 5280, 4.1.2.9). Its contents are plain octets here.
#[derive(Clone, Debug, Drop, PartialEq, Eq, PartialOrd, Ord, Hash)]
pub struct Extension {
    pub extn_id: ObjectIdentifier,
    /// FALSE where it isn't written.
    pub critical: bool,
    pub extn_value: OctetString,
}

impl TryClone for Extension {
    ghost copies_are_equal = { Prim.search rules };
}

impl Form for Extension {
    ghost codec = { extension };
}

#[tactic(auto, unfolding(crate::specs::Extensions::extension_fields))]
impl Sequence for Extension {
    ghost layout = { extension_fields };

    ghost is_sequence = { refl };

    fn put_fields(&self, alloc: Global, fields: &mut Trees) -> Result<(), EncodeError> {
        put(alloc, fields, &self.extn_id)?;
        put_optional(alloc, fields, unless_default(&self.critical, &false))?;
        put(alloc, fields, &self.extn_value)?;
        Ok(())
    }

    fn read_fields(alloc: Global, fields: &mut Fields<'_>) -> Result<Self, DecodeError> {
        Ok(Extension {
            extn_id: required(alloc, fields)?,
            critical: defaulted(alloc, fields, false)?,
            extn_value: required(alloc, fields)?,
        })
    }
}

/// One or more extensions, in order (RFC 5280, 4.1.2.9).
#[derive(Clone, Debug, PartialEq, Eq, PartialOrd, Ord, Hash)]
pub struct Extensions(pub SequenceOf<Extension>);

impl From<SequenceOf<Extension>> for Extensions {
    ghost from_gives = { λ inner v. v.0 ≡ inner };

    fn from(inner: SequenceOf<Extension>) -> Extensions {
        Extensions(inner)
    }
}

impl Deref for Extensions {
    type Target = SequenceOf<Extension>;

    ghost deref_gives = { λ v inner. inner ≡ v.0 };

    fn deref(&self) -> &SequenceOf<Extension> {
        &self.0
    }
}

impl DerefMut for Extensions {
    ghost use Rattle.std.specs.Borrow.{sem};
    ghost use Rattle.pkix_cert.specs.Lending.{LendsExtensions};

    ghost deref_mut_gives = { λ v inner. inner ≡ v.0 };

    fn deref_mut(&mut self) -> &mut SequenceOf<Extension>
        ensures* writes_back { sem 𝓛 (LendsExtensions self.entry result) }
        ensures value { result.now ≡ self.old.0 }
    {
        &mut self.0
    }
}

impl Drop for Extensions {
    fn drop(self) {
        let Extensions(_) = self;
    }
}

impl TryClone for Extensions {
    ghost copies_are_equal = { Prim.search rules };
}

impl Form for Extensions {
    ghost codec = { extensions };
}

impl DerType for Extensions {
    ghost TAG = { Some (universal 16) };

    ghost tag_is = { refl };

    const TAG: Option<Tag> = Some(Tag::SEQUENCE);

    fn starts(tag: Tag) -> bool {
        tag == Tag::SEQUENCE
    }

    fn to_tree(&self, alloc: Global) -> Result<Tree, EncodeError> {
        sequence_tree(alloc, &self.0, 1, None)
    }

    fn from_tree(alloc: Global, window: Window<'_>) -> Result<Self, DecodeError> {
        Ok(Extensions(sequence_of(alloc, window, 1, None)?))
    }
}
