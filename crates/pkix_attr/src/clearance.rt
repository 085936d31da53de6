ghost use Rattle.std.specs.Prelude.{◌≡◌, true, [], ◌∷◌, Some, IfOk, refl};
ghost use Rattle.std.proofs.Common.{rules};
ghost use Rattle.der_tree.specs.Tags.{universal};
ghost use Rattle.asn1_core.specs.Bits.{bits, are_bits};
ghost use Rattle.pkix_attr.specs.Classes.{class_bits, no_class, only_class, unclassified};
ghost use Rattle.pkix_attr.specs.Clearances.{clearance, clearance_fields, class_list, security_category, security_category_fields};

use asn1_core::{BitString, ObjectIdentifier, OutOfMemory, Tag, TryClone};
use der_tree::{
    Any, DecodeError, DerType, EncodeError, Fields, Form, Sequence, SetOf, Tree, Trees, Window,
    defaulted, optional, put, put_explicit, put_implicit, put_optional, required,
    required_explicit, required_implicit, unless_default,
};
use std::alloc::Global;
use std::ops::{Deref, DerefMut};

/// What the holder may see, under a policy (RFC 5755, 4.4.6).
#[derive(Clone, Debug, Drop, PartialEq, Eq, Hash)]
pub struct Clearance {
    /// The policy that the classes are of.
    policy_id: ObjectIdentifier,
    /// The classes that may be seen; the unclassified where it isn't written.
    class_list: ClassList,
    /// Further marks.
    security_categories: Option<SetOf<SecurityCategory>>,
}

impl Clearance {
    /// The value of these fields.
    pub fn new(
        policy_id: ObjectIdentifier,
        class_list: ClassList,
        security_categories: Option<SetOf<SecurityCategory>>,
    ) -> Clearance
        ensures policy_id { result.policy_id ≡ policy_id }
        ensures class_list { result.class_list ≡ class_list }
        ensures security_categories { result.security_categories ≡ security_categories }
    {
        Clearance {
            policy_id,
            class_list,
            security_categories,
        }
    }

    /// The policy that the classes are of.
    pub fn policy_id(&self) -> &ObjectIdentifier
        ensures { result.now ≡ self.now.policy_id }
    {
        &self.policy_id
    }

    /// The classes that may be seen; the unclassified where it isn't written.
    pub fn class_list(&self) -> &ClassList
        ensures { result.now ≡ self.now.class_list }
    {
        &self.class_list
    }

    /// Further marks.
    pub fn security_categories(&self) -> &Option<SetOf<SecurityCategory>>
        ensures { result.now ≡ self.now.security_categories }
    {
        &self.security_categories
    }
}

impl TryClone for Clearance {
    ghost copies_are_equal = { Prim.search rules };
}

impl Form for Clearance {
    ghost codec = { clearance };
}

#[tactic(auto, unfolding(crate::specs::Clearances::clearance_fields))]
impl Sequence for Clearance {
    ghost layout = { clearance_fields };

    ghost is_sequence = { refl };

    fn put_fields(&self, alloc: Global, fields: &mut Trees) -> Result<(), EncodeError> {
        put(alloc, fields, &self.policy_id)?;
        put_optional(
            alloc,
            fields,
            unless_default(&self.class_list, &ClassList::unclassified(alloc)?),
        )?;
        put_optional(alloc, fields, self.security_categories.as_ref())?;
        Ok(())
    }

    fn read_fields(alloc: Global, fields: &mut Fields<'_>) -> Result<Self, DecodeError> {
        Ok(Clearance {
            policy_id: required(alloc, fields)?,
            class_list: defaulted(alloc, fields, ClassList::unclassified(alloc)?)?,
            security_categories: optional(alloc, fields)?,
        })
    }
}

/// Bits of classes: unmarked, unclassified, restricted, confidential, secret, top secret (RFC 5755, 4.4.6).
#[derive(Clone, Debug, PartialEq, Eq, PartialOrd, Ord, Hash)]
pub struct ClassList(pub BitString);

impl Drop for ClassList {
    fn drop(self) {
        let ClassList(_) = self;
    }
}

impl From<BitString> for ClassList {
    ghost from_gives = { λ inner v. v.0 ≡ inner };

    fn from(inner: BitString) -> ClassList {
        ClassList(inner)
    }
}

impl Deref for ClassList {
    type Target = BitString;

    ghost deref_gives = { λ v inner. inner ≡ v.0 };

    fn deref(&self) -> &BitString {
        &self.0
    }
}

impl DerefMut for ClassList {
    ghost use Rattle.std.specs.Borrow.{sem};
    ghost use Rattle.pkix_attr.specs.Lending.{LendsClassList};

    ghost deref_mut_gives = { λ v inner. inner ≡ v.0 };

    fn deref_mut(&mut self) -> &mut BitString
        ensures* writes_back { sem 𝓛 (LendsClassList self.entry result) }
        ensures value { result.now ≡ self.old.0 }
    {
        &mut self.0
    }
}

// These bits of one byte, but for the last ones.
fn class_bits(alloc: Global, byte: u8, unused: u8) -> Result<ClassList, OutOfMemory>
    requires { are_bits (bits unused (byte ∷ [])) ≡ true }
    ensures { IfOk result (λ c. c ≡ class_bits byte unused) }
{
    let mut bytes = Vec::new(alloc);
    bytes.push(byte)?;
    match BitString::new(bytes, unused) {
        Some(bits) => Ok(ClassList(bits)),
        None => unreachable!(),
    }
}

impl ClassList {
    /// No class, where nothing is allocated yet.
    pub fn default(alloc: Global) -> ClassList
        ensures { result ≡ no_class }
    {
        match BitString::new(Vec::new(alloc), 0) {
            Some(bits) => ClassList(bits),
            None => unreachable!(),
        }
    }

    /// The class of what isn't marked.
    pub fn unmarked(alloc: Global) -> Result<ClassList, OutOfMemory>
        ensures { IfOk result (λ c. c ≡ only_class 0) }
    {
        class_bits(alloc, 0x80, 7)
    }

    /// The class of what isn't classified.
    pub fn unclassified(alloc: Global) -> Result<ClassList, OutOfMemory>
        ensures { IfOk result (λ c. c ≡ unclassified) }
    {
        class_bits(alloc, 0x40, 6)
    }

    /// The class of what is restricted.
    pub fn restricted(alloc: Global) -> Result<ClassList, OutOfMemory>
        ensures { IfOk result (λ c. c ≡ only_class 2) }
    {
        class_bits(alloc, 0x20, 5)
    }

    /// The class of what is confidential.
    pub fn confidential(alloc: Global) -> Result<ClassList, OutOfMemory>
        ensures { IfOk result (λ c. c ≡ only_class 3) }
    {
        class_bits(alloc, 0x10, 4)
    }

    /// The class of what is secret.
    pub fn secret(alloc: Global) -> Result<ClassList, OutOfMemory>
        ensures { IfOk result (λ c. c ≡ only_class 4) }
    {
        class_bits(alloc, 0x08, 3)
    }

    /// The class of what is top secret.
    pub fn top_secret(alloc: Global) -> Result<ClassList, OutOfMemory>
        ensures { IfOk result (λ c. c ≡ only_class 5) }
    {
        class_bits(alloc, 0x04, 2)
    }
}

impl TryClone for ClassList {
    ghost copies_are_equal = { Prim.search rules };
}

impl Form for ClassList {
    ghost codec = { class_list };
}

impl DerType for ClassList {
    ghost TAG = { Some (universal 3) };

    ghost tag_is = { refl };

    const TAG: Option<Tag> = Some(Tag::BIT_STRING);

    fn starts(tag: Tag) -> bool {
        tag == Tag::BIT_STRING
    }

    fn to_tree(&self, alloc: Global) -> Result<Tree, EncodeError> {
        self.0.to_tree(alloc)
    }

    fn from_tree(alloc: Global, window: Window<'_>) -> Result<Self, DecodeError> {
        Ok(ClassList(BitString::from_tree(alloc, window)?))
    }
}

/// A further mark, in the form that its kind has (RFC 5755, 4.4.6).
#[derive(Clone, Debug, PartialEq, Eq, PartialOrd, Ord, Hash)]
pub struct SecurityCategory {
    /// The kind.
    kind: ObjectIdentifier,
    /// One element.
    value: Any,
}

impl Drop for SecurityCategory {
    fn drop(self) {
        let SecurityCategory { kind: _, value: _ } = self;
    }
}

impl SecurityCategory {
    /// The value of these fields.
    pub fn new(kind: ObjectIdentifier, value: Any) -> SecurityCategory
        ensures kind { result.kind ≡ kind }
        ensures value { result.value ≡ value }
    {
        SecurityCategory { kind, value }
    }

    /// The kind.
    pub fn kind(&self) -> &ObjectIdentifier
        ensures { result.now ≡ self.now.kind }
    {
        &self.kind
    }

    /// One element.
    pub fn value(&self) -> &Any
        ensures { result.now ≡ self.now.value }
    {
        &self.value
    }
}

impl TryClone for SecurityCategory {
    ghost copies_are_equal = { Prim.search rules };
}

impl Form for SecurityCategory {
    ghost codec = { security_category };
}

#[tactic(auto, unfolding(crate::specs::Clearances::security_category_fields))]
impl Sequence for SecurityCategory {
    ghost layout = { security_category_fields };

    ghost is_sequence = { refl };

    fn put_fields(&self, alloc: Global, fields: &mut Trees) -> Result<(), EncodeError> {
        put_implicit(alloc, fields, Some(&self.kind), Tag::CONTEXT_0)?;
        put_explicit(alloc, fields, Some(&self.value), Tag::CONTEXT_1)?;
        Ok(())
    }

    fn read_fields(alloc: Global, fields: &mut Fields<'_>) -> Result<Self, DecodeError> {
        Ok(SecurityCategory {
            kind: required_implicit(alloc, fields, Tag::CONTEXT_0)?,
            value: required_explicit(alloc, fields, Tag::CONTEXT_1)?,
        })
    }
}
