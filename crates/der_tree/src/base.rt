ghost use Rattle.std.specs.Prelude.{◌≡◌, Ok, Some, None, MatchResult};
ghost use Rattle.std.specs.Prelude.{refl};
ghost use Rattle.der_tree.specs.Primitive.{contents_at};
ghost use Rattle.der_tree.specs.PrimitiveTypes.{bit_string, boolean, generalized_time, integer, null, object_identifier, octet_string, unsigned_64, unsigned_to, utc_time};
ghost use Rattle.der_tree.specs.Tags.{universal};
ghost use Rattle.der_tree.specs.Tree.{leaf};
ghost use Rattle.der_tree.specs.View.{plain};
ghost use Rattle.der_tree.specs.Windows.{shown};
ghost use Rattle.der_tree.specs.declared.error.DecodeError.TheVariants.{NotInGrammar};

use crate::der_type::{DerType, Form};
use crate::error::{DecodeError, EncodeError};
use crate::tree::{Bytes, Tree};
use crate::window::Window;
use asn1_core::{
    BitString, GeneralizedTime, Integer, ObjectIdentifier, OctetString, Tag, UtcTime,
    u64_from_contents, u64_to_contents,
};
use std::alloc::Global;

pub(crate) fn leaf(tag: Tag, contents: Vec<u8>) -> Tree
    ensures { plain result ≡ leaf tag contents.items }
{
    Tree::Leaf {
        tag,
        bytes: Bytes::from_vec(contents),
    }
}

pub(crate) fn leaf_contents(window: Window<'_>, tag: Tag) -> Result<&[u8], DecodeError>
    ensures { MatchResult result (λ b. Some b.now ≡ contents_at tag (shown window.entry)) (λ e. (e ≡ NotInGrammar) × (contents_at tag (shown window.entry) ≡ None)) }
{
    if window.tag() != tag || window.is_constructed() {
        return Err(DecodeError::NotInGrammar);
    }
    Ok(window.content())
}

impl Form for OctetString {
    ghost codec = { octet_string };
}

impl DerType for OctetString {
    ghost TAG = { Some (universal 4) };

    ghost tag_is = { refl };

    const TAG: Option<Tag> = Some(Tag::OCTET_STRING);

    fn starts(tag: Tag) -> bool {
        tag == Tag::OCTET_STRING
    }

    #[tactic(auto, unfolding(asn1_core::specs::Octets::octet_contents))]
    fn to_tree(&self, alloc: Global) -> Result<Tree, EncodeError> {
        Ok(leaf(Tag::OCTET_STRING, Vec::from_slice(alloc, self.as_slice())?))
    }

    #[tactic(auto, unfolding(asn1_core::specs::Octets::octet_contents))]
    fn from_tree(alloc: Global, window: Window<'_>) -> Result<Self, DecodeError> {
        let contents = leaf_contents(window, Tag::OCTET_STRING)?;
        Ok(OctetString::new(Vec::from_slice(alloc, contents)?))
    }
}

impl Form for Integer {
    ghost codec = { integer };
}

impl DerType for Integer {
    ghost TAG = { Some (universal 2) };

    ghost tag_is = { refl };

    const TAG: Option<Tag> = Some(Tag::INTEGER);

    fn starts(tag: Tag) -> bool {
        tag == Tag::INTEGER
    }

    #[tactic(auto, unfolding(asn1_core::specs::Twos::integer_contents))]
    fn to_tree(&self, alloc: Global) -> Result<Tree, EncodeError> {
        Ok(leaf(Tag::INTEGER, Vec::from_slice(alloc, self.as_bytes())?))
    }

    #[tactic(auto, unfolding(asn1_core::specs::Twos::integer_contents))]
    fn from_tree(alloc: Global, window: Window<'_>) -> Result<Self, DecodeError> {
        let contents = leaf_contents(window, Tag::INTEGER)?;
        Integer::from_contents(alloc, contents)?.ok_or(DecodeError::NotInGrammar)
    }
}

impl Form for u64 {
    ghost codec = { unsigned_64 };
}

impl DerType for u64 {
    ghost TAG = { Some (universal 2) };

    ghost tag_is = { refl };

    const TAG: Option<Tag> = Some(Tag::INTEGER);

    fn starts(tag: Tag) -> bool {
        tag == Tag::INTEGER
    }

    #[tactic(auto, unfolding(asn1_core::specs::Unsigned::unsigned_64_contents))]
    fn to_tree(&self, alloc: Global) -> Result<Tree, EncodeError> {
        Ok(leaf(Tag::INTEGER, u64_to_contents(alloc, *self)?))
    }

    #[tactic(auto, unfolding(asn1_core::specs::Unsigned::unsigned_64_contents))]
    fn from_tree(_alloc: Global, window: Window<'_>) -> Result<Self, DecodeError> {
        let contents = leaf_contents(window, Tag::INTEGER)?;
        u64_from_contents(contents).ok_or(DecodeError::NotInGrammar)
    }
}

impl Form for u16 {
    ghost codec = { unsigned_to 65535 };
}

impl DerType for u16 {
    ghost TAG = { Some (universal 2) };

    ghost tag_is = { refl };

    const TAG: Option<Tag> = Some(Tag::INTEGER);

    fn starts(tag: Tag) -> bool {
        tag == Tag::INTEGER
    }

    #[tactic(auto, unfolding(asn1_core::specs::Narrowed::unsigned_contents))]
    fn to_tree(&self, alloc: Global) -> Result<Tree, EncodeError> {
        let contents = u64_to_contents(alloc, u64::from(*self))?;
        Ok(leaf(Tag::INTEGER, contents))
    }

    #[tactic(auto, unfolding(asn1_core::specs::Narrowed::unsigned_contents))]
    fn from_tree(_alloc: Global, window: Window<'_>) -> Result<Self, DecodeError> {
        let contents = leaf_contents(window, Tag::INTEGER)?;
        match u64_from_contents(contents) {
            Some(number) if number <= u64::from(u16::MAX) => Ok(number as u16),
            _ => Err(DecodeError::NotInGrammar),
        }
    }
}

impl Form for u8 {
    ghost codec = { unsigned_to 255 };
}

impl DerType for u8 {
    ghost TAG = { Some (universal 2) };

    ghost tag_is = { refl };

    const TAG: Option<Tag> = Some(Tag::INTEGER);

    fn starts(tag: Tag) -> bool {
        tag == Tag::INTEGER
    }

    #[tactic(auto, unfolding(asn1_core::specs::Narrowed::unsigned_contents))]
    fn to_tree(&self, alloc: Global) -> Result<Tree, EncodeError> {
        let contents = u64_to_contents(alloc, u64::from(*self))?;
        Ok(leaf(Tag::INTEGER, contents))
    }

    #[tactic(auto, unfolding(asn1_core::specs::Narrowed::unsigned_contents))]
    fn from_tree(_alloc: Global, window: Window<'_>) -> Result<Self, DecodeError> {
        let contents = leaf_contents(window, Tag::INTEGER)?;
        match u64_from_contents(contents) {
            Some(number) if number <= u64::from(u8::MAX) => Ok(number as u8),
            _ => Err(DecodeError::NotInGrammar),
        }
    }
}

impl Form for BitString {
    ghost codec = { bit_string };
}

impl DerType for BitString {
    ghost TAG = { Some (universal 3) };

    ghost tag_is = { refl };

    const TAG: Option<Tag> = Some(Tag::BIT_STRING);

    fn starts(tag: Tag) -> bool {
        tag == Tag::BIT_STRING
    }

    #[tactic(auto, unfolding(asn1_core::specs::Bits::bit_string_contents))]
    fn to_tree(&self, alloc: Global) -> Result<Tree, EncodeError> {
        Ok(leaf(Tag::BIT_STRING, self.to_contents(alloc)?))
    }

    #[tactic(auto, unfolding(asn1_core::specs::Bits::bit_string_contents))]
    fn from_tree(alloc: Global, window: Window<'_>) -> Result<Self, DecodeError> {
        let contents = leaf_contents(window, Tag::BIT_STRING)?;
        BitString::from_contents(alloc, contents)?.ok_or(DecodeError::NotInGrammar)
    }
}

impl Form for ObjectIdentifier {
    ghost codec = { object_identifier };
}

impl DerType for ObjectIdentifier {
    ghost TAG = { Some (universal 6) };

    ghost tag_is = { refl };

    const TAG: Option<Tag> = Some(Tag::OBJECT_IDENTIFIER);

    fn starts(tag: Tag) -> bool {
        tag == Tag::OBJECT_IDENTIFIER
    }

    #[tactic(auto, unfolding(asn1_core::specs::ObjectIdentifiers::object_identifier_contents))]
    fn to_tree(&self, alloc: Global) -> Result<Tree, EncodeError> {
        Ok(leaf(Tag::OBJECT_IDENTIFIER, self.to_contents(alloc)?))
    }

    #[tactic(auto, unfolding(asn1_core::specs::ObjectIdentifiers::object_identifier_contents))]
    fn from_tree(alloc: Global, window: Window<'_>) -> Result<Self, DecodeError> {
        let contents = leaf_contents(window, Tag::OBJECT_IDENTIFIER)?;
        ObjectIdentifier::from_contents(alloc, contents)?.ok_or(DecodeError::NotInGrammar)
    }
}

impl Form for UtcTime {
    ghost codec = { utc_time };
}

impl DerType for UtcTime {
    ghost TAG = { Some (universal 23) };

    ghost tag_is = { refl };

    const TAG: Option<Tag> = Some(Tag::UTC_TIME);

    fn starts(tag: Tag) -> bool {
        tag == Tag::UTC_TIME
    }

    #[tactic(auto, unfolding(asn1_core::specs::UtcTime::utc_time_contents))]
    fn to_tree(&self, alloc: Global) -> Result<Tree, EncodeError> {
        match self.to_contents(alloc)? {
            None => Err(EncodeError::TimeNotCarried),
            Some(contents) => Ok(leaf(Tag::UTC_TIME, contents)),
        }
    }

    #[tactic(auto, unfolding(asn1_core::specs::UtcTime::utc_time_contents))]
    fn from_tree(_alloc: Global, window: Window<'_>) -> Result<Self, DecodeError> {
        let contents = leaf_contents(window, Tag::UTC_TIME)?;
        UtcTime::from_contents(contents).ok_or(DecodeError::NotInGrammar)
    }
}

impl Form for GeneralizedTime {
    ghost codec = { generalized_time };
}

impl DerType for GeneralizedTime {
    ghost TAG = { Some (universal 24) };

    ghost tag_is = { refl };

    const TAG: Option<Tag> = Some(Tag::GENERALIZED_TIME);

    fn starts(tag: Tag) -> bool {
        tag == Tag::GENERALIZED_TIME
    }

    #[tactic(auto, unfolding(asn1_core::specs::GeneralizedTime::generalized_time_contents))]
    fn to_tree(&self, alloc: Global) -> Result<Tree, EncodeError> {
        match self.to_contents(alloc)? {
            None => Err(EncodeError::TimeNotCarried),
            Some(contents) => Ok(leaf(Tag::GENERALIZED_TIME, contents)),
        }
    }

    #[tactic(auto, unfolding(asn1_core::specs::GeneralizedTime::generalized_time_contents))]
    fn from_tree(_alloc: Global, window: Window<'_>) -> Result<Self, DecodeError> {
        let contents = leaf_contents(window, Tag::GENERALIZED_TIME)?;
        GeneralizedTime::from_contents(contents).ok_or(DecodeError::NotInGrammar)
    }
}

impl Form for bool {
    ghost codec = { boolean };
}

impl DerType for bool {
    ghost TAG = { Some (universal 1) };

    ghost tag_is = { refl };

    const TAG: Option<Tag> = Some(Tag::BOOL);

    fn starts(tag: Tag) -> bool {
        tag == Tag::BOOL
    }

    #[tactic(auto, unfolding(asn1_core::specs::Octets::boolean_contents))]
    fn to_tree(&self, alloc: Global) -> Result<Tree, EncodeError> {
        let contents = if *self { 255 } else { 0 };
        Ok(leaf(Tag::BOOL, Vec::from_slice(alloc, &[contents])?))
    }

    #[tactic(auto, unfolding(asn1_core::specs::Octets::boolean_contents))]
    fn from_tree(_alloc: Global, window: Window<'_>) -> Result<Self, DecodeError> {
        match leaf_contents(window, Tag::BOOL)? {
            [255] => Ok(true),
            [0] => Ok(false),
            _ => Err(DecodeError::NotInGrammar),
        }
    }
}

impl Form for () {
    ghost codec = { null };
}

impl DerType for () {
    ghost TAG = { Some (universal 5) };

    ghost tag_is = { refl };

    const TAG: Option<Tag> = Some(Tag::NULL);

    fn starts(tag: Tag) -> bool {
        tag == Tag::NULL
    }

    #[tactic(auto, unfolding(asn1_core::specs::Octets::null_contents))]
    fn to_tree(&self, alloc: Global) -> Result<Tree, EncodeError> {
        Ok(leaf(Tag::NULL, Vec::new(alloc)))
    }

    #[tactic(auto, unfolding(asn1_core::specs::Octets::null_contents))]
    fn from_tree(_alloc: Global, window: Window<'_>) -> Result<Self, DecodeError> {
        match leaf_contents(window, Tag::NULL)? {
            [] => Ok(()),
            _ => Err(DecodeError::NotInGrammar),
        }
    }
}
