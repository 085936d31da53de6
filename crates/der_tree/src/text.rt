ghost use Rattle.std.specs.Prelude.{◌≡◌, [], ◌∷◌, Some, OnErr};
ghost use Rattle.std.proofs.Common.{ap, sym};
ghost use Rattle.std.specs.Option.{option_copied};
ghost use Rattle.der_tree.specs.Answers.{Encodes, Puts};
ghost use Rattle.der_tree.specs.CharacterStrings.{sized_read_of, sized_read_under, sized_tree_of, sized_tree_under, text};
ghost use Rattle.der_tree.specs.Fields.{next_required};
ghost use Rattle.der_tree.specs.Optional.{next_optional, optional_by};
ghost use Rattle.der_tree.specs.Tags.{these, universal};
ghost use Rattle.der_tree.specs.Windows.{Decodes, Reads, shown};

use crate::base::{leaf, leaf_contents};
use crate::der_type::{DerType, Form, next, next_where};
use crate::error::{DecodeError, EncodeError};
use crate::fields::Fields;
use crate::list::is_within;
use crate::tree::{Tree, Trees};
use crate::window::Window;
use asn1_core::{CharacterString, StringType, Tag, TextFault};
use std::alloc::Global;

impl<S: StringType> Form for CharacterString<S> {
    ghost codec = { text S.string_type };
}

impl<S: StringType> DerType for CharacterString<S> {
    ghost TAG = { Some S.TAG };

    ghost tag_is = { ap Some (sym S.tag_is) };

    const TAG: Option<Tag> = Some(S::TAG);

    fn starts(tag: Tag) -> bool {
        tag == S::TAG
    }

    #[tactic(auto, unfolding(asn1_core::specs::Texts::text_contents))]
    fn to_tree(&self, alloc: Global) -> Result<Tree, EncodeError> {
        Ok(leaf(S::TAG, Vec::from_slice(alloc, self.as_bytes())?))
    }

    #[tactic(auto, unfolding(asn1_core::specs::Texts::text_contents))]
    fn from_tree(alloc: Global, window: Window<'_>) -> Result<Self, DecodeError> {
        let contents = leaf_contents(window, S::TAG)?;
        match CharacterString::new(alloc, contents) {
            Ok(text) => Ok(text),
            Err(TextFault::OutOfMemory) => Err(DecodeError::OutOfMemory),
            Err(_) => Err(DecodeError::NotInGrammar),
        }
    }
}

/// The tree of a text of at least `min` characters and at most `max`. `SizeOutOfRange` exactly where
/// it has fewer or more.
#[tactic(auto, unfolding(crate::specs::CharacterStrings::sized_tree_of))]
pub fn text_tree<S: StringType>(
    alloc: Global,
    text: &CharacterString<S>,
    min: usize,
    max: Option<usize>,
) -> Result<Tree, EncodeError>
    ensures { Encodes result (sized_tree_of S.string_type min max text.now) }
{
    if !is_within(text.char_count(), min, max) {
        return Err(EncodeError::SizeOutOfRange);
    }
    text.to_tree(alloc)
}

/// The text of at least `min` characters and at most `max` that the window shows. `NotInGrammar`
/// exactly where it shows none.
#[tactic(auto, unfolding(crate::specs::CharacterStrings::sized_read_of))]
pub fn text_of<S: StringType>(
    alloc: Global,
    window: Window<'_>,
    min: usize,
    max: Option<usize>,
) -> Result<CharacterString<S>, DecodeError>
    ensures { Decodes result (sized_read_of S.string_type min max (shown window.entry)) }
{
    let text: CharacterString<S> = CharacterString::from_tree(alloc, window)?;
    if !is_within(text.char_count(), min, max) {
        return Err(DecodeError::NotInGrammar);
    }
    Ok(text)
}

/// Puts the text's tree after those before it, where it is there.
pub fn put_text<S: StringType>(
    alloc: Global,
    fields: &mut Trees,
    text: Option<&CharacterString<S>>,
    min: usize,
    max: Option<usize>,
) -> Result<(), EncodeError>
    ensures puts { Puts result fields.old fields.new (optional_by (sized_tree_of S.string_type min max) (option_copied text.entry)) }
    ensures err { OnErr result (fields.new ≡ fields.old) }
{
    match text {
        None => Ok(()),
        Some(text) => {
            fields.push(text_tree(alloc, text, min, max)?)?;
            Ok(())
        }
    }
}

/// The same under an implicit tag.
#[tactic(auto, using(crate::specs::laws::CharacterStrings::sized_not_raw))]
pub fn put_implicit_text<S: StringType>(
    alloc: Global,
    fields: &mut Trees,
    text: Option<&CharacterString<S>>,
    tag: Tag,
    min: usize,
    max: Option<usize>,
) -> Result<(), EncodeError>
    ensures puts { Puts result fields.old fields.new (optional_by (sized_tree_under tag S.string_type min max) (option_copied text.entry)) }
    ensures err { OnErr result (fields.new ≡ fields.old) }
{
    match text {
        None => Ok(()),
        Some(text) => {
            let tree = text_tree(alloc, text, min, max)?;
            fields.push(tree.retagged(tag))?;
            Ok(())
        }
    }
}

/// Takes the next field, which has to be a text of this type and of so many characters.
pub fn required_text<S: StringType>(
    alloc: Global,
    fields: &mut Fields<'_>,
    min: usize,
    max: Option<usize>,
) -> Result<CharacterString<S>, DecodeError>
    ensures reads { Reads result fields.new (next_required (sized_read_of S.string_type min max) fields.old) }
    ensures err { OnErr result (fields.new ≡ fields.old) }
{
    next(fields, |window| text_of(alloc, window, min, max))
}

/// Takes the next field where it may be a text of this type.
pub fn optional_text<S: StringType>(
    alloc: Global,
    fields: &mut Fields<'_>,
    min: usize,
    max: Option<usize>,
) -> Result<Option<CharacterString<S>>, DecodeError>
    ensures reads { Reads result fields.new (next_optional (these (universal S.string_type.number ∷ [])) (sized_read_of S.string_type min max) fields.old) }
    ensures err { OnErr result (fields.new ≡ fields.old) }
{
    next_where(
        fields,
        |tag| <CharacterString<S>>::starts(tag),
        |window| text_of(alloc, window, min, max),
    )
}

/// The text that a window of an implicit tag shows.
fn text_under<S: StringType>(
    alloc: Global,
    window: Window<'_>,
    tag: Tag,
    min: usize,
    max: Option<usize>,
) -> Result<CharacterString<S>, DecodeError>
    ensures { Decodes result (sized_read_under tag S.string_type min max (shown window.entry)) }
{
    if window.tag() != tag {
        return Err(DecodeError::NotInGrammar);
    }
    text_of(alloc, window.retagged(S::TAG), min, max)
}

/// Takes the next field, which has to have this tag in place of that of the text's type.
pub fn required_implicit_text<S: StringType>(
    alloc: Global,
    fields: &mut Fields<'_>,
    tag: Tag,
    min: usize,
    max: Option<usize>,
) -> Result<CharacterString<S>, DecodeError>
    ensures reads { Reads result fields.new (next_required (sized_read_under tag S.string_type min max) fields.old) }
    ensures err { OnErr result (fields.new ≡ fields.old) }
{
    next(fields, |window| text_under(alloc, window, tag, min, max))
}

/// Takes the next field where it has this tag in place of that of the text's type.
pub fn implicit_text<S: StringType>(
    alloc: Global,
    fields: &mut Fields<'_>,
    tag: Tag,
    min: usize,
    max: Option<usize>,
) -> Result<Option<CharacterString<S>>, DecodeError>
    ensures reads { Reads result fields.new (next_optional (these (tag ∷ [])) (sized_read_under tag S.string_type min max) fields.old) }
    ensures err { OnErr result (fields.new ≡ fields.old) }
{
    next_where(
        fields,
        |found| found == tag,
        |window| text_under(alloc, window, tag, min, max),
    )
}
