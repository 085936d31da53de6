ghost use Rattle.std.specs.Prelude.{◌≡◌, ◌&&◌, [], ◌∷◌, IsSome, None, is_some};
ghost use Rattle.std.specs.Option.{option_map};
ghost use Rattle.der_tree.specs.Default.{next_defaulted};
ghost use Rattle.der_tree.specs.Fields.{next_required};
ghost use Rattle.der_tree.specs.Grammar.{explicitly, required};
ghost use Rattle.der_tree.specs.Optional.{next_optional};
ghost use Rattle.der_tree.specs.Primitive.{contents_at};
ghost use Rattle.der_tree.specs.Sequence.{fields_read, node_read_of};
ghost use Rattle.der_tree.specs.SequenceOf.{list_get, sequence_read_of};
ghost use Rattle.der_tree.specs.SetOf.{in_order, set_read_of};
ghost use Rattle.der_tree.specs.Tagging.{tagged_read_of};
ghost use Rattle.der_tree.specs.Tags.{these, universal};
ghost use Rattle.der_tree.specs.Windows.{shown};
ghost use Rattle.pkix_cert.specs.Shown.{Passes, Sees, SeesIfThere, Takes};

use crate::elements::Elements;
use asn1_core::Tag;
use der_tree::{DerType, Form, Sequence, Window};

/// A type of which a window can be tested, without memory.
pub(crate) trait Shown: Form {
    /// Whether the window shows a value.
    fn is_shown(window: Window<'_>) -> bool
        ensures { result ≡ is_some (Self.codec.read_of (shown window.entry)) };
}

/// A type whose values take no memory.
pub(crate) trait Plain: Form + Drop {
    /// The value that the window shows.
    fn plain(window: Window<'_>) -> Option<Self>
        ensures { result ≡ Self.codec.read_of (shown window.entry) };
}

/// A SEQUENCE of fields that can be tested. Such a type is `Shown`.
pub(crate) trait ShownFields: Sequence {
    /// Passes over the value's fields. None exactly where those that are left begin with no
    /// value's; then some of them may be taken.
    fn pass(fields: &mut Elements<'_>) -> Option<()>
        ensures fields { Passes result fields.new.elements (fields_read Self.layout fields.old.elements) }
        ensures complete { fields.new.complete ≡ fields.old.complete };
}

/// The contents of a window that shows a leaf of the tag.
pub(crate) fn contents<'a>(window: Window<'a>, tag: Tag) -> Option<&'a [u8]>
    ensures { option_map (λ b. b.now) result ≡ contents_at tag (shown window.entry) }
{
    if window.tag() != tag || window.is_constructed() {
        return None;
    }
    Some(window.content())
}

/// Passes over the next field, which has to be there.
#[tactic(auto, using(crate::proofs::Seeing::tests), unfolding(der_tree::specs::Fields::next_required))]
pub(crate) fn see<'a, T: Shown>(fields: &mut Elements<'a>) -> Option<Window<'a>>
    ensures field { Sees T.codec result fields.new.elements (next_required T.codec.read_of fields.old.elements) }
    ensures complete { fields.new.complete ≡ fields.old.complete }
{
    let (window, rest) = fields.first()?;
    if !T::is_shown(window) {
        return None;
    }
    *fields = rest;
    Some(window)
}

/// Passes over the next field where it may be one of this type.
#[tactic(auto, using(crate::proofs::Seeing::tests), unfolding(der_tree::specs::Optional::next_optional))]
pub(crate) fn see_optional<'a, T: Shown + DerType>(
    fields: &mut Elements<'a>,
) -> Option<Option<Window<'a>>>
    ensures field { SeesIfThere T.codec result fields.new.elements (next_optional T.codec.starts T.codec.read_of fields.old.elements) }
    ensures complete { fields.new.complete ≡ fields.old.complete }
{
    let Some((window, rest)) = fields.first() else {
        return Some(None);
    };
    if !T::starts(window.tag()) {
        return Some(None);
    }
    if !T::is_shown(window) {
        return None;
    }
    *fields = rest;
    Some(Some(window))
}

/// Passes over the next field where it has this tag, which replaces the type's own.
#[tactic(auto, using(crate::proofs::Seeing::tests), unfolding(der_tree::specs::Optional::next_optional))]
pub(crate) fn see_implicit<'a, T: Shown + DerType>(
    fields: &mut Elements<'a>,
    tag: Tag,
) -> Option<Option<Window<'a>>>
    requires { IsSome T.TAG }
    ensures field { SeesIfThere T.codec result fields.new.elements (next_optional (these (tag ∷ [])) (tagged_read_of tag T.codec) fields.old.elements) }
    ensures complete { fields.new.complete ≡ fields.old.complete }
{
    let Some((window, rest)) = fields.first() else {
        return Some(None);
    };
    if window.tag() != tag {
        return Some(None);
    }
    let own = T::TAG.unwrap();
    let window = window.retagged(own);
    if !T::is_shown(window) {
        return None;
    }
    *fields = rest;
    Some(Some(window))
}

/// Whether a window of an explicit tag shows one value.
#[tactic(auto, using(crate::proofs::Seeing::explicits))]
fn is_within<T: Shown>(window: Window<'_>, tag: Tag) -> bool
    ensures { result ≡ is_some (node_read_of tag (required T.codec) (shown window.entry)) }
{
    let Some(mut inner) = Elements::within(window, tag) else {
        return false;
    };
    see::<T>(&mut inner).is_some() && inner.is_empty()
}

/// Passes over the next field where it has this tag, around one value.
#[tactic(auto, using(crate::proofs::Seeing::tests), unfolding(der_tree::specs::Optional::next_optional))]
pub(crate) fn see_explicit<'a, T: Shown>(
    fields: &mut Elements<'a>,
    tag: Tag,
) -> Option<Option<Window<'a>>>
    ensures field { SeesIfThere (explicitly tag T.codec) result fields.new.elements (next_optional (these (tag ∷ [])) (node_read_of tag (required T.codec)) fields.old.elements) }
    ensures complete { fields.new.complete ≡ fields.old.complete }
{
    let Some((window, rest)) = fields.first() else {
        return Some(None);
    };
    if window.tag() != tag {
        return Some(None);
    }
    if !is_within::<T>(window, tag) {
        return None;
    }
    *fields = rest;
    Some(Some(window))
}

/// The value within a window of an explicit tag.
fn plain_within<T: Plain>(window: Window<'_>, tag: Tag) -> Option<T>
    ensures { result ≡ node_read_of tag (required T.codec) (shown window.entry) }
{
    let (inner, rest) = Elements::within(window, tag)?.first()?;
    let value = T::plain(inner)?;
    if !rest.is_empty() {
        return None;
    }
    Some(value)
}

/// Takes the next field where it has this tag, around one value.
#[tactic(auto, unfolding(der_tree::specs::Optional::next_optional))]
pub(crate) fn take_explicit<T: Plain>(fields: &mut Elements<'_>, tag: Tag) -> Option<Option<T>>
    ensures field { Takes result fields.new.elements (next_optional (these (tag ∷ [])) (node_read_of tag (required T.codec)) fields.old.elements) }
    ensures complete { fields.new.complete ≡ fields.old.complete }
{
    let Some((window, rest)) = fields.first() else {
        return Some(None);
    };
    if window.tag() != tag {
        return Some(None);
    }
    let value = plain_within(window, tag)?;
    *fields = rest;
    Some(Some(value))
}

/// Takes the next field where it may be one of this type, and else has the default, which is never
/// written.
#[tactic(auto, unfolding(der_tree::specs::Default::next_defaulted))]
pub(crate) fn take_defaulted<T: Plain + DerType + PartialEq>(
    fields: &mut Elements<'_>,
    default: T,
) -> Option<T>
    ensures field { Takes result fields.new.elements (next_defaulted T.codec T.eq default fields.old.elements) }
    ensures complete { fields.new.complete ≡ fields.old.complete }
{
    let Some((window, rest)) = fields.first() else {
        return Some(default);
    };
    if !T::starts(window.tag()) {
        return Some(default);
    }
    let value = T::plain(window)?;
    if value == default {
        return None;
    }
    *fields = rest;
    Some(value)
}

/// The SEQUENCE around the fields.
#[tactic(auto, using(crate::proofs::Seeing::nodes))]
fn is_node<T: ShownFields>(window: Window<'_>) -> bool
    ensures { result ≡ is_some (node_read_of (universal 16) T.layout.fields (shown window.entry)) }
{
    let Some(mut fields) = Elements::within(window, Tag::SEQUENCE) else {
        return false;
    };
    T::pass(&mut fields).is_some() && fields.is_empty()
}

impl<T: ShownFields> Shown for T {
    fn is_shown(window: Window<'_>) -> bool {
        is_node::<T>(window)
    }
}

/// Whether all that is left are values of the type, at least so many.
#[tactic(auto, using(crate::proofs::Seeing::lists))]
fn are_shown<T: Shown>(elements: Elements<'_>, min: usize) -> bool
    ensures { result ≡ (is_some (list_get T.codec min None elements.entry.elements) && elements.entry.complete) }
{
    let mut missing = min;
    let mut left = elements;
    while let Some((window, rest)) = left.first() {
        if !T::is_shown(window) {
            return false;
        }
        missing = missing.saturating_sub(1);
        left = rest;
    }
    missing == 0 && left.is_empty()
}

/// The same, in the order of their octets (X.690, 11.6).
#[tactic(auto, using(crate::proofs::Seeing::sets))]
fn are_shown_in_order<T: Shown>(elements: Elements<'_>, min: usize) -> bool
    ensures { result ≡ (in_order elements.entry.elements && (is_some (list_get T.codec min None elements.entry.elements) && elements.entry.complete)) }
{
    let mut before: &[u8] = &[];
    let mut missing = min;
    let mut left = elements;
    while let Some((window, rest)) = left.first() {
        let octets = window.whole();
        if before.cmp(&octets).is_gt() {
            return false;
        }
        if !T::is_shown(window) {
            return false;
        }
        before = octets;
        missing = missing.saturating_sub(1);
        left = rest;
    }
    missing == 0 && left.is_empty()
}

/// Whether the window shows a SEQUENCE OF at least `min` values.
pub(crate) fn is_sequence_of<T: Shown>(window: Window<'_>, min: usize) -> bool
    ensures { result ≡ is_some (sequence_read_of T.codec min None (shown window.entry)) }
{
    match Elements::within(window, Tag::SEQUENCE) {
        None => false,
        Some(elements) => are_shown::<T>(elements, min),
    }
}

/// Whether the window shows a SET OF at least `min` values.
pub(crate) fn is_set_of<T: Shown>(window: Window<'_>, min: usize) -> bool
    ensures { result ≡ is_some (set_read_of T.codec min None (shown window.entry)) }
{
    match Elements::within(window, Tag::SET) {
        None => false,
        Some(elements) => are_shown_in_order::<T>(elements, min),
    }
}
