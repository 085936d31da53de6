// What is in a SEQUENCE of two elements.
ghost use Rattle.std.specs.Prelude.{◌≡◌, IfSome};
ghost use Rattle.std.specs.Option.{option_map};
ghost use Rattle.der_tree.specs.Element.{element_octets};
ghost use Rattle.der_tree.specs.Primitive.{contents_at};
ghost use Rattle.der_tree.specs.Windows.{shown, whole_of};
ghost use Rattle.signature_verifier.specs.Pairs.{pair_in, two};

use asn1_core::Tag;
use der_tree::{Fields, Window, one_window, opened};

/// The two elements of the SEQUENCE whose octets these are.
#[tactic(auto, unfolding(crate::specs::Pairs::pair_in))]
pub(crate) fn two_elements(octets: &[u8]) -> Option<(Window<'_>, Window<'_>)>
    ensures elements { option_map (λ w. (shown w.0, shown w.1)) result ≡ pair_in octets.now }
    ensures first { IfSome result (λ w. whole_of w.0 ≡ element_octets (shown w.0)) }
{
    let sequence = one_window(octets)?;
    let fields = opened(sequence, Tag::SEQUENCE).ok()?;
    two_left(&fields)
}

/// The two elements that are left.
fn two_left<'a>(fields: &Fields<'a>) -> Option<(Window<'a>, Window<'a>)>
    ensures elements { option_map (λ w. (shown w.0, shown w.1)) result ≡ two fields.now }
    ensures first { IfSome result (λ w. whole_of w.0 ≡ element_octets (shown w.0)) }
{
    let (first, fields) = fields.first()?;
    let (second, fields) = fields.first()?;
    match fields.first() {
        None => Some((first, second)),
        Some(_) => None,
    }
}

/// The contents of a window that shows a leaf of the tag (X.690, 8.1.2.5).
pub(crate) fn contents<'a>(window: Window<'a>, tag: Tag) -> Option<&'a [u8]>
    ensures { option_map (λ b. b.now) result ≡ contents_at tag (shown window.entry) }
{
    if window.tag() != tag || window.is_constructed() {
        return None;
    }
    Some(window.content())
}
