ghost use Rattle.std.specs.Prelude.{◌≡◌, ◌↔◌, ℕ, List, ◌^◌, ◌≤◌, ◌<◌, Some, None, [], ◌∷◌, ◌+◌, ◌++◌, length, IfOk, IfSome, IsErrOf, true};
ghost use Rattle.std.specs.Option.{option_map};
ghost use Rattle.std.specs.Result.{result_ok};
ghost use Rattle.std.specs.List.{flat_map};
ghost use Rattle.asn1_core.specs.Base128.{digits_at, base128_at};
ghost use Rattle.der_tree.specs.Element.{Element, all_encodable, children_of, class_at, element_at, element_octets, identifier_at, is_encodable, length_at, length_of, number_of, one_element, split};
ghost use Rattle.der_tree.specs.Fronts.{BeginsWith, IsFront, IsMalformed};
ghost use Rattle.der_tree.specs.Incomplete.{digits_go_on, goes_on, identifier_goes_on, length_goes_on, number_goes_on};
ghost use Rattle.der_tree.specs.Tagging.{shown_as};
ghost use Rattle.der_tree.specs.Windows.{Finds, shown, whole_of};
ghost use Rattle.der_tree.specs.declared.error.WindowFault.TheVariants.{Incomplete, Malformed};

use crate::children::Children;
use crate::error::WindowFault;
use crate::fields::Fields;
use asn1_core::{Class, Tag};

/// An element of the input.
#[derive(Clone, Copy, Debug)]
pub struct Window<'a> {
    tag: Tag,
    constructed: bool,
    content: &'a [u8],
    whole: &'a [u8],
}

impl<'a> Window<'a> {
    /// The tag of the identifier octets (X.690, 8.1.2), or the one that `retagged` put in its place.
    pub fn tag(&self) -> Tag
        ensures { result ≡ (shown self.now).tag }
    {
        self.tag
    }

    /// Bit 6 of the identifier octets (X.690, 8.1.2.5). Where it is set the contents needn't be
    /// elements: `fields` says whether they are.
    pub fn is_constructed(&self) -> bool
        ensures { result ≡ (shown self.now).constructed }
    {
        self.constructed
    }

    /// The contents octets (X.690, 8.1.4), without the identifier and length octets before them.
    pub fn content(&self) -> &'a [u8]
        ensures { result.now ≡ (shown self.now).content }
    {
        self.content
    }

    /// The identifier, length and contents octets as they are in the input.
    pub fn whole(&self) -> &'a [u8]
        ensures { result.now ≡ whole_of self.now }
    {
        self.whole
    }

    /// The elements within it. None exactly where it isn't constructed or its contents aren't the
    /// octets of elements one after the other, as `elements_exactly` says.
    pub fn fields(&self) -> Option<Fields<'a>>
        ensures { result ≡ children_of (shown self.now) }
    {
        if self.constructed {
            Fields::of(self.content)
        } else {
            None
        }
    }

    /// The windows onto the elements within it, in order. None exactly where `fields` is.
    pub fn children(&self) -> Option<Children<'a>>
        ensures { result ≡ children_of (shown self.now) }
    {
        let fields = self.fields()?;
        Some(Children::of(fields))
    }

    /// The same under another tag. The whole stays as it is in the input.
    pub fn retagged(&self, tag: Tag) -> Window<'a>
        ensures shown { shown result ≡ shown_as tag (shown self.now) }
        ensures whole { whole_of result ≡ whole_of self.now }
    {
        Window { tag, ..*self }
    }
}

fn class_at(b: u8) -> Class
    ensures { class_at b ≡ Some result }
{
    if b < 64 {
        Class::Universal
    } else if b < 128 {
        Class::Application
    } else if b < 192 {
        Class::Context
    } else {
        Class::Private
    }
}

// The digits of a tag number (X.690, 8.1.2.4.2), which may not come to 2^32.
#[tactic(auto, unfolding(asn1_core::specs::Base128::digits_at, crate::specs::Incomplete::digits_go_on))]
fn digits_at(bytes: &[u8]) -> Result<(u32, &[u8]), WindowFault>
    ensures { Finds (λ x. (x.0, x.1.now)) result (digits_at (2 ^ 25) 0 bytes.now) (digits_go_on (2 ^ 25) 0 bytes.now) }
{
    let mut high: u32 = 0;
    let mut rest = bytes;
    while high < 1 << 25 {
        let [b, after @ ..] = rest else {
            return Err(WindowFault::Incomplete);
        };
        if *b < 128 {
            return Ok((high * 128 + u32::from(*b), after));
        }
        high = high * 128 + u32::from(*b - 128);
        rest = after;
    }
    Err(WindowFault::Malformed)
}

#[tactic(auto, unfolding(asn1_core::specs::Base128::base128_at, crate::specs::Incomplete::number_goes_on))]
fn number_at(bytes: &[u8]) -> Result<(u32, &[u8]), WindowFault>
    ensures { Finds (λ x. (x.0, x.1.now)) result (base128_at (2 ^ 25) bytes.now) (number_goes_on bytes.now) }
{
    match bytes {
        [] => Err(WindowFault::Incomplete),
        [128, ..] => Err(WindowFault::Malformed),
        _ => digits_at(bytes),
    }
}

#[tactic(auto, unfolding(crate::specs::Element::identifier_at, crate::specs::Incomplete::identifier_goes_on))]
fn identifier_at(bytes: &[u8]) -> Result<(Tag, bool, &[u8]), WindowFault>
    ensures { Finds (λ x. ((x.0, x.1), x.2.now)) result (identifier_at bytes.now) (identifier_goes_on bytes.now) }
{
    let [b, rest @ ..] = bytes else {
        return Err(WindowFault::Incomplete);
    };
    let class = class_at(*b);
    let constructed = *b / 32 % 2 != 0;
    let low = *b % 32;
    if low != 31 {
        let number = u32::from(low);
        return Ok((Tag { class, number }, constructed, rest));
    }
    let (number, rest) = number_at(rest)?;
    if number < 31 {
        return Err(WindowFault::Malformed);
    }
    Ok((Tag { class, number }, constructed, rest))
}

#[tactic(auto, using(crate::proofs::Completions::number_room), unfolding(crate::specs::Element::number_of))]
fn number_of(bytes: &[u8]) -> u64
    requires { length bytes.now ≤ 8 }
    ensures { number_of 0 bytes.now ≡ Some result }
{
    let mut high: u64 = 0;
    let mut rest = bytes;
    while let [b, after @ ..] = rest {
        high = high * 256 + u64::from(*b);
        rest = after;
    }
    high
}

// The length after a first octet that announces this many (X.690, 8.1.3.5), in its shortest form
// (10.1).
#[tactic(auto, unfolding(crate::specs::Element::length_at, crate::specs::Element::length_of, crate::specs::Incomplete::length_goes_on))]
fn long_length_at(count: u8, bytes: &[u8]) -> Result<(u64, &[u8]), WindowFault>
    requires few { count ≤ 8 }
    requires some { 0 < count }
    ensures { Finds (λ x. (x.0, x.1.now)) result (length_at ((128 + count) ∷ bytes.now)) (length_goes_on ((128 + count) ∷ bytes.now)) }
{
    let count = usize::from(count);
    if let [0, ..] = bytes {
        return Err(WindowFault::Malformed);
    }
    if bytes.len() < count {
        return Err(WindowFault::Incomplete);
    }
    let (front, rest) = bytes.split_at(count);
    let number = number_of(front);
    if number < 128 {
        return Err(WindowFault::Malformed);
    }
    Ok((number, rest))
}

#[tactic(auto, using(crate::proofs::FrontLaws::too_many, crate::proofs::FrontLaws::indefinite), unfolding(crate::specs::Element::length_at, crate::specs::Incomplete::length_goes_on))]
fn length_at(bytes: &[u8]) -> Result<(u64, &[u8]), WindowFault>
    ensures { Finds (λ x. (x.0, x.1.now)) result (length_at bytes.now) (length_goes_on bytes.now) }
{
    let [b, rest @ ..] = bytes else {
        return Err(WindowFault::Incomplete);
    };
    match *b {
        0..=127 => Ok((u64::from(*b), rest)),
        // The indefinite form.
        128 => Err(WindowFault::Malformed),
        129..=136 => long_length_at(*b - 128, rest),
        // A shortest length below 2^64 has at most eight octets.
        _ => Err(WindowFault::Malformed),
    }
}

/// The element at the front, and the bytes after it.
#[tactic(auto, unfolding(crate::specs::Element::element_at, crate::specs::Incomplete::goes_on))]
pub fn element_at<'a>(bytes: &'a [u8]) -> Result<(Window<'a>, &'a [u8]), WindowFault>
    ensures element { Finds (λ x. (shown x.0, x.1.now)) result (element_at bytes.now) (goes_on bytes.now) }
    ensures whole { IfOk result (λ x. whole_of x.0 ≡ element_octets (shown x.0)) }
{
    let (tag, constructed, rest) = identifier_at(bytes)?;
    let (len, rest) = length_at(rest)?;
    if (rest.len() as u64) < len {
        return Err(WindowFault::Incomplete);
    }
    let (content, rest) = rest.split_at(len as usize);
    let whole = &bytes[..bytes.len() - rest.len()];
    Ok((
        Window {
            tag,
            constructed,
            content,
            whole,
        },
        rest,
    ))
}

/// The element at the front of the input (X.690, 8.1, with the shortest length, 10.1; a tag number
/// below 2^32, at most eight length octets), and what comes after it. What
/// is within its contents isn't looked at. `Malformed` is answered as soon as it is sure.
pub fn read_window<'a>(input: &'a [u8]) -> Result<(Window<'a>, &'a [u8]), WindowFault>
    ensures element { IfOk result (λ x. BeginsWith input.now (shown x.0) x.1.now) }
    ensures front { option_map (λ x. (shown x.0, x.1.now)) (result_ok result) ≡ element_at input.now }
    ensures whole { IfOk result (λ x. whole_of x.0 ≡ element_octets (shown x.0)) }
    // The input is a front of an element's octets, and not all of them.
    ensures incomplete { IsErrOf result Incomplete ↔ IsFront input.now }
    // Neither that, nor does it begin with an element's octets.
    ensures malformed { IsErrOf result Malformed ↔ IsMalformed input.now }
{
    element_at(input)
}

/// The element whose octets are the whole input. `None` exactly where the input isn't an element's,
/// even where it begins with one.
#[tactic(auto, using(crate::proofs::WindowLaws::alone))]
pub fn one_window(input: &[u8]) -> Option<Window<'_>>
    ensures element { option_map shown result ≡ one_element input.now }
    ensures whole { IfSome result (λ w. whole_of w ≡ element_octets (shown w)) }
{
    match element_at(input) {
        Ok((window, rest)) => { if rest.is_empty() { Some(window) } else { None } }
        Err(_) => None,
    }
}

/// Of two elements neither's octets begin with the other's.
pub fn one_element_in_front()
    ensures { (s t : Element) (rest : List ℕ) → is_encodable s ≡ true → is_encodable t ≡ true → element_octets t ≡ element_octets s ++ rest → (s ≡ t) × (rest ≡ []) }
{}

/// Octets are read as one element exactly where they are that element's.
pub fn one_element_exactly()
    ensures { (b : List ℕ) (s : Element) → (one_element b ≡ Some s) ↔ ((is_encodable s ≡ true) × (b ≡ element_octets s)) }
{}

/// Octets are split into elements exactly where they are those of the elements, one after the
/// other.
pub fn elements_exactly()
    ensures { (b : List ℕ) (ss : List Element) → (split b ≡ Some ss) ↔ ((all_encodable ss ≡ true) × (b ≡ flat_map element_octets ss)) }
{}
