//! The octets of a signature: the DER of SEQUENCE { r INTEGER, s INTEGER } (RFC 3279, 2.2.3; X.690).
ghost use Rattle.std.specs.Prelude.{◌≡◌, MatchOption};
ghost use Rattle.ecdsa.specs.Signature.{read_length, read_element, is_natural, read_natural, read_last_natural, ecdsa_sig_value, number_of_octets};

/// The identifier octet of an INTEGER.
const INTEGER: u8 = 0x02;

/// The identifier octet of a SEQUENCE.
const SEQUENCE: u8 = 0x30;

/// The octets of a signature's two numbers, the highest first.
#[derive(Clone, Copy)]
pub struct SignatureOctets<'a> {
    /// The octets of r.
    pub r: &'a [u8],
    /// The octets of s.
    pub s: &'a [u8],
}

/// The length at the beginning, in its shortest form and below 256, and the octets after it.
fn read_length(octets: &[u8]) -> Option<(usize, &[u8])>
    ensures { MatchOption result (read_length octets.now ≡ None) (λ found. read_length octets.now ≡ Some (found.0, found.1.now)) }
{
    let [first, rest @ ..] = octets else {
        return None;
    };
    if *first < 0x80 {
        return Some((*first as usize, rest));
    }
    if *first != 0x81 {
        return None;
    }
    let [length, rest @ ..] = rest else {
        return None;
    };
    if *length < 0x80 {
        return None;
    }
    Some((*length as usize, rest))
}

/// The contents octets of the element at the beginning, where it has this identifier octet, and the octets after it.
#[tactic(auto, unfolding(crate::specs::Signature::read_element))]
fn read_element(identifier: u8, octets: &[u8]) -> Option<(&[u8], &[u8])>
    ensures { MatchOption result (read_element identifier octets.now ≡ None)
        (λ found. read_element identifier octets.now ≡ Some (found.0.now, found.1.now)) }
{
    let [first, rest @ ..] = octets else {
        return None;
    };
    if *first != identifier {
        return None;
    }
    let (length, rest) = read_length(rest)?;
    if length > rest.len() {
        return None;
    }
    Some((&rest[..length], &rest[length..]))
}

/// Whether these are the contents octets of an INTEGER that isn't negative.
fn is_natural(contents: &[u8]) -> bool
    ensures { result ≡ is_natural contents.now }
{
    match contents {
        [] => false,
        [first] => *first < 0x80,
        [first, second, ..] => *first < 0x80 && (*first != 0 || *second >= 0x80),
    }
}

/// The contents octets of the INTEGER at the beginning, where it isn't negative, and the octets after it.
#[tactic(auto, unfolding(crate::specs::Signature::read_natural))]
fn read_natural(octets: &[u8]) -> Option<(&[u8], &[u8])>
    ensures { MatchOption result (read_natural octets.now ≡ None)
        (λ found. read_natural octets.now ≡ Some (number_of_octets found.0.now, found.1.now)) }
{
    let (contents, rest) = read_element(INTEGER, octets)?;
    if !is_natural(contents) {
        return None;
    }
    Some((contents, rest))
}

/// The contents octets of the INTEGER at the beginning, where it isn't negative and nothing comes after it.
#[tactic(auto, unfolding(crate::specs::Signature::read_last_natural))]
fn read_last_natural(octets: &[u8]) -> Option<&[u8]>
    ensures { MatchOption result (read_last_natural octets.now ≡ None)
        (λ contents. read_last_natural octets.now ≡ Some (number_of_octets contents.now)) }
{
    let (contents, rest) = read_natural(octets)?;
    if !rest.is_empty() {
        return None;
    }
    Some(contents)
}

/// The octets of r and s in a signature's octets.
#[tactic(auto, unfolding(crate::specs::Signature::ecdsa_sig_value))]
pub fn read_signature(octets: &[u8]) -> Option<SignatureOctets<'_>>
    ensures { MatchOption result (ecdsa_sig_value octets.now ≡ None)
        (λ found. ecdsa_sig_value octets.now ≡ Some (number_of_octets found.r.now, number_of_octets found.s.now)) }
{
    let (contents, rest) = read_element(SEQUENCE, octets)?;
    if !rest.is_empty() {
        return None;
    }
    let (r, rest) = read_natural(contents)?;
    let s = read_last_natural(rest)?;
    Some(SignatureOctets { r, s })
}
