//! How many octets are compared of a name.
ghost use Rattle.std.specs.Prelude.{◌≡◌, ◌^◌, ◌+◌, ◌-◌, min};
ghost use Rattle.std.specs.List.{sum_by};
ghost use Rattle.path_names.specs.Sizes.{attribute_size, directory_size, name_size, names_size, part_size};

use pkix_name::{AttributeTypeAndValue, GeneralName, Name, RelativeDistinguishedName};

#[tactic(auto, unfolding(crate::specs::Sizes::attribute_size))]
fn attribute_size(attribute: &AttributeTypeAndValue) -> usize
    ensures { result ≡ min (attribute_size attribute.now) (2 ^ 64 - 1) }
{
    let value = attribute.value.as_bytes().len();
    value.saturating_add(attribute.attr_type.arcs().len())
}

#[tactic(auto, using(crate::proofs::Sizes::sum_more))]
fn attributes_size(attributes: &[AttributeTypeAndValue]) -> usize
    ensures { result ≡ min (sum_by attribute_size attributes.now) (2 ^ 64 - 1) }
{
    let mut size: usize = 0;
    for attribute in attributes {
        size = size.saturating_add(attribute_size(attribute));
    }
    size
}

/// How many octets are compared of a part of a name, plus one, at most `usize::MAX`: each attribute is
/// compared with each of another part (RFC 5280, 7.1).
#[tactic(auto, using(crate::proofs::Sizes::scaled), unfolding(crate::specs::Sizes::part_size))]
pub fn part_size(part: &RelativeDistinguishedName) -> usize
    ensures { result ≡ min (part_size part.now) (2 ^ 64 - 1) }
{
    let attributes = part.0.as_slice();
    let size = attributes.len().saturating_mul(attributes_size(attributes));
    size.saturating_add(1)
}

#[tactic(auto, using(crate::proofs::Sizes::sum_more))]
fn parts_size(parts: &[RelativeDistinguishedName]) -> usize
    ensures { result ≡ min (1 + sum_by part_size parts.now) (2 ^ 64 - 1) }
{
    let mut size: usize = 1;
    for part in parts {
        size = size.saturating_add(part_size(part));
    }
    size
}

/// How many octets are compared of a name in the directory, plus one, at most `usize::MAX`.
#[tactic(auto, unfolding(crate::specs::Sizes::directory_size))]
pub fn directory_size(name: &Name) -> usize
    ensures { result ≡ min (directory_size name.now) (2 ^ 64 - 1) }
{
    let Name::RdnSequence(parts) = name;
    parts_size(parts.as_slice())
}

/// How many octets are compared of a name, plus one, at most `usize::MAX`.
#[tactic(auto, unfolding(crate::specs::Sizes::name_size))]
pub fn name_size(name: &GeneralName) -> usize
    ensures { result ≡ min (name_size name.now) (2 ^ 64 - 1) }
{
    match name {
        GeneralName::DirectoryName(name) => directory_size(name),
        GeneralName::DnsName(text) => text.as_bytes().len().saturating_add(1),
        GeneralName::Rfc822Name(text) => text.as_bytes().len().saturating_add(1),
        GeneralName::Uri(text) => text.as_bytes().len().saturating_add(1),
        GeneralName::IpAddress(octets) => octets.as_slice().len().saturating_add(1),
        GeneralName::OtherName(other) => other.value.as_bytes().len().saturating_add(1),
        GeneralName::RegisteredId(id) => id.arcs().len().saturating_add(1),
        _ => 1,
    }
}

/// The same of all names.
#[tactic(auto, using(crate::proofs::Sizes::sum_more), unfolding(crate::specs::Sizes::names_size))]
pub fn names_size(names: &[GeneralName]) -> usize
    ensures { result ≡ min (names_size names.now) (2 ^ 64 - 1) }
{
    let mut size: usize = 0;
    for name in names {
        size = size.saturating_add(name_size(name));
    }
    size
}
