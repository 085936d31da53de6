//! Laws: names that are written are read again, and those that are read are written so.
ghost use Rattle.std.specs.Prelude.{◌≡◌, ℕ, true, List, None, Ok, length, map, refl};
ghost use Rattle.std.specs.List.{list_all};
ghost use Rattle.std.specs.Str.{is_utf8};
ghost use Rattle.rcgen_certificate.specs.SubjectAltNames.{general_name_value};
ghost use Rattle.der_tree.specs.Form.{IsDerOf};
ghost use Rattle.der_tree.specs.Grammar.{sequence_of};
ghost use Rattle.pkix_name.specs.GeneralNames.{general_name};
ghost use Rattle.pkix_name.specs.Names.{name_parts};
ghost use Rattle.pkix_name.specs.declared.name.Name.{Name};
ghost use Rattle.rcgen_text.specs.AlternativeNames.{AlternativeName, alternative_name};
ghost use Rattle.rcgen_text.specs.DnValues.{text_of, text_bytes};
ghost use Rattle.rcgen_text.specs.Names.{Entry, HasDistinctTypes, all_pushed};
ghost use Rattle.rcgen_certificate.specs.NameValues.{name_value};
ghost use Rattle.rcgen_read.specs.AlternativeNameReading.{read_names};
ghost use Rattle.rcgen_read.specs.NameReading.{read_entries, read_name};
ghost use Rattle.rcgen_read.specs.NamesReadBack.{by_arcs, has_its_characters, is_address, is_held, is_held_name, is_slice, HasDistinctOids};

use rcgen_text::{DistinguishedName, DnValue, IpAddr, OtherNameValue, SanType};

/// A name that is written is read again, each type as `DnType::from_oid` gives it, pushed in order.
/// Where no identifier occurs twice, its attributes stay as they are.
#[tactic(auto, using(crate::proofs::NamesReadBack::names_read, crate::proofs::NamesReadBack::distinct_names_read))]
pub fn names_are_read_back()
    ensures all { (es : List Entry) → list_all is_held es ≡ true → read_name (name_value es) ≡ Ok (all_pushed (map by_arcs es)) }
    ensures distinct { (es : List Entry) → list_all is_held es ≡ true → HasDistinctOids (name_value es)
        → read_name (name_value es) ≡ Ok (map by_arcs es) }
{}

/// A name that is read is written as it was, where no identifier occurs twice in it. So are its
/// attributes before they are pushed, whichever they are.
pub fn names_are_written_back()
    ensures name { (n : Name) (es : List Entry) → read_name n ≡ Ok es → HasDistinctOids n → name_value es ≡ n }
    ensures attributes { (n : Name) (es : List Entry) → read_entries (name_parts n) ≡ Ok es → name_value es ≡ n }
{}

/// Attributes of different types stay as they are when they are pushed in order.
#[tactic(auto, using(crate::proofs::DistinctNames::kept))]
pub fn distinct_names_are_kept()
    ensures { (es : List Entry) → HasDistinctTypes es → all_pushed es ≡ es }
{}

/// Alternative names that are written are read again.
#[tactic(auto, using(crate::proofs::AlternativeNamesReadBack::names_read))]
pub fn alternative_names_are_read_back()
    ensures { (ns : List AlternativeName) (contents : List ℕ) → list_all is_held_name ns ≡ true
        → IsDerOf (sequence_of general_name 0 None refl) (map general_name_value ns) contents → read_names contents ≡ Ok ns }
{}

/// A law: a slice has fewer than 2^64 octets.
fn slice_is_short(octets: &[u8])
    ensures { is_slice octets.now ≡ true }
{
    let _length = octets.len();
}

/// A law: a text is UTF-8, and has fewer than 2^64 octets.
#[tactic(auto, using(crate::proofs::Utf8Texts::is_utf8_text))]
fn text_is_utf8(text: &str)
    ensures utf8 { is_utf8 text.now ≡ true }
    ensures short { is_slice text.now ≡ true }
{
    slice_is_short(text.as_bytes());
}

/// A law: the value of an attribute has characters of its type alone.
fn value_is_held(value: &DnValue)
    ensures characters { has_its_characters (text_of value.now) ≡ true }
    ensures short { is_slice (text_bytes (text_of value.now)) ≡ true }
{
    match value {
        DnValue::BmpString(text) => slice_is_short(text.as_bytes()),
        DnValue::Ia5String(text) => slice_is_short(text.as_str().as_bytes()),
        DnValue::PrintableString(text) => slice_is_short(text.as_str().as_bytes()),
        DnValue::TeletexString(text) => slice_is_short(text.as_str().as_bytes()),
        DnValue::UniversalString(text) => slice_is_short(text.as_bytes()),
        DnValue::Utf8String(text) => text_is_utf8(text.as_str()),
    }
}

/// A law: the attributes of a name are such as are read back.
#[tactic(auto, using(crate::proofs::HeldNames::entries_more))]
pub(crate) fn name_is_held(name: &DistinguishedName)
    ensures { list_all is_held name.now ≡ true }
{
    for entry in name.entries() {
        value_is_held(&entry.1);
    }
}

/// A law: an array has as many octets as its type says.
fn array_has_all<const N: usize>(octets: &[u8; N])
    ensures { length octets.now ≡ N }
{
    let _octets = octets.as_slice();
}

/// A law: an address has 4 octets or 16.
fn address_is_held(address: &IpAddr)
    ensures { is_address address.now ≡ true }
{
    match address {
        IpAddr::V4(octets) => array_has_all(octets),
        IpAddr::V6(octets) => array_has_all(octets),
    }
}

/// A law: an alternative name is such as is read back.
fn san_is_held(name: &SanType)
    ensures { is_held_name (alternative_name name.now) ≡ true }
{
    match name {
        SanType::Rfc822Name(_) => (),
        SanType::DnsName(_) => (),
        SanType::URI(_) => (),
        SanType::IpAddress(address) => address_is_held(address),
        SanType::OtherName((_, OtherNameValue::Utf8String(text))) => text_is_utf8(text.as_str()),
    }
}

/// A law: so are all of them.
#[tactic(auto, using(crate::proofs::HeldNames::names_more))]
pub(crate) fn sans_are_held(names: &[SanType])
    ensures { list_all is_held_name (map alternative_name names.now) ≡ true }
{
    for name in names {
        san_is_held(name);
    }
}
