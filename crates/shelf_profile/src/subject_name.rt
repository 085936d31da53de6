//! The name of a subject in an order.
ghost use Rattle.std.specs.Prelude.{◌≡◌, ◌++◌, codes, IfOk};
ghost use Rattle.std.specs.Option.{option_map};
ghost use Rattle.toml_format.specs.Attribute.{attribute};
ghost use Rattle.toml_format.specs.Values.{array_of, text_as};
ghost use Rattle.shelf_profile.specs.SubjectName.{attribute_or, country_in, plain_name, has_no_part, name_of_parts, subject_attribute, subject_name, subject_name_values};
ghost use Rattle.name_parts.specs.Parts.{relative_name};
ghost use Rattle.pkix_name.specs.declared.name.Name.TheVariants.{RdnSequence};

use der_tree::SequenceOf;
use name_parts::relative_name;
use pkix_name::{Name as DirectoryName, RelativeDistinguishedName};
use std::alloc::{AllocError, Global};
use std::marker::Model;
use toml::Value;
use toml_format::{
    Attribute, Entries, FromTable, FromText, FromValue, List, Name, Reason, TableReader, Text,
    text_as,
};

/// An attribute as `TYPE=value` or `TYPE:KIND=value`. A country without a kind is a PrintableString where
/// it has only that string's characters (RFC 5280, A.1).
pub struct SubjectAttribute {
    attribute: Attribute,
}

impl Model for SubjectAttribute {
    ghost use Rattle.rcgen_text.specs.Names.{Entry};

    ghost Value = { Entry };

    ghost view = { λ a. a.attribute };
}

impl Drop for SubjectAttribute {
    fn drop(self) {
        let SubjectAttribute { attribute: _ } = self;
    }
}

impl SubjectAttribute {
    fn into_attribute(self) -> Attribute
        ensures { result ≡ self }
    {
        let SubjectAttribute { attribute } = self;
        attribute
    }
}

/// The country of a text that gives one without a kind.
#[tactic(auto, using(crate::proofs::Countries::country_found), unfolding(crate::specs::SubjectName::country_in))]
fn country_in(text: &str) -> Option<&str>
    ensures { option_map (λ country. country.now) result ≡ country_in text.now }
{
    text.strip_prefix("C=")
}

fn printable_country(alloc: Global, country: &str) -> Result<Option<Attribute>, AllocError>
    ensures { IfOk result (λ found. found ≡ attribute (codes "C:printable=" ++ country.now)) }
{
    let mut text = String::from_str(alloc, "C:printable=")?;
    text.push_str(country)?;
    Attribute::from_text(alloc, text.as_str())
}

/// The attribute, or else the one that the text is by itself.
fn attribute_or(
    alloc: Global,
    found: Option<Attribute>,
    text: &str,
) -> Result<Option<Attribute>, AllocError>
    ensures { IfOk result (λ one. one ≡ attribute_or found text.now) }
{
    match found {
        Some(attribute) => Ok(Some(attribute)),
        None => Attribute::from_text(alloc, text),
    }
}

#[tactic(auto, unfolding(crate::specs::SubjectName::subject_attribute))]
fn subject_attribute(alloc: Global, text: &str) -> Result<Option<Attribute>, AllocError>
    ensures { IfOk result (λ found. found ≡ subject_attribute text.now) }
{
    match country_in(text) {
        Some(country) => {
            let found = printable_country(alloc, country)?;
            attribute_or(alloc, found, text)
        }
        None => Attribute::from_text(alloc, text),
    }
}

impl FromText for SubjectAttribute {
    ghost from_text = { subject_attribute };

    fn from_text(alloc: Global, text: &str) -> Result<Option<SubjectAttribute>, AllocError> {
        match subject_attribute(alloc, text)? {
            Some(attribute) => Ok(Some(SubjectAttribute { attribute })),
            None => Ok(None),
        }
    }
}

impl FromValue for SubjectAttribute {
    ghost format = { text_as subject_attribute };

    fn from_value(
        alloc: Global,
        value: &Value,
    ) -> Result<Result<SubjectAttribute, Reason>, AllocError> {
        text_as(alloc, value)
    }
}

/// The attributes of a name, in order.
pub struct SubjectAttributes {
    attributes: List<Attribute>,
}

impl Model for SubjectAttributes {
    ghost use Rattle.std.specs.Prelude.{List};
    ghost use Rattle.rcgen_text.specs.Names.{Entry};

    ghost Value = { List Entry };

    ghost view = { λ a. a.attributes };
}

impl Drop for SubjectAttributes {
    fn drop(self) {
        let SubjectAttributes { attributes: _ } = self;
    }
}

impl SubjectAttributes {
    fn into_list(self) -> List<Attribute>
        ensures { result ≡ self }
    {
        let SubjectAttributes { attributes } = self;
        attributes
    }
}

fn attributes_of(alloc: Global, list: List<SubjectAttribute>) -> Result<List<Attribute>, AllocError>
    ensures { IfOk result (λ attributes. attributes ≡ list) }
{
    let mut attributes = Vec::new(alloc);
    for attribute in list.into_vec() {
        attributes.push(attribute.into_attribute())?;
    }
    Ok(List::from_vec(attributes))
}

impl FromValue for SubjectAttributes {
    ghost format = { array_of (text_as subject_attribute) };

    fn from_value(
        alloc: Global,
        value: &Value,
    ) -> Result<Result<SubjectAttributes, Reason>, AllocError> {
        let list: Result<List<SubjectAttribute>, Reason> = List::from_value(alloc, value)?;
        match list {
            Ok(list) => {
                let attributes = attributes_of(alloc, list)?;
                Ok(Ok(SubjectAttributes { attributes }))
            }
            Err(reason) => Ok(Err(reason)),
        }
    }
}

/// A part of a name, in the form of RFC 4514.
pub struct NamePart {
    part: RelativeDistinguishedName,
}

impl Model for NamePart {
    ghost use Rattle.pkix_name.specs.declared.name.RelativeDistinguishedName.{RelativeDistinguishedName};

    ghost Value = { RelativeDistinguishedName };

    ghost view = { λ p. p.part };
}

impl Drop for NamePart {
    fn drop(self) {
        let NamePart { part: _ } = self;
    }
}

impl NamePart {
    fn into_part(self) -> RelativeDistinguishedName
        ensures { result ≡ self }
    {
        let NamePart { part } = self;
        part
    }
}

impl FromText for NamePart {
    ghost from_text = { relative_name };

    fn from_text(alloc: Global, text: &str) -> Result<Option<NamePart>, AllocError> {
        match relative_name(alloc, text.as_bytes())? {
            Some(part) => Ok(Some(NamePart { part })),
            None => Ok(None),
        }
    }
}

impl FromValue for NamePart {
    ghost format = { text_as relative_name };

    fn from_value(alloc: Global, value: &Value) -> Result<Result<NamePart, Reason>, AllocError> {
        text_as(alloc, value)
    }
}

/// The parts of a name, from the root down, each in the form of RFC 4514.
pub struct NameParts {
    parts: SequenceOf<RelativeDistinguishedName>,
}

impl Model for NameParts {
    ghost use Rattle.std.specs.Prelude.{List};
    ghost use Rattle.pkix_name.specs.declared.name.RelativeDistinguishedName.{RelativeDistinguishedName};

    ghost Value = { List RelativeDistinguishedName };

    ghost view = { λ p. p.parts };
}

impl Drop for NameParts {
    fn drop(self) {
        let NameParts { parts: _ } = self;
    }
}

impl NameParts {
    /// The name, without a copy.
    pub fn into_name(self) -> DirectoryName
        ensures { result ≡ RdnSequence self }
    {
        let NameParts { parts } = self;
        DirectoryName::RdnSequence(parts)
    }
}

fn parts_of(
    alloc: Global,
    list: List<NamePart>,
) -> Result<SequenceOf<RelativeDistinguishedName>, AllocError>
    ensures { IfOk result (λ parts. parts ≡ list) }
{
    let mut parts = Vec::new(alloc);
    for part in list.into_vec() {
        parts.push(part.into_part())?;
    }
    Ok(SequenceOf::from_vec(parts))
}

impl FromValue for NameParts {
    ghost format = { array_of (text_as relative_name) };

    fn from_value(alloc: Global, value: &Value) -> Result<Result<NameParts, Reason>, AllocError> {
        let list: Result<List<NamePart>, Reason> = List::from_value(alloc, value)?;
        match list {
            Ok(list) => {
                let parts = parts_of(alloc, list)?;
                Ok(Ok(NameParts { parts }))
            }
            Err(reason) => Ok(Err(reason)),
        }
    }
}

/// A name, as `common_name` or `subject` says it.
fn plain_name(common_name: Option<Text>, subject: Option<SubjectAttributes>) -> Result<Name, Reason>
    ensures { result ≡ plain_name common_name subject }
{
    match common_name {
        Some(common_name) => match subject {
            Some(_) => Err(Reason::WrongValue),
            None => Ok(Name::CommonName(common_name)),
        },
        None => match subject {
            Some(subject) => Ok(Name::Subject(subject.into_list())),
            None => Ok(Name::Default),
        },
    }
}

/// The name of a subject, as one of `common_name`, `subject` and `distinguished_name` says it;
/// two of them together are `Reason::WrongValue`, and so is `distinguished_name` without a part.
#[derive(Drop)]
pub struct SubjectName {
    /// The name where `common_name` or `subject` says it.
    pub name: Name,
    /// The parts of the name where `distinguished_name` says it, at least one; `name` is
    /// `Name::Default` then.
    pub parts: Option<NameParts>,
}

fn has_no_part(parts: &NameParts) -> bool
    ensures { result ≡ has_no_part parts.now }
{
    parts.parts.as_slice().is_empty()
}

/// The name of these parts, beside which nothing else says one.
fn name_of_parts(name: Name, parts: NameParts) -> Result<SubjectName, Reason>
    ensures { result ≡ name_of_parts name parts }
{
    if has_no_part(&parts) {
        return Err(Reason::WrongValue);
    }
    match name {
        Name::Default => Ok(SubjectName {
            name,
            parts: Some(parts),
        }),
        Name::CommonName(_) => Err(Reason::WrongValue),
        Name::Subject(_) => Err(Reason::WrongValue),
    }
}

impl FromTable for SubjectName {
    type Keys = (
        (((), Option<Text>), Option<SubjectAttributes>),
        Option<NameParts>,
    );

    ghost keys = { subject_name_values };

    ghost of_keys = { subject_name };

    #[tactic(auto, unfolding(crate::specs::SubjectName::subject_name_values))]
    fn keys<'a>(
        alloc: Global,
        entries: Entries<'a>,
    ) -> Result<TableReader<'a, Self::Keys>, AllocError> {
        let reader = TableReader::new(entries)
            .optional(alloc, "common_name")?
            .optional(alloc, "subject")?
            .optional(alloc, "distinguished_name")?;
        Ok(reader)
    }

    #[tactic(auto, unfolding(crate::specs::SubjectName::subject_name))]
    fn of_keys(values: Self::Keys) -> Result<SubjectName, Reason> {
        let ((((), common_name), subject), parts) = values;
        let name = plain_name(common_name, subject)?;
        match parts {
            Some(parts) => name_of_parts(name, parts),
            None => Ok(SubjectName { name, parts: None }),
        }
    }
}
