//! What a request may decide.
ghost use Rattle.std.specs.Prelude.{◌≡◌, false, IfOk};
ghost use Rattle.std.specs.List.{list_any};
ghost use Rattle.toml_format.specs.Values.{text_as};
ghost use Rattle.shelf_profile.specs.RequestUse.{is_key_id, is_names, is_purposes, is_subject, request_use_of, request_use_values, take};

use crate::extension_id::ExtensionId;
use std::alloc::{AllocError, Global};
use toml::Value;
use toml_format::{
    Entries, FromTable, FromText, FromValue, List, Reason, Subtree, TableReader, text_as,
};

/// A part of a request that is in the certificate as the request asks for it. That the subject is
/// an authority isn't one of them.
#[derive(Clone, Copy, Debug, PartialEq, Eq)]
pub enum Take {
    /// The subject's name.
    Subject,
    /// The alternative names.
    AltNames,
    /// The purposes of the key.
    ExtendedKeyUsages,
    /// The identifier of the key.
    KeyId,
}

impl FromText for Take {
    ghost from_text = { take };

    #[tactic(auto, unfolding(crate::specs::RequestUse::take))]
    fn from_text(_alloc: Global, text: &str) -> Result<Option<Take>, AllocError> {
        Ok(match text {
            "subject" => Some(Take::Subject),
            "alt_names" => Some(Take::AltNames),
            "extended_key_usages" => Some(Take::ExtendedKeyUsages),
            "key_id" => Some(Take::KeyId),
            _ => None,
        })
    }
}

impl FromValue for Take {
    ghost format = { text_as take };

    fn from_value(alloc: Global, value: &Value) -> Result<Result<Take, Reason>, AllocError> {
        text_as(alloc, value)
    }
}

/// What a request may decide, whether it is taken without a look at its signature, and what it may ask
/// for besides.
#[derive(Drop)]
pub struct RequestUse {
    /// The subject's name is the request's.
    pub takes_subject: bool,
    /// The alternative names are the request's.
    pub takes_alt_names: bool,
    /// The purposes of the key are the request's.
    pub takes_purposes: bool,
    /// The identifier of the key is the request's.
    pub takes_key_id: bool,
    /// The request is taken though nobody looked at its signature.
    pub is_unchecked: bool,
    /// The extensions that the request asks for and that are passed over, by their identifiers; by
    /// default none.
    pub ignored_extensions: List<ExtensionId>,
    /// The subtrees in which each alternative name that is taken must lie; by default it may be any.
    pub allowed: Option<List<Subtree>>,
}

fn takes_subject(parts: &[Take]) -> bool
    ensures { result ≡ list_any is_subject parts.now }
{
    parts.iter().any(|part| matches!(part, Take::Subject))
}

fn takes_alt_names(parts: &[Take]) -> bool
    ensures { result ≡ list_any is_names parts.now }
{
    parts.iter().any(|part| matches!(part, Take::AltNames))
}

fn takes_purposes(parts: &[Take]) -> bool
    ensures { result ≡ list_any is_purposes parts.now }
{
    parts
        .iter()
        .any(|part| matches!(part, Take::ExtendedKeyUsages))
}

fn takes_key_id(parts: &[Take]) -> bool
    ensures { result ≡ list_any is_key_id parts.now }
{
    parts.iter().any(|part| matches!(part, Take::KeyId))
}

impl FromTable for RequestUse {
    type Keys = (
        ((((), List<Take>), bool), List<ExtensionId>),
        Option<List<Subtree>>,
    );

    ghost keys = { request_use_values };

    ghost of_keys = { request_use_of };

    #[tactic(auto, unfolding(crate::specs::RequestUse::request_use_values))]
    fn keys<'a>(
        alloc: Global,
        entries: Entries<'a>,
    ) -> Result<TableReader<'a, Self::Keys>, AllocError> {
        let reader = TableReader::new(entries)
            .listed(alloc, "take")?
            .defaulted(alloc, "unchecked_request", false)?
            .listed(alloc, "ignored_extensions")?
            .optional(alloc, "allow")?;
        Ok(reader)
    }

    #[tactic(auto, unfolding(crate::specs::RequestUse::request_use_of))]
    fn of_keys(values: Self::Keys) -> Result<RequestUse, Reason> {
        let (((((), parts), is_unchecked), ignored_extensions), allowed) = values;
        Ok(RequestUse {
            takes_subject: takes_subject(parts.as_slice()),
            takes_alt_names: takes_alt_names(parts.as_slice()),
            takes_purposes: takes_purposes(parts.as_slice()),
            takes_key_id: takes_key_id(parts.as_slice()),
            is_unchecked,
            ignored_extensions,
            allowed,
        })
    }
}
