//! The keys of orders and questions, for messages.
use crate::value_kind::{Single, ValueKind};
use shelf_profile::OrderKind;
use std::alloc::{AllocError, Global};

/// Which document it is.
#[derive(Clone, Copy, Debug, PartialEq, Eq)]
pub enum OrderForm {
    /// An order of what is issued.
    Issuing,
    /// A question about a certification path.
    Path,
}

/// A key of a table, whether it is required, and what it takes.
#[derive(Clone, Copy, Debug)]
pub(crate) struct Key {
    pub(crate) name: &'static str,
    pub(crate) is_required: bool,
    pub(crate) kind: ValueKind,
}

/// A key that may hold one value.
fn may(name: &'static str, single: Single) -> Key {
    Key {
        name,
        is_required: false,
        kind: ValueKind::One(single),
    }
}

/// A key that must hold one value.
fn must(name: &'static str, single: Single) -> Key {
    Key {
        name,
        is_required: true,
        kind: ValueKind::One(single),
    }
}

/// A key that must hold more.
fn must_more(name: &'static str, kind: ValueKind) -> Key {
    Key {
        name,
        is_required: true,
        kind,
    }
}

/// A key that may hold more.
fn more(name: &'static str, kind: ValueKind) -> Key {
    Key {
        name,
        is_required: false,
        kind,
    }
}

/// The keys that each order has.
fn all_keys(alloc: Global) -> Result<Vec<Key>, AllocError> {
    Ok(vec![in alloc;
        must("kind", Single::Kind),
        may("digest", Single::Digest),
        may("padding", Single::Padding),
    ]?)
}

/// Adds the keys of what certificates and requests say.
fn push_subject_keys(keys: &mut Vec<Key>) -> Result<(), AllocError> {
    keys.push(may("profile", Single::Preset))?;
    keys.push(may("common_name", Single::Text))?;
    keys.push(more("subject", ValueKind::Many(Single::SubjectAttribute)))?;
    keys.push(more("alt_names", ValueKind::Many(Single::AltName)))?;
    keys.push(may("ca", Single::Ca))?;
    keys.push(more("key_usages", ValueKind::Many(Single::Usage)))?;
    keys.push(more("extended_key_usages", ValueKind::Many(Single::Purpose)))?;
    keys.push(more("extensions", ValueKind::Extensions))?;
    keys.push(may("weak_key", Single::Switch))?;
    keys.push(more("distinguished_name", ValueKind::Many(Single::NamePart)))?;
    Ok(())
}

/// Adds the keys that certificates alone have.
fn push_certificate_keys(keys: &mut Vec<Key>) -> Result<(), AllocError> {
    keys.push(more("take", ValueKind::Many(Single::Take)))?;
    keys.push(may("unchecked_request", Single::Switch))?;
    keys.push(more("ignored_extensions", ValueKind::Many(Single::ExtensionId)))?;
    keys.push(more("allow", ValueKind::Many(Single::Subtree)))?;
    keys.push(must("start", Single::Time))?;
    keys.push(may("days", Single::Days))?;
    keys.push(may("not_after", Single::Time))?;
    keys.push(must("serial", Single::Serial))?;
    keys.push(more("permitted", ValueKind::Many(Single::Subtree)))?;
    keys.push(more("excluded", ValueKind::Many(Single::Subtree)))?;
    keys.push(more("crl_points", ValueKind::Lists(Single::Text)))?;
    keys.push(more("ocsp", ValueKind::Many(Single::Text)))?;
    keys.push(more("ca_issuers", ValueKind::Many(Single::Text)))?;
    keys.push(more("policies", ValueKind::Many(Single::Arcs)))?;
    keys.push(may("authority_key_id", Single::Switch))?;
    keys.push(may("key_id", Single::KeyId))?;
    keys.push(may("copy_cn", Single::Switch))?;
    Ok(())
}

/// Adds the keys that revocation lists alone have: delta lists, and complete ones.
fn push_list_keys(keys: &mut Vec<Key>, is_delta: bool) -> Result<(), AllocError> {
    let reason = if is_delta {
        Single::DeltaReason
    } else {
        Single::Reason
    };
    keys.push(must("this_update", Single::Time))?;
    keys.push(must("next_update", Single::Time))?;
    keys.push(must("number", Single::CrlNumber))?;
    keys.push(may("base", Single::CrlNumber))?;
    keys.push(may("key_id", Single::KeyId))?;
    keys.push(more("points", ValueKind::Many(Single::Text)))?;
    keys.push(may("scope", Single::Scope))?;
    keys.push(more("revoked", ValueKind::Revoked(reason)))?;
    Ok(())
}

/// Adds the keys that attribute certificates alone have.
fn push_attribute_keys(keys: &mut Vec<Key>) -> Result<(), AllocError> {
    keys.push(must_more("holder", ValueKind::Holder))?;
    keys.push(must("serial", Single::Serial))?;
    keys.push(must("start", Single::Time))?;
    keys.push(may("days", Single::Days))?;
    keys.push(may("not_after", Single::Time))?;
    keys.push(must_more("attributes", ValueKind::Attributes))?;
    keys.push(may("authority_key_id", Single::Switch))?;
    Ok(())
}

/// The keys of an order; those of a delta list have other values.
pub(crate) fn order_keys(
    alloc: Global,
    kind: OrderKind,
    is_delta: bool,
) -> Result<Vec<Key>, AllocError> {
    let mut keys = all_keys(alloc)?;
    match kind {
        OrderKind::Certificate => {
            push_subject_keys(&mut keys)?;
            push_certificate_keys(&mut keys)?;
        }
        OrderKind::Request => push_subject_keys(&mut keys)?,
        OrderKind::List => push_list_keys(&mut keys, is_delta)?,
        OrderKind::Attribute => push_attribute_keys(&mut keys)?,
    }
    Ok(keys)
}

/// The keys of a question about a certification path.
pub(crate) fn path_keys(alloc: Global) -> Result<Vec<Key>, AllocError> {
    Ok(vec![in alloc;
        must("at", Single::Instant),
        more("policies", ValueKind::Many(Single::Identifier)),
        may("explicit_policy", Single::Switch),
        may("inhibit_policy_mapping", Single::Switch),
        may("inhibit_any_policy", Single::Switch),
        may("revocation", Single::Switch),
    ]?)
}

/// The keys of an extension.
pub(crate) fn extension_keys(alloc: Global) -> Result<Vec<Key>, AllocError> {
    Ok(vec![in alloc;
        must("oid", Single::Arcs),
        must("content", Single::Hex),
        may("critical", Single::Switch),
    ]?)
}

/// The keys of who holds attributes.
pub(crate) fn holder_keys(alloc: Global) -> Result<Vec<Key>, AllocError> {
    Ok(vec![in alloc;
        may("common_name", Single::Text),
        more("subject", ValueKind::Many(Single::Attribute)),
        must("serial", Single::Serial),
    ]?)
}

/// The keys of an attribute.
pub(crate) fn attribute_keys(alloc: Global) -> Result<Vec<Key>, AllocError> {
    Ok(vec![in alloc; must("oid", Single::Arcs), must("values", Single::Hex)]?)
}

/// The keys of an entry of a revocation list, with such a reason.
pub(crate) fn revoked_keys(alloc: Global, reason: Single) -> Result<Vec<Key>, AllocError> {
    Ok(vec![in alloc;
        must("serial", Single::Serial),
        must("time", Single::Time),
        may("reason", reason),
        may("invalid", Single::Time),
    ]?)
}
