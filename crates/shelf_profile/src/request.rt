//! The order of a request for a certificate (RFC 2986).
ghost use Rattle.std.specs.Prelude.{◌≡◌, [], IfOk};
ghost use Rattle.toml_format.specs.ReaderView.{entries_view, seen};
ghost use Rattle.shelf_profile.specs.Request.{request_of, request_values};

use crate::ca::OrderCa;
use crate::certificate::has_name;
use crate::preset::{Preset, preset_ca, preset_key_usages, preset_purposes};
use crate::signing::Signing;
use crate::subject_name::{NameParts, SubjectName};
use rcgen_text::KeyUsagePurpose;
use std::alloc::{AllocError, Global};
use toml_format::{
    AltName, CertificateContent, Constraints, Entries, ExtensionEntry, KeyId, List, Purpose,
    Reason, TableReader, Text,
};

/// What a request is to ask for.
#[derive(Drop)]
pub struct RequestOrder {
    /// How it is signed, by the subject's key.
    pub signing: Signing,
    /// A weak key is accepted.
    pub weak_key: bool,
    /// The parts of the subject's name, where it is said so; `content` has `Name::Default` then.
    pub parts: Option<NameParts>,
    /// What it asks for: the subject, but where it is said in parts, and nothing that a request has no
    /// place for.
    pub content: CertificateContent,
}

/// The values at the keys of an order, in order.
pub type RequestKeys = (
    (
        (
            (
                (((((), Signing), SubjectName), List<AltName>), OrderCa),
                List<KeyUsagePurpose>,
            ),
            List<Purpose>,
        ),
        List<ExtensionEntry>,
    ),
    bool,
);

/// Reads the keys of an order whose defaults are those of a preset.
pub(crate) fn request_keys<'a>(
    alloc: Global,
    preset: Option<Preset>,
    entries: Entries<'a>,
) -> Result<TableReader<'a, RequestKeys>, AllocError>
    ensures { IfOk result (λ reader. seen reader ≡ (request_values preset).read (entries_view entries.entry)) }
{
    let key_usages = preset_key_usages(alloc, preset)?;
    let purposes = preset_purposes(alloc, preset)?;
    let reader = TableReader::new(entries)
        .and(alloc)?
        .and(alloc)?
        .listed(alloc, "alt_names")?
        .defaulted(alloc, "ca", preset_ca(preset))?
        .defaulted(alloc, "key_usages", key_usages)?
        .defaulted(alloc, "extended_key_usages", purposes)?
        .listed(alloc, "extensions")?
        .defaulted(alloc, "weak_key", false)?;
    Ok(reader)
}

/// The order that the values at its keys are.
#[tactic(auto, unfolding(crate::specs::Request::request_of))]
pub(crate) fn request_of(
    no_points: List<List<Text>>,
    values: RequestKeys,
) -> Result<RequestOrder, Reason>
    requires { no_points ≡ [] }
    ensures { result ≡ request_of values }
{
    let (values, weak_key) = values;
    let (values, extensions) = values;
    let (values, extended_key_usages) = values;
    let (values, key_usages) = values;
    let (values, ca) = values;
    let ca = ca.into_is_ca();
    let (values, alt_names) = values;
    let (((), signing), subject) = values;
    has_name(false, &subject)?;
    let SubjectName { name, parts } = subject;
    Ok(RequestOrder {
        signing,
        weak_key,
        parts,
        content: CertificateContent {
            name,
            not_before: None,
            not_after: None,
            serial: None,
            alt_names,
            ca,
            key_usages,
            extended_key_usages,
            constraints: Constraints {
                permitted: None,
                excluded: None,
            },
            crl_points: no_points,
            extensions,
            authority_key_id: false,
            key_id: KeyId::Sha256,
        },
    })
}
