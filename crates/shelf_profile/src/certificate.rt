//! The order of a certificate.
ghost use Rattle.std.specs.Prelude.{◌≡◌, [], IfOk};
ghost use Rattle.toml_format.specs.ReaderView.{entries_view, seen};
ghost use Rattle.shelf_profile.specs.Certificate.{certificate_of, certificate_values, days_or_time, has_name, is_said, said_unless_taken};

use crate::access::Access;
use crate::ca::OrderCa;
use crate::preset::{Preset, has_authority_key_id, preset_ca, preset_key_usages};
use crate::request_use::RequestUse;
use crate::serial::SerialOctets;
use crate::signing::Signing;
use crate::subject_name::{NameParts, SubjectName};
use crate::validity::{Days, End, Validity};
use rcgen_text::KeyUsagePurpose;
use std::alloc::{AllocError, Global};
use toml_format::{
    AltName, CertificateContent, Constraints, Entries, ExtensionEntry, KeyId, List, Name, Purpose,
    Reason, TableReader, Text, Timestamp,
};

/// What a certificate is to say, for a key that the subject gives or asks for.
#[derive(Drop)]
pub struct CertificateOrder {
    /// How it is signed.
    pub signing: Signing,
    /// What the subject's request may decide.
    pub request: RequestUse,
    /// How many days it is valid, exactly where `content` doesn't say until when.
    pub days: Option<Days>,
    /// Where more is found about the issuer, and its policies.
    pub access: Access,
    /// A weak key of the subject is accepted.
    pub weak_key: bool,
    /// Each common name of the subject is a host's, and is among the alternative names.
    pub copy_cn: bool,
    /// The parts of the subject's name, where the order gives them; `content` has `Name::Default` then.
    pub parts: Option<NameParts>,
    /// What it contains: the start of its validity, the serial number and, unless it is the request's or
    /// given in parts, the subject; no alternative name where these are the request's.
    pub content: CertificateContent,
}

/// The values at the keys for how it is signed, the subject, the validity period and the serial number.
pub type SubjectKeys = (
    (
        (((((), Signing), RequestUse), Validity), SerialOctets),
        SubjectName,
    ),
    Option<List<AltName>>,
);

/// The values at the keys for the use of the subject's key, after the values `T` of the keys before.
pub type UsageKeys<T> = (((T, OrderCa), List<KeyUsagePurpose>), Option<List<Purpose>>);

/// The values at the keys for the other extensions, after the values `T` of the keys before.
pub type ExtensionKeys<T> = (
    (
        (((T, Constraints), List<List<Text>>), Access),
        List<ExtensionEntry>,
    ),
    bool,
);

/// The values at the keys of an order, in order.
pub type CertificateKeys = (((ExtensionKeys<UsageKeys<SubjectKeys>>, KeyId), bool), bool);

/// Reads the keys of an order whose defaults are those of a preset.
pub(crate) fn certificate_keys<'a>(
    alloc: Global,
    preset: Option<Preset>,
    entries: Entries<'a>,
) -> Result<TableReader<'a, CertificateKeys>, AllocError>
    ensures { IfOk result (λ reader. seen reader ≡ (certificate_values preset).read (entries_view entries.entry)) }
{
    let key_usages = preset_key_usages(alloc, preset)?;
    let reader = TableReader::new(entries)
        .and(alloc)?
        .and(alloc)?
        .and(alloc)?
        .required(alloc, "serial")?
        .and(alloc)?
        .optional(alloc, "alt_names")?
        .defaulted(alloc, "ca", preset_ca(preset))?
        .defaulted(alloc, "key_usages", key_usages)?
        .optional(alloc, "extended_key_usages")?
        .and(alloc)?
        .listed(alloc, "crl_points")?
        .and(alloc)?
        .listed(alloc, "extensions")?
        .defaulted(alloc, "authority_key_id", has_authority_key_id(preset))?
        .defaulted(alloc, "key_id", KeyId::Sha256)?
        .defaulted(alloc, "weak_key", false)?
        .defaulted(alloc, "copy_cn", false)?;
    Ok(reader)
}

/// What is given, or the default; what is taken may not be given too.
fn said_unless_taken<T: Drop>(
    is_taken: bool,
    said: Option<List<T>>,
    default: List<T>,
) -> Result<List<T>, Reason>
    ensures { result ≡ said_unless_taken is_taken said default }
{
    match said {
        Some(said) => if is_taken {
            Err(Reason::WrongValue)
        } else {
            Ok(said)
        },
        None => Ok(default),
    }
}

/// Whether a name is given.
fn is_said(subject: &SubjectName) -> bool
    ensures { result ≡ is_said subject.now }
{
    match &subject.name {
        Name::Default => subject.parts.is_some(),
        Name::CommonName(_) => true,
        Name::Subject(_) => true,
    }
}

/// Checks that a name is given exactly where none is taken.
#[tactic(auto, unfolding(crate::specs::Certificate::has_name))]
pub(crate) fn has_name(is_taken: bool, subject: &SubjectName) -> Result<(), Reason>
    ensures { result ≡ has_name is_taken subject.now }
{
    let is_said = is_said(subject);
    if is_said && is_taken {
        return Err(Reason::WrongValue);
    }
    if is_said || is_taken {
        Ok(())
    } else {
        Err(Reason::MissingKey)
    }
}

/// The days of an order, and until when it is valid otherwise.
fn days_or_time(end: End) -> (Option<Days>, Option<Timestamp>)
    ensures { result ≡ days_or_time end }
{
    match end {
        End::Days(days) => (Some(days), None),
        End::At(time) => (None, Some(time)),
    }
}

/// The order that the values at its keys are, where these are its default purposes.
#[tactic(auto, unfolding(crate::specs::Certificate::certificate_of))]
pub(crate) fn certificate_of(
    no_names: List<AltName>,
    purposes: List<Purpose>,
    values: CertificateKeys,
) -> Result<CertificateOrder, Reason>
    requires { no_names ≡ [] }
    ensures { result ≡ certificate_of purposes values }
{
    let (values, copy_cn) = values;
    let (values, weak_key) = values;
    let (values, key_id) = values;
    let (values, authority_key_id) = values;
    let (values, extensions) = values;
    let (values, access) = values;
    let (values, crl_points) = values;
    let (values, constraints) = values;
    let (values, extended_key_usages) = values;
    let (values, key_usages) = values;
    let (values, ca) = values;
    let ca = ca.into_is_ca();
    let (values, alt_names) = values;
    let (values, subject) = values;
    let (values, serial) = values;
    let (values, validity) = values;
    let (((), signing), request) = values;
    has_name(request.takes_subject, &subject)?;
    let SubjectName { name, parts } = subject;
    let alt_names = said_unless_taken(request.takes_alt_names, alt_names, no_names)?;
    let extended_key_usages = said_unless_taken(
        request.takes_purposes,
        extended_key_usages,
        purposes,
    )?;
    let (days, not_after) = days_or_time(validity.end);
    Ok(CertificateOrder {
        signing,
        request,
        days,
        access,
        weak_key,
        copy_cn,
        parts,
        content: CertificateContent {
            name,
            not_before: Some(validity.start),
            not_after,
            serial: Some(serial.into_hex()),
            alt_names,
            ca,
            key_usages,
            extended_key_usages,
            constraints,
            crl_points,
            extensions,
            authority_key_id,
            key_id,
        },
    })
}
