//! What a certificate is to say, as keys of a table: none of them must be there.
ghost use Rattle.std.specs.Prelude.{◌≡◌, IfOk};
ghost use Rattle.toml_format.specs.Certificate.{extension_values, extension_of, extension, constraints_values, constraints_of};
ghost use Rattle.toml_format.specs.Certificate.{content_values, content_of};
ghost use Rattle.toml_format.specs.Tables.{table_of};

use crate::alt_name::AltName;
use crate::arcs::Arcs;
use crate::entries::Entries;
use crate::from_value::FromValue;
use crate::hex_bytes::HexBytes;
use crate::issuer::Name;
use crate::key_id::KeyId;
use crate::list::List;
use crate::purpose::Purpose;
use crate::reason::Reason;
use crate::subtree::Subtree;
use crate::table_reader::{FromTable, TableReader, read_table};
use crate::text::Text;
use crate::timestamp::Timestamp;
use rcgen_text::{IsCa, KeyUsagePurpose};
use std::alloc::{AllocError, Global};
use toml::Value;

/// One more extension, with the contents of its extnValue (RFC 5280, 4.1).
#[derive(Drop)]
pub struct ExtensionEntry {
    /// The arcs of its extnID. Required.
    pub oid: Arcs,
    /// The contents octets of its extnValue. Required.
    pub content: HexBytes,
    /// Whether it is critical; by default `false`.
    pub critical: bool,
}

impl FromTable for ExtensionEntry {
    type Keys = ((((), Arcs), HexBytes), bool);

    ghost keys = { extension_values };

    ghost of_keys = { extension_of };

    #[tactic(auto, unfolding(crate::specs::Certificate::extension_values))]
    fn keys<'a>(
        alloc: Global,
        entries: Entries<'a>,
    ) -> Result<TableReader<'a, Self::Keys>, AllocError> {
        let reader = TableReader::new(entries)
            .required(alloc, "oid")?
            .required(alloc, "content")?
            .defaulted(alloc, "critical", false)?;
        Ok(reader)
    }

    #[tactic(auto, unfolding(crate::specs::Certificate::extension_of))]
    fn of_keys(values: Self::Keys) -> Result<ExtensionEntry, Reason> {
        let ((((), oid), content), critical) = values;
        Ok(ExtensionEntry {
            oid,
            content,
            critical,
        })
    }
}

impl FromValue for ExtensionEntry {
    ghost format = { table_of extension };

    fn from_value(
        alloc: Global,
        value: &Value,
    ) -> Result<Result<ExtensionEntry, Reason>, AllocError> {
        read_table(alloc, value)
    }
}

/// Name constraints (RFC 5280, 4.2.1.10), which are there where one of the keys is, be its list empty
/// or not.
#[derive(Drop)]
pub struct Constraints {
    /// The subtrees that names must lie in, in order. Optional.
    pub permitted: Option<List<Subtree>>,
    /// The subtrees that no name may lie in, in order. Optional.
    pub excluded: Option<List<Subtree>>,
}

impl FromTable for Constraints {
    type Keys = (((), Option<List<Subtree>>), Option<List<Subtree>>);

    ghost keys = { constraints_values };

    ghost of_keys = { constraints_of };

    #[tactic(auto, unfolding(crate::specs::Certificate::constraints_values))]
    fn keys<'a>(
        alloc: Global,
        entries: Entries<'a>,
    ) -> Result<TableReader<'a, Self::Keys>, AllocError> {
        let reader = TableReader::new(entries)
            .optional(alloc, "permitted")?
            .optional(alloc, "excluded")?;
        Ok(reader)
    }

    #[tactic(auto, unfolding(crate::specs::Certificate::constraints_of))]
    fn of_keys(values: Self::Keys) -> Result<Constraints, Reason> {
        let (((), permitted), excluded) = values;
        Ok(Constraints {
            permitted,
            excluded,
        })
    }
}

/// What a certificate is to say of its subject.
#[derive(Drop)]
pub struct CertificateContent {
    /// The subject; by default `Name::Default`.
    pub name: Name,
    /// From when the certificate is valid; `None` means 1975-01-01T00:00:00Z.
    pub not_before: Option<Timestamp>,
    /// Until when the certificate is valid; `None` means 4096-01-01T00:00:00Z.
    pub not_after: Option<Timestamp>,
    /// The serial number: the octets of a number that isn't negative, the highest first. `None`
    /// means the one that the subject's key gives.
    pub serial: Option<HexBytes>,
    /// The alternative names, in order; by default none.
    pub alt_names: List<AltName>,
    /// Whether the subject is an authority; by default `IsCa::NoCa`.
    pub ca: IsCa,
    /// What the subject's key is for; by default nothing is said.
    pub key_usages: List<KeyUsagePurpose>,
    /// Purposes of the subject's key, in order, repeats too; by default none.
    pub extended_key_usages: List<Purpose>,
    /// Which names certificates further on in a path may have.
    pub constraints: Constraints,
    /// The URIs of each distribution point, in order; by default there is no point.
    pub crl_points: List<List<Text>>,
    /// Further extensions, in order, after all others; by default none.
    pub extensions: List<ExtensionEntry>,
    /// Whether the certificate contains the identifier of the issuer's key; by default `false`.
    pub authority_key_id: bool,
    /// How the identifier of the subject's key is made, and that of the issuer's where the subject
    /// is its own issuer; by default `KeyId::Sha256`.
    pub key_id: KeyId,
}

/// The values at the keys for the subject, the validity period and the serial number.
pub type SubjectKeys = (
    (
        ((((), Name), Option<Timestamp>), Option<Timestamp>),
        Option<HexBytes>,
    ),
    List<AltName>,
);

/// The values at the keys for the use of the subject's key, after the values `T` of the keys before.
pub type UsageKeys<T> = (((T, IsCa), List<KeyUsagePurpose>), List<Purpose>);

/// The values at the keys for the other extensions, after the values `T` of the keys before.
pub type ExtensionKeys<T> = (((T, Constraints), List<List<Text>>), List<ExtensionEntry>);

impl FromTable for CertificateContent {
    type Keys = ((ExtensionKeys<UsageKeys<SubjectKeys>>, bool), KeyId);

    ghost keys = { content_values };

    ghost of_keys = { content_of };

    #[tactic(auto, unfolding(crate::specs::Certificate::content_values))]
    fn keys<'a>(
        alloc: Global,
        entries: Entries<'a>,
    ) -> Result<TableReader<'a, Self::Keys>, AllocError> {
        let reader = TableReader::new(entries)
            .and(alloc)?
            .optional(alloc, "not_before")?
            .optional(alloc, "not_after")?
            .optional(alloc, "serial")?
            .listed(alloc, "alt_names")?
            .defaulted(alloc, "ca", IsCa::NoCa)?
            .listed(alloc, "key_usages")?
            .listed(alloc, "extended_key_usages")?
            .and(alloc)?
            .listed(alloc, "crl_points")?
            .listed(alloc, "extensions")?
            .defaulted(alloc, "authority_key_id", false)?
            .defaulted(alloc, "key_id", KeyId::Sha256)?;
        Ok(reader)
    }

    #[tactic(auto, unfolding(crate::specs::Certificate::content_of))]
    fn of_keys(values: Self::Keys) -> Result<CertificateContent, Reason> {
        let (values, key_id) = values;
        let (values, authority_key_id) = values;
        let (values, extensions) = values;
        let (values, crl_points) = values;
        let (values, constraints) = values;
        let (values, extended_key_usages) = values;
        let (values, key_usages) = values;
        let (values, ca) = values;
        let (values, alt_names) = values;
        let (values, serial) = values;
        let (values, not_after) = values;
        let (values, not_before) = values;
        let ((), name) = values;
        Ok(CertificateContent {
            name,
            not_before,
            not_after,
            serial,
            alt_names,
            ca,
            key_usages,
            extended_key_usages,
            constraints,
            crl_points,
            extensions,
            authority_key_id,
            key_id,
        })
    }
}
