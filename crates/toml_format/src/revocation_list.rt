//! What a revocation list is to say (RFC 5280, 5): both times and `number` must be there.
ghost use Rattle.std.specs.Prelude.{◌≡◌, IfOk};
ghost use Rattle.toml_format.specs.Values.{text_as};
ghost use Rattle.toml_format.specs.RevocationList.{revocation_reason, scope, revoked_values, revoked_of, revoked};
ghost use Rattle.toml_format.specs.RevocationList.{point_values, point_of, content_values, content_of};
ghost use Rattle.toml_format.specs.Tables.{table_of};

use crate::entries::Entries;
use crate::from_value::{FromText, FromValue, text_as};
use crate::hex_bytes::HexBytes;
use crate::key_id::KeyId;
use crate::list::List;
use crate::reason::Reason;
use crate::table_reader::{FromTable, TableReader, read_table};
use crate::text::Text;
use crate::timestamp::Timestamp;
use rcgen_text::{CrlScope, RevocationReason};
use std::alloc::{AllocError, Global};
use toml::Value;

impl FromText for RevocationReason {
    ghost from_text = { revocation_reason };

    #[tactic(auto, unfolding(crate::specs::RevocationList::revocation_reason))]
    fn from_text(_alloc: Global, text: &str) -> Result<Option<RevocationReason>, AllocError> {
        Ok(match text {
            "unspecified" => Some(RevocationReason::Unspecified),
            "keyCompromise" => Some(RevocationReason::KeyCompromise),
            "cACompromise" => Some(RevocationReason::CaCompromise),
            "affiliationChanged" => Some(RevocationReason::AffiliationChanged),
            "superseded" => Some(RevocationReason::Superseded),
            "cessationOfOperation" => Some(RevocationReason::CessationOfOperation),
            "certificateHold" => Some(RevocationReason::CertificateHold),
            "removeFromCRL" => Some(RevocationReason::RemoveFromCrl),
            "privilegeWithdrawn" => Some(RevocationReason::PrivilegeWithdrawn),
            "aACompromise" => Some(RevocationReason::AaCompromise),
            _ => None,
        })
    }
}

impl FromValue for RevocationReason {
    ghost format = { text_as revocation_reason };

    fn from_value(
        alloc: Global,
        value: &Value,
    ) -> Result<Result<RevocationReason, Reason>, AllocError> {
        text_as(alloc, value)
    }
}

impl FromText for CrlScope {
    ghost from_text = { scope };

    #[tactic(auto, unfolding(crate::specs::RevocationList::scope))]
    fn from_text(_alloc: Global, text: &str) -> Result<Option<CrlScope>, AllocError> {
        Ok(match text {
            "user" => Some(CrlScope::UserCertsOnly),
            "ca" => Some(CrlScope::CaCertsOnly),
            _ => None,
        })
    }
}

impl FromValue for CrlScope {
    ghost format = { text_as scope };

    fn from_value(alloc: Global, value: &Value) -> Result<Result<CrlScope, Reason>, AllocError> {
        text_as(alloc, value)
    }
}

/// A certificate that was revoked.
#[derive(Drop)]
pub struct Revoked {
    /// The serial number of the certificate: the octets of a number that isn't negative, the
    /// highest first. Required.
    pub serial: HexBytes,
    /// When it was revoked. Required.
    pub time: Timestamp,
    /// Why it was revoked, if that is said.
    pub reason: Option<RevocationReason>,
    /// Since when its key isn't to be relied on (RFC 5280, 5.3.2), if that is said.
    pub invalid: Option<Timestamp>,
}

impl FromTable for Revoked {
    type Keys = (
        ((((), HexBytes), Timestamp), Option<RevocationReason>),
        Option<Timestamp>,
    );

    ghost keys = { revoked_values };

    ghost of_keys = { revoked_of };

    #[tactic(auto, unfolding(crate::specs::RevocationList::revoked_values))]
    fn keys<'a>(
        alloc: Global,
        entries: Entries<'a>,
    ) -> Result<TableReader<'a, Self::Keys>, AllocError> {
        let reader = TableReader::new(entries)
            .required(alloc, "serial")?
            .required(alloc, "time")?
            .optional(alloc, "reason")?
            .optional(alloc, "invalid")?;
        Ok(reader)
    }

    #[tactic(auto, unfolding(crate::specs::RevocationList::revoked_of))]
    fn of_keys(values: Self::Keys) -> Result<Revoked, Reason> {
        let (((((), serial), time), reason), invalid) = values;
        Ok(Revoked {
            serial,
            time,
            reason,
            invalid,
        })
    }
}

impl FromValue for Revoked {
    ghost format = { table_of revoked };

    fn from_value(alloc: Global, value: &Value) -> Result<Result<Revoked, Reason>, AllocError> {
        read_table(alloc, value)
    }
}

/// The issuing distribution point (RFC 5280, 5.2.5): where the list is to be found, and of which
/// certificates it is. It is there where `points` is, be it empty or not.
#[derive(Drop)]
pub struct IssuingPoint {
    /// The URIs at which the list is found, in order.
    pub points: List<Text>,
    /// Of which certificates alone the list is; `None` where it is of all.
    pub scope: Option<CrlScope>,
}

impl FromTable for Option<IssuingPoint> {
    type Keys = (((), Option<List<Text>>), Option<CrlScope>);

    ghost keys = { point_values };

    ghost of_keys = { point_of };

    #[tactic(auto, unfolding(crate::specs::RevocationList::point_values))]
    fn keys<'a>(
        alloc: Global,
        entries: Entries<'a>,
    ) -> Result<TableReader<'a, Self::Keys>, AllocError> {
        let reader = TableReader::new(entries)
            .optional(alloc, "points")?
            .optional(alloc, "scope")?;
        Ok(reader)
    }

    #[tactic(auto, unfolding(crate::specs::RevocationList::point_of))]
    fn of_keys(values: Self::Keys) -> Result<Option<IssuingPoint>, Reason> {
        let (((), points), scope) = values;
        match points {
            Some(points) => Ok(Some(IssuingPoint { points, scope })),
            None => match scope {
                Some(_) => Err(Reason::WrongValue),
                None => Ok(None),
            },
        }
    }
}

/// What a revocation list is to say.
#[derive(Drop)]
pub struct ListContent {
    /// When the list is issued. Required.
    pub this_update: Timestamp,
    /// When the next list is issued at the latest. Required.
    pub next_update: Timestamp,
    /// The number of the list: the octets of a number that isn't negative, the highest first.
    /// Required.
    pub number: HexBytes,
    /// How the identifier of the issuer's key is made in the list; by default as its issuer says.
    pub key_id: Option<KeyId>,
    /// The issuing distribution point; `None` where `points` isn't there.
    pub point: Option<IssuingPoint>,
    /// The entries, in order, repeats too; by default none.
    pub revoked: List<Revoked>,
}

impl FromTable for ListContent {
    type Keys = (
        (
            (((((), Timestamp), Timestamp), HexBytes), Option<KeyId>),
            Option<IssuingPoint>,
        ),
        List<Revoked>,
    );

    ghost keys = { content_values };

    ghost of_keys = { content_of };

    #[tactic(auto, unfolding(crate::specs::RevocationList::content_values))]
    fn keys<'a>(
        alloc: Global,
        entries: Entries<'a>,
    ) -> Result<TableReader<'a, Self::Keys>, AllocError> {
        let reader = TableReader::new(entries)
            .required(alloc, "this_update")?
            .required(alloc, "next_update")?
            .required(alloc, "number")?
            .optional(alloc, "key_id")?
            .and(alloc)?
            .listed(alloc, "revoked")?;
        Ok(reader)
    }

    #[tactic(auto, unfolding(crate::specs::RevocationList::content_of))]
    fn of_keys(values: Self::Keys) -> Result<ListContent, Reason> {
        let (values, revoked) = values;
        let (values, point) = values;
        let (values, key_id) = values;
        let (values, number) = values;
        let (values, next_update) = values;
        let ((), this_update) = values;
        Ok(ListContent {
            this_update,
            next_update,
            number,
            key_id,
            point,
            revoked,
        })
    }
}
