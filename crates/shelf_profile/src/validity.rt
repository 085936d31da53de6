//! From when until when a certificate is valid (RFC 5280, 4.1.2.5).
ghost use Rattle.std.specs.Prelude.{◌≡◌, IfOk};
ghost use Rattle.shelf_profile.specs.Validity.{validity_of, validity_values};

use std::alloc::{AllocError, Global};
use toml_format::{Entries, FromTable, Number, Reason, TableReader, Timestamp};

/// A number of days, each of 86,400 seconds, up to a hundred years.
pub type Days = Number<1, 36525>;

/// Until when a certificate is valid.
#[derive(Drop)]
pub enum End {
    /// So many days after its start.
    Days(Days),
    /// Until then.
    At(Timestamp),
}

/// From when until when a certificate is valid.
#[derive(Drop)]
pub struct Validity {
    /// From when. Required.
    pub start: Timestamp,
    /// Until when. Exactly one of `days` and `not_after` has to say it.
    pub end: End,
}

impl FromTable for Validity {
    type Keys = ((((), Timestamp), Option<Days>), Option<Timestamp>);

    ghost keys = { validity_values };

    ghost of_keys = { validity_of };

    #[tactic(auto, unfolding(crate::specs::Validity::validity_values))]
    fn keys<'a>(
        alloc: Global,
        entries: Entries<'a>,
    ) -> Result<TableReader<'a, Self::Keys>, AllocError> {
        let reader = TableReader::new(entries)
            .required(alloc, "start")?
            .optional(alloc, "days")?
            .optional(alloc, "not_after")?;
        Ok(reader)
    }

    #[tactic(auto, unfolding(crate::specs::Validity::validity_of))]
    fn of_keys(values: Self::Keys) -> Result<Validity, Reason> {
        let ((((), start), days), not_after) = values;
        match (days, not_after) {
            (Some(days), None) => Ok(Validity {
                start,
                end: End::Days(days),
            }),
            (None, Some(at)) => Ok(Validity {
                start,
                end: End::At(at),
            }),
            (Some(_), Some(_)) => Err(Reason::WrongValue),
            (None, None) => Err(Reason::MissingKey),
        }
    }
}
