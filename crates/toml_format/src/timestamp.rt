//! A date and a time of day, and their offset from UTC, as a text of RFC 3339 (5.6) says them.
ghost use Rattle.std.specs.Prelude.{◌≡◌, IfOk};
ghost use Rattle.asn1_core.specs.Moment.{instant};
ghost use Rattle.toml_format.specs.Values.{text_as};
ghost use Rattle.toml_format.specs.TimeText.{date_time};
ghost use Rattle.toml_format.specs.TimeView.{timestamp_view};
ghost use Rattle.toml_format.specs.UtcInstant.{instant_of};

use crate::from_value::{FromText, FromValue, text_as};
use crate::reason::Reason;
use crate::time_text::date_time;
use asn1_core::OffsetDateTime;
use std::alloc::{AllocError, Global};
use std::marker::Model;
use toml::Value;

/// A date, a time of day and an offset.
pub struct Timestamp {
    moment: OffsetDateTime,
}

impl Model for Timestamp {
    ghost use Rattle.toml_format.specs.TimeText.{TimestampView};
    ghost use Rattle.toml_format.specs.TimeView.{timestamp_view};

    ghost Value = { TimestampView };

    ghost view = { λ t. timestamp_view t.moment };
}

impl Drop for Timestamp {
    fn drop(self) {
        let Timestamp { moment: _ } = self;
    }
}

impl Timestamp {
    /// The moment.
    #[tactic(auto, using(crate::proofs::Instants::instants))]
    pub fn moment(&self) -> OffsetDateTime
        ensures clock { timestamp_view result ≡ self.now }
        ensures instant { instant result ≡ instant_of self.now }
    {
        self.moment
    }
}

impl FromText for Timestamp {
    ghost from_text = { date_time };

    fn from_text(_alloc: Global, text: &str) -> Result<Option<Timestamp>, AllocError> {
        match date_time(text) {
            Some(moment) => Ok(Some(Timestamp { moment })),
            None => Ok(None),
        }
    }
}

impl FromValue for Timestamp {
    ghost format = { text_as date_time };

    fn from_value(alloc: Global, value: &Value) -> Result<Result<Timestamp, Reason>, AllocError> {
        text_as(alloc, value)
    }
}
