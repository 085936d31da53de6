//! An instant, as a text of RFC 3339 (5.6) says it whose time has a form in UTC.
ghost use Rattle.std.specs.Prelude.{◌≡◌, IfOk};
ghost use Rattle.jiff.specs.Words.{civil_nanos};
ghost use Rattle.toml_format.specs.Values.{text_as};
ghost use Rattle.toml_format.specs.UtcInstant.{utc_instant};

use crate::from_value::{FromText, FromValue, text_as};
use crate::reason::Reason;
use crate::time_text::date_time;
use jiff::civil::DateTime;
use std::alloc::{AllocError, Global};
use std::marker::Model;
use toml::Value;

/// A time that has a form in UTC, in the years 0 to 9999: its instant.
pub struct UtcInstant {
    at: DateTime,
}

impl Model for UtcInstant {
    ghost use Rattle.std.specs.Prelude.{ℤ};
    ghost use Rattle.jiff.specs.Words.{civil_nanos};

    ghost Value = { ℤ };

    ghost view = { λ s. civil_nanos s.at };
}

impl Drop for UtcInstant {
    fn drop(self) {
        let UtcInstant { at: _ } = self;
    }
}

impl UtcInstant {
    /// The civil time in UTC.
    pub fn civil(&self) -> DateTime
        ensures { civil_nanos result ≡ self.now }
    {
        self.at
    }
}

impl FromText for UtcInstant {
    ghost from_text = { utc_instant };

    #[tactic(auto, using(crate::proofs::Instants::instants), unfolding(crate::specs::UtcInstant::utc_instant))]
    fn from_text(_alloc: Global, text: &str) -> Result<Option<UtcInstant>, AllocError> {
        let Some(moment) = date_time(text) else {
            return Ok(None);
        };
        match moment.utc() {
            Some(at) => Ok(Some(UtcInstant { at })),
            None => Ok(None),
        }
    }
}

impl FromValue for UtcInstant {
    ghost format = { text_as utc_instant };

    fn from_value(alloc: Global, value: &Value) -> Result<Result<UtcInstant, Reason>, AllocError> {
        text_as(alloc, value)
    }
}
