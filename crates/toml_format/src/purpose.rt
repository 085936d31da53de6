//! A purpose of a key as text: one of seven words, or arcs (RFC 5280, 4.2.1.12).
ghost use Rattle.std.specs.Prelude.{◌≡◌, IfOk};
ghost use Rattle.toml_format.specs.Values.{text_as};
ghost use Rattle.toml_format.specs.Purpose.{purpose};

use crate::arcs::{Arcs, arcs_of};
use crate::from_value::{FromText, FromValue, text_as};
use crate::reason::Reason;
use std::alloc::{AllocError, Global};
use toml::Value;

/// A purpose of a key (RFC 5280, 4.2.1.12); a text spells it as the standard does, as `serverAuth`,
/// but for `any` and for arcs.
#[derive(Drop)]
pub enum Purpose {
    Any,
    ServerAuth,
    ClientAuth,
    CodeSigning,
    EmailProtection,
    TimeStamping,
    OcspSigning,
    /// By its arcs, which may also be those of a purpose above.
    Other(Arcs),
}

impl FromText for Purpose {
    ghost from_text = { purpose };

    #[tactic(auto, unfolding(crate::specs::Purpose::purpose))]
    fn from_text(alloc: Global, text: &str) -> Result<Option<Purpose>, AllocError> {
        match text {
            "any" => Ok(Some(Purpose::Any)),
            "serverAuth" => Ok(Some(Purpose::ServerAuth)),
            "clientAuth" => Ok(Some(Purpose::ClientAuth)),
            "codeSigning" => Ok(Some(Purpose::CodeSigning)),
            "emailProtection" => Ok(Some(Purpose::EmailProtection)),
            "timeStamping" => Ok(Some(Purpose::TimeStamping)),
            "OCSPSigning" => Ok(Some(Purpose::OcspSigning)),
            _ => match arcs_of(alloc, text.as_bytes())? {
                Some(arcs) => Ok(Some(Purpose::Other(arcs))),
                None => Ok(None),
            },
        }
    }
}

impl FromValue for Purpose {
    ghost format = { text_as purpose };

    fn from_value(alloc: Global, value: &Value) -> Result<Result<Purpose, Reason>, AllocError> {
        text_as(alloc, value)
    }
}
