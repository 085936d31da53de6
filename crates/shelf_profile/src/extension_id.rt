//! The identifier of an extension (RFC 5280, 4.2).
ghost use Rattle.std.specs.Prelude.{◌≡◌};
ghost use Rattle.toml_format.specs.Values.{text_as};
ghost use Rattle.shelf_profile.specs.ExtensionId.{extension_id};

use asn1_core::{ObjectIdentifier, valid_arcs};
use std::alloc::{AllocError, Global};
use std::marker::Model;
use toml::Value;
use toml_format::{Arcs, FromText, FromValue, Reason, text_as};

/// The identifier of an extension (RFC 5280, 4.2).
pub struct ExtensionId {
    id: ObjectIdentifier,
}

impl Model for ExtensionId {
    ghost use Rattle.std.specs.Prelude.{ℕ, List};

    ghost Value = { List ℕ };

    ghost view = { λ e. e.id };
}

impl Drop for ExtensionId {
    fn drop(self) {
        let ExtensionId { id: _ } = self;
    }
}

impl ExtensionId {
    /// The arcs, from the root down.
    pub fn arcs(&self) -> &[u32]
        ensures { result.now ≡ self.now }
    {
        self.id.arcs()
    }
}

impl FromText for ExtensionId {
    ghost from_text = { extension_id };

    #[tactic(auto, unfolding(crate::specs::ExtensionId::extension_id))]
    fn from_text(alloc: Global, text: &str) -> Result<Option<ExtensionId>, AllocError> {
        let Some(arcs) = Arcs::from_text(alloc, text)? else {
            return Ok(None);
        };
        let arcs = arcs.into_vec();
        if !valid_arcs(&arcs) {
            return Ok(None);
        }
        match ObjectIdentifier::from_u64(alloc, &arcs) {
            Ok(id) => Ok(Some(ExtensionId { id })),
            Err(_) => Err(AllocError),
        }
    }
}

impl FromValue for ExtensionId {
    ghost format = { text_as extension_id };

    fn from_value(alloc: Global, value: &Value) -> Result<Result<ExtensionId, Reason>, AllocError> {
        text_as(alloc, value)
    }
}
