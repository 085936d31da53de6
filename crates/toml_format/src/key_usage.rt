//! Uses of a key, by the nine words of the standard (RFC 5280, 4.2.1.3).
ghost use Rattle.std.specs.Prelude.{◌≡◌, IfOk};
ghost use Rattle.toml_format.specs.Values.{text_as};
ghost use Rattle.toml_format.specs.KeyUsage.{key_usage};

use crate::from_value::{FromText, FromValue, text_as};
use crate::reason::Reason;
use rcgen_text::KeyUsagePurpose;
use std::alloc::{AllocError, Global};
use toml::Value;

impl FromText for KeyUsagePurpose {
    ghost from_text = { key_usage };

    #[tactic(auto, unfolding(crate::specs::KeyUsage::key_usage))]
    fn from_text(_alloc: Global, text: &str) -> Result<Option<KeyUsagePurpose>, AllocError> {
        Ok(match text {
            "digitalSignature" => Some(KeyUsagePurpose::DigitalSignature),
            "contentCommitment" => Some(KeyUsagePurpose::ContentCommitment),
            "keyEncipherment" => Some(KeyUsagePurpose::KeyEncipherment),
            "dataEncipherment" => Some(KeyUsagePurpose::DataEncipherment),
            "keyAgreement" => Some(KeyUsagePurpose::KeyAgreement),
            "keyCertSign" => Some(KeyUsagePurpose::KeyCertSign),
            "cRLSign" => Some(KeyUsagePurpose::CrlSign),
            "encipherOnly" => Some(KeyUsagePurpose::EncipherOnly),
            "decipherOnly" => Some(KeyUsagePurpose::DecipherOnly),
            _ => None,
        })
    }
}

impl FromValue for KeyUsagePurpose {
    ghost format = { text_as key_usage };

    fn from_value(
        alloc: Global,
        value: &Value,
    ) -> Result<Result<KeyUsagePurpose, Reason>, AllocError> {
        text_as(alloc, value)
    }
}
