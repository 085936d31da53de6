//! What a certificate says by default, by what it is to be used for.
ghost use Rattle.std.specs.Prelude.{◌≡◌, IfOk};
ghost use Rattle.toml_format.specs.Values.{text_as};
ghost use Rattle.shelf_profile.specs.Preset.{has_authority_key_id, preset, preset_ca, preset_key_usages, preset_purposes};

use crate::ca::OrderCa;
use rcgen_text::{BasicConstraints, IsCa, KeyUsagePurpose};
use std::alloc::{AllocError, Global};
use toml::Value;
use toml_format::{FromText, FromValue, List, Purpose, Reason, text_as};

/// What a certificate is to be used for.
#[derive(Clone, Copy, Debug, PartialEq, Eq)]
pub enum Preset {
    /// An authority that is its own issuer.
    Root,
    /// An authority beneath another, that issues no further authorities.
    Authority,
    /// A server of TLS.
    Server,
    /// A client of TLS.
    Client,
}

impl FromText for Preset {
    ghost from_text = { preset };

    #[tactic(auto, unfolding(crate::specs::Preset::preset))]
    fn from_text(_alloc: Global, text: &str) -> Result<Option<Preset>, AllocError> {
        Ok(match text {
            "root" => Some(Preset::Root),
            "authority" => Some(Preset::Authority),
            "server" => Some(Preset::Server),
            "client" => Some(Preset::Client),
            _ => None,
        })
    }
}

impl FromValue for Preset {
    ghost format = { text_as preset };

    fn from_value(alloc: Global, value: &Value) -> Result<Result<Preset, Reason>, AllocError> {
        text_as(alloc, value)
    }
}

/// Whether the subject is an authority (RFC 5280, 4.2.1.9), by default.
pub(crate) fn preset_ca(preset: Option<Preset>) -> OrderCa
    ensures { result ≡ preset_ca preset }
{
    let ca = match preset {
        Some(Preset::Root) => IsCa::Ca(BasicConstraints::Unconstrained),
        Some(Preset::Authority) => IsCa::Ca(BasicConstraints::Constrained(0)),
        Some(Preset::Server) => IsCa::ExplicitNoCa,
        Some(Preset::Client) => IsCa::ExplicitNoCa,
        None => IsCa::NoCa,
    };
    OrderCa::new(ca)
}

/// What the subject's key is for (RFC 5280, 4.2.1.3), by default.
pub(crate) fn preset_key_usages(
    alloc: Global,
    preset: Option<Preset>,
) -> Result<List<KeyUsagePurpose>, AllocError>
    ensures { IfOk result (λ usages. usages ≡ preset_key_usages preset) }
{
    let usages = match preset {
        Some(Preset::Root) | Some(Preset::Authority) => {
            vec![in alloc; KeyUsagePurpose::KeyCertSign, KeyUsagePurpose::CrlSign]?
        }
        Some(Preset::Server) | Some(Preset::Client) => {
            vec![in alloc; KeyUsagePurpose::DigitalSignature]?
        }
        None => Vec::new(alloc),
    };
    Ok(List::from_vec(usages))
}

/// The purposes of the subject's key (RFC 5280, 4.2.1.12), by default.
pub(crate) fn preset_purposes(
    alloc: Global,
    preset: Option<Preset>,
) -> Result<List<Purpose>, AllocError>
    ensures { IfOk result (λ purposes. purposes ≡ preset_purposes preset) }
{
    let mut purposes = Vec::new(alloc);
    match preset {
        Some(Preset::Server) => purposes.push(Purpose::ServerAuth)?,
        Some(Preset::Client) => purposes.push(Purpose::ClientAuth)?,
        _ => (),
    }
    Ok(List::from_vec(purposes))
}

/// Whether the certificate contains the identifier of the issuer's key (RFC 5280, 4.2.1.1), by
/// default.
pub(crate) fn has_authority_key_id(preset: Option<Preset>) -> bool
    ensures { result ≡ has_authority_key_id preset }
{
    preset.is_some()
}
