//! The purposes of a key, and how its identifier is made.
ghost use Rattle.std.specs.Prelude.{◌≡◌, map, IfOk, IfErr};
ghost use Rattle.rcgen_certificate.specs.ExtendedKeyUsages.{purpose_of};
ghost use Rattle.rcgen_sign.specs.KeyIds.{method_of};
ghost use Rattle.rcgen_text.specs.declared.error.Error.TheVariants.{OutOfMemory};
ghost use Rattle.profile_params.specs.Keys.{method_of_profile, purpose_of_profile};

use rcgen_issue::{Error, ExtendedKeyUsagePurpose, KeyIdMethod};
use std::alloc::Global;
use toml_format::{KeyId, Purpose};

/// The purpose.
fn extended_key_usage(purpose: Purpose) -> ExtendedKeyUsagePurpose
    ensures { purpose_of result ≡ purpose_of_profile purpose }
{
    match purpose {
        Purpose::Any => ExtendedKeyUsagePurpose::Any,
        Purpose::ServerAuth => ExtendedKeyUsagePurpose::ServerAuth,
        Purpose::ClientAuth => ExtendedKeyUsagePurpose::ClientAuth,
        Purpose::CodeSigning => ExtendedKeyUsagePurpose::CodeSigning,
        Purpose::EmailProtection => ExtendedKeyUsagePurpose::EmailProtection,
        Purpose::TimeStamping => ExtendedKeyUsagePurpose::TimeStamping,
        Purpose::OcspSigning => ExtendedKeyUsagePurpose::OcspSigning,
        Purpose::Other(arcs) => ExtendedKeyUsagePurpose::Other(arcs.into_vec()),
    }
}

/// The purposes of a key, in order.
pub(crate) fn extended_key_usages(
    alloc: Global,
    purposes: Vec<Purpose>,
) -> Result<Vec<ExtendedKeyUsagePurpose>, Error>
    ensures purposes { IfOk result (λ list. map purpose_of list.items ≡ map purpose_of_profile purposes.items) }
    ensures memory { IfErr result (λ e. e ≡ OutOfMemory) }
{
    let mut list = Vec::with_capacity(alloc, purposes.len())?;
    for purpose in purposes {
        list.push(extended_key_usage(purpose))?;
    }
    Ok(list)
}

/// How the identifier of a key is made.
pub fn method_of_profile(key_id: KeyId) -> KeyIdMethod
    ensures { method_of result ≡ method_of_profile key_id }
{
    match key_id {
        KeyId::Sha256 => KeyIdMethod::Sha256,
        KeyId::Sha384 => KeyIdMethod::Sha384,
        KeyId::Sha512 => KeyIdMethod::Sha512,
        KeyId::PreSpecified(id) => KeyIdMethod::PreSpecified(id.into_vec()),
    }
}
