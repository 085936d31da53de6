//! Issuers whose secrets a profile says, and the parameters that other crates issue from.
ghost use Rattle.std.specs.Prelude.{◌≡◌, IfOk, IfErr};
ghost use Rattle.rcgen_certificate.specs.Issuers.{key_of, view_of};
ghost use Rattle.rcgen_sign.specs.DigestKeys.{digest_key};
ghost use Rattle.rcgen_text.specs.declared.error.Error.TheVariants.{OutOfMemory};
ghost use Rattle.certify_core.specs.Issuing.{issuer_of_profile};

mod attribute_certificate;
mod commands;

pub(crate) use attribute_certificate::attribute_params;
use certify_profile::IssuerTable;
pub(crate) use commands::commands_of;
use profile_params::{method_of_profile, name_of_profile};
use rcgen_issue::{DigestKey, Error, Issuer};
use std::alloc::Global;

/// The issuer that the table says.
pub(crate) fn issuer_of_profile(
    alloc: Global,
    table: IssuerTable,
) -> Result<Issuer<'static, DigestKey>, Error>
    ensures key { IfOk result (λ issuer. key_of issuer ≡ table.secret) }
    ensures view { IfOk result (λ issuer. view_of digest_key issuer ≡ issuer_of_profile table) }
    ensures memory { IfErr result (λ e. e ≡ OutOfMemory) }
{
    let key = DigestKey::new(alloc, table.secret.as_bytes())?;
    let name = name_of_profile(alloc, table.name)?;
    let usages = table.key_usages.into_vec();
    let method = method_of_profile(table.key_id);
    Ok(Issuer::from_parts(name, method, usages, key))
}
