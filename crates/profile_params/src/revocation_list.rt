//! The parameters of a revocation list.
ghost use Rattle.std.specs.Prelude.{◌≡◌, map, IfOk, IfErr};
ghost use Rattle.std.specs.Option.{option_map};
ghost use Rattle.asn1_core.specs.Moment.{instant};
ghost use Rattle.rcgen_issue.specs.CrlView.{crl_view, point_of, revoked_view};
ghost use Rattle.rcgen_sign.specs.KeyIds.{method_of};
ghost use Rattle.rcgen_text.specs.declared.error.Error.TheVariants.{OutOfMemory};
ghost use Rattle.toml_format.specs.UtcInstant.{instant_of};
ghost use Rattle.profile_params.specs.RevocationLists.{list_of_profile, point_of_profile, revoked_of_profile};
ghost use Rattle.profile_params.specs.Keys.{method_of_profile};

use crate::extensions::point;
use crate::keys::method_of_profile;
use asn1_core::OffsetDateTime;
use rcgen_issue::{
    CertificateRevocationListParams, CrlIssuingDistributionPoint, Error, KeyIdMethod,
    RevokedCertParams, SerialNumber,
};
use std::alloc::Global;
use toml_format::{IssuingPoint, KeyId, ListContent, Revoked, Timestamp};

/// Since when the key isn't to be relied on, where it is said.
fn invalidity_date(time: Option<Timestamp>) -> Option<OffsetDateTime>
    ensures { option_map instant result ≡ option_map instant_of time }
{
    match time {
        Some(time) => Some(time.moment()),
        None => None,
    }
}

/// The entry of a certificate that was revoked.
fn entry(revoked: Revoked) -> RevokedCertParams
    ensures { revoked_view result ≡ revoked_of_profile revoked }
{
    RevokedCertParams {
        serial_number: SerialNumber::from_vec(revoked.serial.into_vec()),
        revocation_time: revoked.time.moment(),
        reason_code: revoked.reason,
        invalidity_date: invalidity_date(revoked.invalid),
    }
}

/// The entries, in order.
fn entries(alloc: Global, list: Vec<Revoked>) -> Result<Vec<RevokedCertParams>, Error>
    ensures entries { IfOk result (λ entries. map revoked_view entries.items ≡ map revoked_of_profile list.items) }
    ensures memory { IfErr result (λ e. e ≡ OutOfMemory) }
{
    let mut entries = Vec::with_capacity(alloc, list.len())?;
    for revoked in list {
        entries.push(entry(revoked))?;
    }
    Ok(entries)
}

/// The issuing point, where there is one.
fn issuing_point(
    alloc: Global,
    said: Option<IssuingPoint>,
) -> Result<Option<CrlIssuingDistributionPoint>, Error>
    ensures point { IfOk result (λ found. option_map point_of found ≡ option_map point_of_profile said) }
    ensures memory { IfErr result (λ e. e ≡ OutOfMemory) }
{
    match said {
        Some(said) => {
            let distribution_point = point(alloc, said.points.into_vec())?;
            Ok(Some(CrlIssuingDistributionPoint {
                distribution_point,
                scope: said.scope,
            }))
        }
        None => Ok(None),
    }
}

/// How the list's authority key identifier is made, where it is said.
fn list_method(key_id: Option<KeyId>) -> Option<KeyIdMethod>
    ensures { option_map method_of result ≡ option_map method_of_profile key_id }
{
    match key_id {
        Some(key_id) => Some(method_of_profile(key_id)),
        None => None,
    }
}

/// The parameters of a revocation list that says what the profile says, with the entries in its
/// order. `OutOfMemory` is the only error.
pub fn list_of_profile(
    alloc: Global,
    content: ListContent,
) -> Result<CertificateRevocationListParams, Error>
    ensures list { IfOk result (λ params. crl_view params ≡ list_of_profile content) }
    ensures memory { IfErr result (λ e. e ≡ OutOfMemory) }
{
    let issuing_distribution_point = issuing_point(alloc, content.point)?;
    let revoked_certs = entries(alloc, content.revoked.into_vec())?;
    Ok(CertificateRevocationListParams {
        this_update: content.this_update.moment(),
        next_update: content.next_update.moment(),
        crl_number: SerialNumber::from_vec(content.number.into_vec()),
        issuing_distribution_point,
        revoked_certs,
        key_identifier_method: list_method(content.key_id),
    })
}
