//! Makes a revocation list of so many entries.
ghost use Rattle.std.specs.Prelude.{◌≡◌, true, pos, map, IfOk, IfErr};
ghost use Rattle.jiff.specs.Words.{IsYear};
ghost use Rattle.asn1_core.specs.Moment.{instant};
ghost use Rattle.toml_format.specs.UtcInstant.{instant_of};
ghost use Rattle.rcgen_text.specs.declared.error.Error.TheVariants.{OutOfMemory};
ghost use Rattle.certify_core.specs.Bulk.{bulk_content, bulk_entry, bulk_issuer, bulk_spec, entries_after, next_serial};
ghost use Rattle.certify_core.specs.CommandSpec.{IsMade, SpecGives};
ghost use Rattle.certify_core.specs.Outcome.{HasRefusal};
ghost use Rattle.profile_params.specs.Certificates.{start_of};
ghost use Rattle.profile_params.specs.RevocationLists.{list_of_profile, revoked_of_profile};
ghost use Rattle.rcgen_issue.specs.CrlView.{crl_view, revoked_view};

use crate::listing::bulk_lines;
use crate::params::issuer_of_profile;
use crate::refusal::Refusal;
use asn1_core::OffsetDateTime;
use certify_profile::IssuerTable;
use rcgen_issue::{
    CertificateRevocationListParams, Error, KeyIdMethod, RevocationReason, RevokedCertParams,
    SerialNumber,
};
use std::alloc::{AllocError, Global};
use toml_format::{KeyId, List, Name, Text};

/// The serial number after this one, by the linear congruential generator of MMIX.
fn next_serial(serial: u64) -> u64
    ensures { result ≡ next_serial serial }
{
    let next = 6_364_136_223_846_793_005 * u128::from(serial) + 1_442_695_040_888_963_407;
    (next % 18_446_744_073_709_551_616) as u64
}

/// The first midnight of a year in UTC.
#[tactic(auto, using(profile_params::proofs::Midnights::midnight_is))]
fn start_of(year: i32) -> OffsetDateTime
    requires { IsYear year }
    ensures { instant result ≡ instant_of (start_of year) }
{
    match OffsetDateTime::ymd(year, 1, 1) {
        Some(moment) => moment,
        None => unreachable!(),
    }
}

/// The entry of a serial number.
fn entry(alloc: Global, serial: u64, has_reason: bool) -> Result<RevokedCertParams, Error>
    ensures entry { IfOk result (λ entry. revoked_view entry ≡ revoked_of_profile (bulk_entry serial has_reason)) }
    ensures memory { IfErr result (λ e. e ≡ OutOfMemory) }
{
    let reason_code = if has_reason {
        Some(RevocationReason::KeyCompromise)
    } else {
        None
    };
    Ok(RevokedCertParams {
        serial_number: SerialNumber::from_u64(alloc, serial)?,
        revocation_time: start_of(2025),
        reason_code,
        invalidity_date: None,
    })
}

/// So many entries.
#[tactic(auto, using(crate::proofs::BulkEntries::made))]
fn entries(alloc: Global, count: u64) -> Result<Vec<RevokedCertParams>, Error>
    ensures entries { IfOk result (λ entries. map revoked_view entries.items ≡ map revoked_of_profile (entries_after 1 true count)) }
    ensures memory { IfErr result (λ e. e ≡ OutOfMemory) }
{
    let mut entries = Vec::new(alloc);
    let mut serial = 1;
    let mut has_reason = true;
    let mut left = count;
    while left > 0 {
        serial = next_serial(serial);
        entries.push(entry(alloc, serial, has_reason)?)?;
        has_reason = !has_reason;
        left -= 1;
    }
    Ok(entries)
}

/// The parameters of the list.
fn params(alloc: Global, count: u64) -> Result<CertificateRevocationListParams, Error>
    ensures list { IfOk result (λ params. crl_view params ≡ list_of_profile (bulk_content count)) }
    ensures memory { IfErr result (λ e. e ≡ OutOfMemory) }
{
    Ok(CertificateRevocationListParams {
        this_update: start_of(2025),
        next_update: start_of(2026),
        crl_number: SerialNumber::from_u64(alloc, count)?,
        issuing_distribution_point: None,
        revoked_certs: entries(alloc, count)?,
        key_identifier_method: Some(KeyIdMethod::Sha256),
    })
}

/// Who issues the list.
fn issuer_table(alloc: Global) -> Result<IssuerTable, AllocError>
    ensures { IfOk result (λ table. table ≡ bulk_issuer) }
{
    Ok(IssuerTable {
        secret: Text::copy(alloc, "bulk")?,
        name: Name::CommonName(Text::copy(alloc, "bulk")?),
        key_usages: List::new(alloc),
        key_id: KeyId::Sha256,
    })
}

/// The lines of a revocation list of so many entries.
pub(crate) fn bulk(alloc: Global, count: u64) -> Result<Vec<u8>, Refusal>
    ensures text { IfOk result (λ text. IsMade (bulk_spec count) text.items) }
    ensures why { IfErr result (HasRefusal (SpecGives (bulk_spec count))) }
{
    let params = params(alloc, count)?;
    let table = issuer_table(alloc)?;
    let issuer = issuer_of_profile(alloc, table)?;
    let list = params.signed_by(alloc, &issuer)?;
    Ok(bulk_lines(alloc, count, list.der())?)
}
