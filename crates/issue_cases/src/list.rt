//! The parameters of a list that a line says.
use crate::params::point;
use crate::words::{method, moment, serial, value_of, value_or};
use rcgen_issue::{CertificateRevocationListParams, CrlIssuingDistributionPoint};
use std::alloc::Global;

// Of the times and the number 1 alone.
fn bare_list(alloc: Global, line: &str) -> Option<CertificateRevocationListParams> {
    let this_update = moment(value_or(line, "this_update=", "2025"))?;
    let next_update = moment(value_or(line, "next_update=", "2026"))?;
    let crl_number = serial(alloc, "01")?;
    Some(CertificateRevocationListParams {
        this_update,
        next_update,
        crl_number,
        issuing_distribution_point: None,
        revoked_certs: Vec::new(alloc),
        key_identifier_method: None,
    })
}

fn set(alloc: Global, line: &str, list: &mut CertificateRevocationListParams) -> Option<()> {
    if let Some(uris) = value_of(line, "point=") {
        list.issuing_distribution_point = Some(CrlIssuingDistributionPoint {
            distribution_point: point(alloc, uris)?,
            scope: None,
        });
    }
    if let Some(word) = value_of(line, "list_method=") {
        list.key_identifier_method = Some(method(alloc, word)?);
    }
    Some(())
}

/// The parameters of a list without entries: `this_update` and `next_update` (`moment`), `point` (the URIs of the issuing
/// point, between commas) and `list_method` (`method`).
pub fn list_params(alloc: Global, line: &str) -> Option<CertificateRevocationListParams> {
    let mut list = bare_list(alloc, line)?;
    set(alloc, line, &mut list)?;
    Some(list)
}
