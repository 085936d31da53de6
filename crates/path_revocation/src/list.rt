//! Whether a list may be used (RFC 5280, 5.1, 5.2 and 6.3.3 (a)).
ghost use Rattle.std.specs.Prelude.{◌≡◌, IfOk};
ghost use Rattle.std.specs.List.{list_any};
ghost use Rattle.std.specs.Option.{option_map};
ghost use Rattle.path_revocation.specs.Extensions.{is_unprocessed};
ghost use Rattle.path_revocation.specs.Lists.{has_begun, is_complete, is_current, is_over, is_readable, is_usable, issuing_point};
ghost use Rattle.path_revocation.specs.Lists.{point_contents, processed_of_lists, same_algorithm, same_octets};

use crate::entry::are_readable_entries;
use crate::extension::{are_once, can_be_read, contents_at, extensions_in, said};
use crate::time::is_earlier;
use asn1_core::OutOfMemory;
use der_tree::Any;
use jiff::civil::DateTime;
use pkix_cert::extension_id::{
    ID_CE_AUTHORITY_KEY_IDENTIFIER, ID_CE_CRL_NUMBER, ID_CE_DELTA_CRL_INDICATOR,
    ID_CE_FRESHEST_CRL, ID_CE_ISSUER_ALT_NAME, ID_CE_ISSUING_DISTRIBUTION_POINT,
};
use pkix_cert::{AlgorithmIdentifier, CertificateList, Extension, IssuingDistributionPoint, Time};
use std::alloc::Global;

/// Whether the next list should be there by now.
fn is_over(at: DateTime, next: &Option<Time>) -> bool
    ensures { result ≡ is_over at next.now }
{
    match next {
        None => true,
        Some(next) => is_earlier(next.moment(), at),
    }
}

fn has_begun(at: DateTime, list: &CertificateList) -> bool
    ensures { result ≡ has_begun at list.now }
{
    !is_earlier(at, list.tbs_cert_list.this_update.moment())
}

/// Whether the time isn't after the list's next update (RFC 5280, 6.3.3 (a)).
#[tactic(auto, unfolding(crate::specs::Lists::is_current))]
pub(crate) fn is_current(at: DateTime, list: &CertificateList) -> bool
    ensures { result ≡ is_current at list.now }
{
    !is_over(at, &list.tbs_cert_list.next_update)
}

#[tactic(auto, unfolding(crate::specs::Lists::point_contents))]
pub(crate) fn point_contents(list: &CertificateList) -> Option<&[u8]>
    ensures { option_map (λ contents. contents.now) result ≡ point_contents list.now }
{
    contents_at(
        &list.tbs_cert_list.crl_extensions,
        ID_CE_ISSUING_DISTRIBUTION_POINT,
    )
}

/// What the list covers (RFC 5280, 5.2.5).
#[tactic(auto, unfolding(crate::specs::Lists::issuing_point))]
pub(crate) fn issuing_point(
    alloc: Global,
    list: &CertificateList,
) -> Result<Option<IssuingDistributionPoint>, OutOfMemory>
    ensures { IfOk result (λ o. o ≡ issuing_point list.now) }
{
    said(alloc, point_contents(list))
}

/// Whether the list isn't a delta list (RFC 5280, 5.2.4).
#[tactic(auto, unfolding(crate::specs::Lists::is_complete))]
pub(crate) fn is_complete(list: &CertificateList) -> bool
    ensures { result ≡ is_complete list.now }
{
    contents_at(
        &list.tbs_cert_list.crl_extensions,
        ID_CE_DELTA_CRL_INDICATOR,
    )
    .is_none()
}

fn is_unprocessed(extension: &Extension) -> bool
    ensures { result ≡ is_unprocessed processed_of_lists extension.now }
{
    let id = extension.extn_id.arcs();
    let is_processed = id == ID_CE_CRL_NUMBER
        || id == ID_CE_ISSUING_DISTRIBUTION_POINT
        || id == ID_CE_AUTHORITY_KEY_IDENTIFIER
        || id == ID_CE_ISSUER_ALT_NAME
        || id == ID_CE_FRESHEST_CRL
        || id == ID_CE_DELTA_CRL_INDICATOR;
    extension.critical && !is_processed
}

fn has_unprocessed(extensions: &[Extension]) -> bool
    ensures { result ≡ list_any (is_unprocessed processed_of_lists) extensions.now }
{
    extensions.iter().any(|extension| is_unprocessed(extension))
}

/// Whether all that is critical in the list's extensions is processed, none occurs there twice, and
/// what is read of them can be read.
#[tactic(auto, unfolding(crate::specs::Lists::is_readable))]
fn is_readable(alloc: Global, list: &CertificateList) -> Result<bool, OutOfMemory>
    ensures { IfOk result (λ b. b ≡ is_readable list.now) }
{
    let extensions = extensions_in(&list.tbs_cert_list.crl_extensions);
    if has_unprocessed(extensions) {
        return Ok(false);
    }
    if !are_once(alloc, extensions)? {
        return Ok(false);
    }
    can_be_read::<IssuingDistributionPoint>(alloc, point_contents(list))
}

fn same_parameters(a: &Option<Any>, b: &Option<Any>) -> bool
    ensures { result ≡ same_octets a.now b.now }
{
    match (a, b) {
        (None, None) => true,
        (Some(a), Some(b)) => a.as_bytes() == b.as_bytes(),
        _ => false,
    }
}

pub(crate) fn same_algorithm(a: &AlgorithmIdentifier, b: &AlgorithmIdentifier) -> bool
    ensures { result ≡ same_algorithm a.now b.now }
{
    a.algorithm == b.algorithm && same_parameters(&a.parameters, &b.parameters)
}

/// Whether the list has begun, and can be read (RFC 5280, 6.3.3 (a)).
#[tactic(auto, unfolding(crate::specs::Lists::is_usable))]
pub(crate) fn is_usable(
    alloc: Global,
    at: DateTime,
    list: &CertificateList,
) -> Result<bool, OutOfMemory>
    ensures { IfOk result (λ b. b ≡ is_usable at list.now) }
{
    let tbs = &list.tbs_cert_list;
    if !has_begun(at, list) || !same_algorithm(&tbs.signature, &list.signature_algorithm) {
        return Ok(false);
    }
    if !is_readable(alloc, list)? {
        return Ok(false);
    }
    are_readable_entries(alloc, tbs.revoked_certificates.as_slice())
}
