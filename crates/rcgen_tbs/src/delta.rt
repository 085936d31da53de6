//! The octets of what is signed for a delta list: one that says what changed since a complete list (RFC 5280, 5.2.4).
ghost use Rattle.std.specs.Prelude.{◌≡◌, ◌++◌, None, Some, true, IfOk, IfErr, OnOk, map};
ghost use Rattle.std.specs.List.{list_all};
ghost use Rattle.std.specs.Option.{IfSome};
ghost use Rattle.der_tree.specs.HasTree.{HasTree};
ghost use Rattle.pkix_cert.specs.Extensions.{extensions};
ghost use Rattle.pkix_cert.specs.Revocations.{tbs_cert_list};
ghost use Rattle.rcgen_certificate.specs.ExtensionRows.{IsField, are_named, row_of_extension};
ghost use Rattle.rcgen_certificate.specs.Issuers.{view_of};
ghost use Rattle.rcgen_issue.specs.CrlView.{crl_view, revoked_view};
ghost use Rattle.rcgen_issue.specs.Lists.{first_crl_cause, has_entry_times, without_entries};
ghost use Rattle.rcgen_tbs.specs.Deltas.{IsDeltaToBeSigned, IsListMessage, indicator_row, rows_of};
ghost use Rattle.rcgen_text.specs.Causes.{Explains, origin_of};
ghost use Rattle.rcgen_text.specs.declared.error.Error.TheVariants.{OutOfMemory};

use crate::list::{entry_trees, framed_octets};
use crate::to_be_signed::crl_to_be_signed;
use asn1_core::Integer;
use der_tree::SequenceOf;
use pkix_cert::extension_id::ID_CE_DELTA_CRL_INDICATOR;
use pkix_cert::{Extension, Extensions, TbsCertList};
use rcgen_certificate::{extensions_field, push_extension};
use rcgen_issue::{CertificateRevocationListParams, Issuer, SerialNumber, list_frame};
use rcgen_sign::SigningKey;
use rcgen_text::Error;
use std::alloc::Global;
use std::mem;

/// The extensions of a field.
fn listed(alloc: Global, field: Option<Extensions>) -> SequenceOf<Extension>
    ensures { map row_of_extension result ≡ rows_of field }
{
    match field {
        Some(mut extensions) => mem::replace(&mut extensions.0, SequenceOf::new(alloc)),
        None => SequenceOf::new(alloc),
    }
}

/// The field with the delta CRL indicator as its last extension.
#[tactic(auto, using(rcgen_certificate::proofs::Rows::named))]
fn with_indicator(
    alloc: Global,
    field: Option<Extensions>,
    base: &SerialNumber,
) -> Result<Option<Extensions>, Error>
    requires { are_named (rows_of field) ≡ true }
    ensures rows { IfOk result (IsField (rows_of field ++ indicator_row base.now)) }
    ensures formed { IfOk result (λ x. IfSome x (HasTree extensions)) }
    ensures memory { IfErr result (λ e. e ≡ OutOfMemory) }
{
    let mut list = listed(alloc, field);
    let number = Integer::from_unsigned(alloc, base.as_slice())?;
    push_extension(
        alloc,
        &mut list,
        ID_CE_DELTA_CRL_INDICATOR,
        true,
        Some(number),
    )?;
    Ok(extensions_field(list))
}

/// What is signed for the parameters and the base by the issuer, but for the entries: there are none in it.
fn delta_frame<S: SigningKey>(
    alloc: Global,
    params: &CertificateRevocationListParams,
    base: &SerialNumber,
    issuer: &Issuer<'_, S>,
) -> Result<TbsCertList, Error>
    ensures value { IfOk result (IsDeltaToBeSigned base.now (without_entries (crl_view params.now)) (view_of S.key issuer.now)) }
    ensures formed { IfOk result (HasTree tbs_cert_list) }
    ensures times { OnOk result (list_all has_entry_times (map revoked_view params.now.revoked_certs.items) ≡ true) }
    ensures ok { OnOk result (first_crl_cause (crl_view params.now) (view_of S.key issuer.now) ≡ None) }
    ensures why { IfErr result (λ e. Explains (first_crl_cause (crl_view params.now) (view_of S.key issuer.now)) ⊥ (origin_of e)) }
{
    let mut frame = list_frame(alloc, params, issuer)?;
    let field = frame.crl_extensions.take();
    frame.crl_extensions = with_indicator(alloc, field, base)?;
    Ok(frame)
}

/// The octets that the issuer's key signs for a delta list with this base.
fn delta_to_be_signed<S: SigningKey>(
    alloc: Global,
    params: &CertificateRevocationListParams,
    base: &SerialNumber,
    issuer: &Issuer<'_, S>,
) -> Result<Vec<u8>, Error>
    ensures message { IfOk result (λ m. IsListMessage (Some base.now) (crl_view params.now) (view_of S.key issuer.now) m.items) }
    ensures ok { OnOk result (first_crl_cause (crl_view params.now) (view_of S.key issuer.now) ≡ None) }
    ensures why { IfErr result (λ e. Explains (first_crl_cause (crl_view params.now) (view_of S.key issuer.now)) ⊥ (origin_of e)) }
{
    let frame = delta_frame(alloc, params, base, issuer)?;
    let entries = entry_trees(alloc, &params.revoked_certs)?;
    let message = framed_octets(alloc, &frame, entries)?;
    Ok(message)
}

/// The octets that the issuer's key signs for a list: with the number of the complete list on which it is
/// based a delta list, which says so in a critical extension after the others (RFC 5280, 5.2.4), and
/// without one a complete list. Refused as `crl_to_be_signed` refuses, whatever the base: that the base
/// is less than the list's number is the caller's matter.
pub fn list_to_be_signed_on<S: SigningKey>(
    alloc: Global,
    params: &CertificateRevocationListParams,
    base: &Option<SerialNumber>,
    issuer: &Issuer<'_, S>,
) -> Result<Vec<u8>, Error>
    ensures message { IfOk result (λ m. IsListMessage base.now (crl_view params.now) (view_of S.key issuer.now) m.items) }
    ensures ok { OnOk result (first_crl_cause (crl_view params.now) (view_of S.key issuer.now) ≡ None) }
    ensures why { IfErr result (λ e. Explains (first_crl_cause (crl_view params.now) (view_of S.key issuer.now)) ⊥ (origin_of e)) }
{
    match base {
        Some(base) => delta_to_be_signed(alloc, params, base, issuer),
        None => crl_to_be_signed(alloc, params, issuer),
    }
}
