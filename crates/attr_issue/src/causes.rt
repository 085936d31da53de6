//! Why nothing is issued, tested before anything is built.
ghost use Rattle.std.specs.Prelude.{◌≡◌, ◌↔◌, ℕ, List, None, true, map, IfOk, OnOk, IfErr};
ghost use Rattle.rcgen_text.specs.Causes.{Explains, origin_of};
ghost use Rattle.rcgen_certificate.specs.Issuers.{issuer_field_of};
ghost use Rattle.rcgen_certificate.specs.Requests.{given_of};
ghost use Rattle.attr_issue.specs.AttributeCauses.{attributes_cause, has_times, all_oids_valid, is_repeated, refused_cause, types_of};
ghost use Rattle.attr_issue.specs.AttributeCauses.{ExplainsAttribute, HasNoEarlyCause, StandsTwice};
ghost use Rattle.attr_issue.specs.AttributeCertificateView.{attribute_certificate_view};

use crate::attribute_certificate::AttributeCertificateParams;
use crate::error::AttrError;
use rcgen_certificate::{Attribute, Issuer, has_issuer_value, have_attribute_types};
use rcgen_sign::SigningKey;
use rcgen_text::Error;
use std::alloc::{AllocError, Global};
use std::collections::BTreeSet;

/// A law: a type is repeated exactly where the same arcs occur at two places.
pub fn repeated_type_exactly()
    ensures { (types : List (List ℕ)) → (is_repeated types ≡ true) ↔ StandsTwice types }
{}

/// Whether two attributes have the same type. The time is that of a sort, n log n.
fn has_repeated_type(alloc: Global, attributes: &[Attribute]) -> Result<bool, AllocError>
    ensures value { IfOk result (λ repeated. repeated ≡ is_repeated (types_of (map given_of attributes.now))) }
{
    let mut types = BTreeSet::new(alloc);
    for attribute in attributes {
        if !types.insert(attribute.oid.as_slice())? {
            return Ok(true);
        }
    }
    Ok(false)
}

/// Answers why the attributes can't be certified, whatever the rest.
#[tactic(auto, using(crate::proofs::AttributeCauses::tests))]
pub(crate) fn refuse_attributes(alloc: Global, attributes: &[Attribute]) -> Result<(), AttrError>
    ensures ok { OnOk result (attributes_cause (map given_of attributes.now) ≡ None) }
    ensures why { IfErr result (ExplainsAttribute (attributes_cause (map given_of attributes.now)) ⊥) }
{
    if attributes.is_empty() {
        return Err(AttrError::NoAttributes);
    }
    if has_repeated_type(alloc, attributes)? {
        return Err(AttrError::RepeatedAttribute);
    }
    Ok(())
}

/// Whether both times have a form in UTC.
fn has_times(params: &AttributeCertificateParams) -> bool
    ensures { result ≡ has_times (attribute_certificate_view params.now) }
{
    params.not_before.utc().is_some() && params.not_after.utc().is_some()
}

/// Whether all that names something in the parameters is an object identifier.
#[tactic(auto, using(crate::proofs::AttributeCauses::tests))]
fn all_oids_valid(params: &AttributeCertificateParams) -> bool
    ensures { result ≡ all_oids_valid (attribute_certificate_view params.now) }
{
    has_issuer_value(&params.holder_issuer) && have_attribute_types(&params.attributes)
}

/// Answers the first cause against the times and the identifiers. Where there is none, each is
/// without one.
#[tactic(auto, using(crate::proofs::AttributeCauses::parts))]
pub(crate) fn refuse_early<S: SigningKey>(
    params: &AttributeCertificateParams,
    issuer: &Issuer<'_, S>,
) -> Result<(), Error>
    ensures parts { OnOk result (HasNoEarlyCause (attribute_certificate_view params.now) (issuer_field_of issuer.now)) }
    ensures why { IfErr result (λ e. Explains (refused_cause (attribute_certificate_view params.now) (issuer_field_of issuer.now)) ⊥ (origin_of e)) }
{
    // RFC 5755, 4.2.6
    if !has_times(params) {
        return Err(Error::Time);
    }
    // X.660, 7.6
    if !(issuer.has_issuer_field() && all_oids_valid(params)) {
        return Err(Error::InvalidObjectIdentifier);
    }
    Ok(())
}
