//! What the order of an attribute certificate asks for, as parameters (RFC 5755).
ghost use Rattle.std.specs.Prelude.{◌≡◌};
ghost use Rattle.asn1_core.specs.Moment.{instant};
ghost use Rattle.attr_issue.specs.AttributeCertificateView.{attribute_certificate_view};
ghost use Rattle.std.specs.List.{list_all};
ghost use Rattle.shelf_fault.specs.Faults.{Gets, Passes};
ghost use Rattle.shelf_params.specs.AttributeCertificates.{attribute_params, end_said, values_strict};
ghost use Rattle.strict_der.specs.Strict.{is_strict};

use crate::parameters::end_after;
use crate::subject_types::distinct_name;
use asn1_core::OffsetDateTime;
use attr_issue::AttributeCertificateParams;
use profile_params::attributes_of_profile;
use rcgen_issue::SerialNumber;
use shelf_fault::{Fault, Obstacle};
use shelf_profile::{AttributeOrder, End, Validity};
use std::alloc::Global;
use strict_der::is_strict;
use toml_format::{AttributeEntry, AttributeHolder};

/// Until when.
fn end_said(start: OffsetDateTime, end: End) -> Result<OffsetDateTime, Fault>
    ensures { Gets instant (end_said (instant start) end) result }
{
    match end {
        End::Days(days) => end_after(start, days),
        End::At(time) => Ok(time.moment()),
    }
}

fn are_strict(attributes: &[AttributeEntry]) -> bool
    ensures { result ≡ list_all (λ a. is_strict a.values) attributes.now }
{
    attributes
        .iter()
        .all(|attribute| is_strict(attribute.values.as_slice()))
}

/// Refuses attributes whose values aren't strict DER.
fn values_strict(attributes: &[AttributeEntry]) -> Result<(), Fault>
    ensures { Passes (values_strict attributes.now) result }
{
    if are_strict(attributes) {
        Ok(())
    } else {
        Err(Fault::Obstacle(Obstacle::AttributeValues))
    }
}

/// The parameters of the attribute certificate that is ordered. Each type of attribute occurs once in
/// the name of the holder's issuer.
#[tactic(auto, unfolding(crate::specs::AttributeCertificates::attribute_params))]
pub fn attribute_params(
    alloc: Global,
    order: AttributeOrder,
) -> Result<AttributeCertificateParams, Fault>
    ensures { Gets attribute_certificate_view (attribute_params order) result }
{
    let AttributeOrder {
        signing: _,
        validity,
        holder,
        serial,
        attributes,
        authority_key_id,
    } = order;
    let Validity { start, end } = validity;
    let AttributeHolder {
        name,
        serial: holder_serial,
    } = holder;
    let not_before = start.moment();
    let not_after = end_said(not_before, end)?;
    let holder_issuer = distinct_name(alloc, name)?;
    values_strict(attributes.as_slice())?;
    let attributes = attributes_of_profile(alloc, attributes.into_vec())?;
    Ok(AttributeCertificateParams {
        holder_issuer,
        holder_serial: SerialNumber::from_vec(holder_serial.into_vec()),
        serial_number: SerialNumber::from_vec(serial.into_vec()),
        not_before,
        not_after,
        attributes,
        use_authority_key_identifier_extension: authority_key_id,
    })
}
