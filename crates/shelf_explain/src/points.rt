//! Where something is found, and keys that are named (RFC 5280, 4.2.1.1, 4.2.1.13, 5.2.5).
ghost use Rattle.std.specs.Prelude.{◌≡◌, ◌++◌, OnOk};
ghost use Rattle.std.specs.Option.{option_copied};
ghost use Rattle.shelf_explain.specs.BitNames.{names_text, reason_names};
ghost use Rattle.shelf_explain.specs.Lines.{labelled};
ghost use Rattle.shelf_explain.specs.Numbers.{serial_text};
ghost use Rattle.shelf_explain.specs.Points.{authority_key_text, crl_reason_text, flag_text, flags_text, for_reasons_text, issuers_text, issuing_point_text, key_id_text, named_text, place_name_text, place_text, point_text, serial_of_text, some_reasons_text, some_serial_text};

use crate::bits::push_reasons;
use crate::line::{next_line, push_labelled};
use crate::number::push_serial;
use crate::show::{ShowText, push_hex};
use asn1_core::{BitString, Integer, OctetString};
use pkix_cert::{
    AuthorityKeyIdentifier, CrlReason, DistributionPoint, DistributionPointName,
    IssuingDistributionPoint,
};
use pkix_name::GeneralNames;
use std::alloc::{AllocError, Global};

impl ShowText for OctetString {
    ghost use Rattle.shelf_explain.specs.Lines.{hex_text};

    ghost text = { hex_text };

    fn push_onto(&self, alloc: Global, lines: &mut Vec<u8>) -> Result<(), AllocError> {
        push_hex(alloc, lines, self.as_slice())
    }
}

#[tactic(auto, unfolding(crate::specs::Points::key_id_text))]
fn push_key_id(
    alloc: Global,
    lines: &mut Vec<u8>,
    id: Option<&OctetString>,
) -> Result<(), AllocError>
    ensures { OnOk result (lines.new.items ≡ lines.old.items ++ key_id_text (option_copied id.entry)) }
{
    match id {
        None => lines.extend_from_slice(b"no identifier"),
        Some(id) => push_hex(alloc, lines, id.as_slice()),
    }
}

/// Pushes names on lines of their own, after what they are.
#[tactic(auto, unfolding(crate::specs::Points::named_text))]
fn push_named(
    alloc: Global,
    lines: &mut Vec<u8>,
    label: &[u8],
    names: &GeneralNames,
) -> Result<(), AllocError>
    ensures { OnOk result (lines.new.items ≡ lines.old.items ++ named_text label.now names.now) }
{
    lines.extend_from_slice(next_line())?;
    push_labelled(alloc, lines, label, names)
}

#[tactic(auto, unfolding(crate::specs::Points::issuers_text))]
fn push_issuers(
    alloc: Global,
    lines: &mut Vec<u8>,
    label: &[u8],
    names: Option<&GeneralNames>,
) -> Result<(), AllocError>
    ensures { OnOk result (lines.new.items ≡ lines.old.items ++ issuers_text label.now (option_copied names.entry)) }
{
    match names {
        None => Ok(()),
        Some(names) => push_named(alloc, lines, label, names),
    }
}

#[tactic(auto, unfolding(crate::specs::Lines::labelled))]
fn push_labelled_serial(
    alloc: Global,
    lines: &mut Vec<u8>,
    label: &[u8],
    serial: &Integer,
) -> Result<(), AllocError>
    ensures { OnOk result (lines.new.items ≡ lines.old.items ++ labelled label.now (serial_text serial.now)) }
{
    lines.extend_from_slice(label)?;
    push_serial(alloc, lines, serial)
}

#[tactic(auto, unfolding(crate::specs::Points::serial_of_text))]
pub(crate) fn push_serial_of(
    alloc: Global,
    lines: &mut Vec<u8>,
    serial: &Integer,
) -> Result<(), AllocError>
    ensures { OnOk result (lines.new.items ≡ lines.old.items ++ serial_of_text serial.now) }
{
    lines.extend_from_slice(next_line())?;
    push_labelled_serial(alloc, lines, b"serial ", serial)
}

#[tactic(auto, unfolding(crate::specs::Points::some_serial_text))]
fn push_some_serial(
    alloc: Global,
    lines: &mut Vec<u8>,
    serial: Option<&Integer>,
) -> Result<(), AllocError>
    ensures { OnOk result (lines.new.items ≡ lines.old.items ++ some_serial_text (option_copied serial.entry)) }
{
    match serial {
        None => Ok(()),
        Some(serial) => push_serial_of(alloc, lines, serial),
    }
}

impl ShowText for AuthorityKeyIdentifier {
    ghost text = { authority_key_text };

    #[tactic(auto, unfolding(crate::specs::Points::authority_key_text))]
    fn push_onto(&self, alloc: Global, lines: &mut Vec<u8>) -> Result<(), AllocError> {
        push_key_id(alloc, lines, self.key_identifier.as_ref())?;
        push_issuers(
            alloc,
            lines,
            b"issuer ",
            self.authority_cert_issuer.as_ref(),
        )?;
        push_some_serial(alloc, lines, self.authority_cert_serial_number.as_ref())
    }
}

impl ShowText for DistributionPointName {
    ghost text = { place_name_text };

    #[tactic(auto, unfolding(crate::specs::Points::place_name_text))]
    fn push_onto(&self, alloc: Global, lines: &mut Vec<u8>) -> Result<(), AllocError> {
        match self {
            DistributionPointName::FullName(names) => names.push_onto(alloc, lines),
            DistributionPointName::NameRelativeToCrlIssuer(name) => {
                push_labelled(alloc, lines, b"below the issuer: ", name)
            }
        }
    }
}

#[tactic(auto, unfolding(crate::specs::Points::place_text))]
fn push_place(
    alloc: Global,
    lines: &mut Vec<u8>,
    name: Option<&DistributionPointName>,
) -> Result<(), AllocError>
    ensures { OnOk result (lines.new.items ≡ lines.old.items ++ place_text (option_copied name.entry)) }
{
    match name {
        None => lines.extend_from_slice(b"no name"),
        Some(name) => name.push_onto(alloc, lines),
    }
}

#[tactic(auto, unfolding(crate::specs::Lines::labelled))]
fn push_labelled_reasons(
    alloc: Global,
    lines: &mut Vec<u8>,
    label: &[u8],
    reasons: &BitString,
) -> Result<(), AllocError>
    ensures { OnOk result (lines.new.items ≡ lines.old.items ++ labelled label.now (names_text reason_names reasons.now)) }
{
    lines.extend_from_slice(label)?;
    push_reasons(alloc, lines, reasons)
}

#[tactic(auto, unfolding(crate::specs::Points::for_reasons_text))]
fn push_for_reasons(
    alloc: Global,
    lines: &mut Vec<u8>,
    reasons: &BitString,
) -> Result<(), AllocError>
    ensures { OnOk result (lines.new.items ≡ lines.old.items ++ for_reasons_text reasons.now) }
{
    lines.extend_from_slice(next_line())?;
    push_labelled_reasons(alloc, lines, b"reasons ", reasons)
}

#[tactic(auto, unfolding(crate::specs::Points::some_reasons_text))]
fn push_some_reasons(
    alloc: Global,
    lines: &mut Vec<u8>,
    reasons: Option<&BitString>,
) -> Result<(), AllocError>
    ensures { OnOk result (lines.new.items ≡ lines.old.items ++ some_reasons_text (option_copied reasons.entry)) }
{
    match reasons {
        None => Ok(()),
        Some(reasons) => push_for_reasons(alloc, lines, reasons),
    }
}

impl ShowText for DistributionPoint {
    ghost text = { point_text };

    #[tactic(auto, unfolding(crate::specs::Points::point_text))]
    fn push_onto(&self, alloc: Global, lines: &mut Vec<u8>) -> Result<(), AllocError> {
        push_place(alloc, lines, self.distribution_point.as_ref())?;
        push_some_reasons(alloc, lines, self.reasons.as_ref())?;
        push_issuers(alloc, lines, b"CRL issuer ", self.crl_issuer.as_ref())
    }
}

#[tactic(auto, unfolding(crate::specs::Points::flag_text))]
fn push_flag(lines: &mut Vec<u8>, is_set: bool, name: &[u8]) -> Result<(), AllocError>
    ensures { OnOk result (lines.new.items ≡ lines.old.items ++ flag_text is_set name.now) }
{
    if is_set {
        lines.extend_from_slice(next_line())?;
        lines.extend_from_slice(name)
    } else {
        Ok(())
    }
}

/// Pushes what a list is about.
#[tactic(auto, unfolding(crate::specs::Points::flags_text))]
fn push_flags(lines: &mut Vec<u8>, point: &IssuingDistributionPoint) -> Result<(), AllocError>
    ensures { OnOk result (lines.new.items ≡ lines.old.items ++ flags_text point.now) }
{
    push_flag(
        lines,
        point.only_contains_user_certs,
        b"only user certificates",
    )?;
    push_flag(lines, point.only_contains_ca_certs, b"only CA certificates")?;
    push_flag(
        lines,
        point.only_contains_attribute_certs,
        b"only attribute certificates",
    )?;
    push_flag(lines, point.indirect_crl, b"indirect")?;
    Ok(())
}

impl ShowText for IssuingDistributionPoint {
    ghost text = { issuing_point_text };

    #[tactic(auto, unfolding(crate::specs::Points::issuing_point_text))]
    fn push_onto(&self, alloc: Global, lines: &mut Vec<u8>) -> Result<(), AllocError> {
        push_place(alloc, lines, self.distribution_point.as_ref())?;
        push_flags(lines, self)?;
        push_some_reasons(alloc, lines, self.only_some_reasons.as_ref())
    }
}

impl ShowText for CrlReason {
    ghost text = { crl_reason_text };

    #[tactic(auto, unfolding(crate::specs::Points::crl_reason_text))]
    fn push_onto(&self, _alloc: Global, lines: &mut Vec<u8>) -> Result<(), AllocError> {
        match self {
            CrlReason::Unspecified => lines.extend_from_slice(b"unspecified"),
            CrlReason::KeyCompromise => lines.extend_from_slice(b"key compromise"),
            CrlReason::CaCompromise => lines.extend_from_slice(b"CA compromise"),
            CrlReason::AffiliationChanged => lines.extend_from_slice(b"affiliation changed"),
            CrlReason::Superseded => lines.extend_from_slice(b"superseded"),
            CrlReason::CessationOfOperation => {
                lines.extend_from_slice(b"cessation of operation")
            }
            CrlReason::CertificateHold => lines.extend_from_slice(b"certificate hold"),
            CrlReason::RemoveFromCRL => lines.extend_from_slice(b"removed from the list"),
            CrlReason::PrivilegeWithdrawn => lines.extend_from_slice(b"privilege withdrawn"),
            CrlReason::AaCompromise => lines.extend_from_slice(b"AA compromise"),
        }
    }
}
