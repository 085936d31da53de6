//! Attribute certificates (RFC 5755, 4).
ghost use Rattle.std.specs.Prelude.{◌≡◌, ◌++◌, OnOk};
ghost use Rattle.shelf_explain.specs.AttributeCertificates.{attribute_certificate_lines, attributes_of, digest_text, form_lines, holder_lines, info_lines, issuer_lines, issuer_serial_text, times_lines, unsigned_info_lines};

use crate::block::{
    LINE, ShowLines, push_algorithm, push_inner_algorithm, push_line_of, push_serial_line,
    push_signature, push_titled_extensions,
};
use crate::line::push_line;
use crate::points::push_serial_of;
use crate::request::push_plain_attribute;
use crate::show::ShowText;
use pkix_attr::{
    AttributeCertificate, AttributeCertificateInfo, Holder, Issuer, IssuerSerial, ObjectDigestInfo,
    V2Form,
};
use pkix_cert::Attribute;
use std::alloc::{AllocError, Global};

impl ShowText for IssuerSerial {
    ghost text = { issuer_serial_text };

    #[tactic(auto, unfolding(crate::specs::AttributeCertificates::issuer_serial_text))]
    fn push_onto(&self, alloc: Global, lines: &mut Vec<u8>) -> Result<(), AllocError> {
        self.issuer.push_onto(alloc, lines)?;
        push_serial_of(alloc, lines, &self.serial)
    }
}

impl ShowText for ObjectDigestInfo {
    ghost text = { digest_text };

    #[tactic(auto, unfolding(crate::specs::AttributeCertificates::digest_text))]
    fn push_onto(&self, alloc: Global, lines: &mut Vec<u8>) -> Result<(), AllocError> {
        self.digest_algorithm.push_onto(alloc, lines)?;
        lines.push(b' ')?;
        self.object_digest.push_onto(alloc, lines)
    }
}

/// Pushes who holds the attributes (RFC 5755, 4.2.2).
#[tactic(auto, unfolding(crate::specs::AttributeCertificates::holder_lines))]
fn push_holder(alloc: Global, lines: &mut Vec<u8>, holder: &Holder) -> Result<(), AllocError>
    ensures { OnOk result (lines.new.items ≡ lines.old.items ++ holder_lines holder.now) }
{
    push_line_of(alloc, lines, b"holder", holder.entity_name.as_ref())?;
    push_line_of(
        alloc,
        lines,
        b"holder certificate",
        holder.base_certificate_id.as_ref(),
    )?;
    push_line_of(
        alloc,
        lines,
        b"holder digest",
        holder.object_digest_info.as_ref(),
    )?;
    Ok(())
}

#[tactic(auto, unfolding(crate::specs::AttributeCertificates::form_lines))]
fn push_form(alloc: Global, lines: &mut Vec<u8>, form: &V2Form) -> Result<(), AllocError>
    ensures { OnOk result (lines.new.items ≡ lines.old.items ++ form_lines form.now) }
{
    push_line_of(alloc, lines, b"issuer", form.issuer_name.as_ref())?;
    push_line_of(
        alloc,
        lines,
        b"issuer certificate",
        form.base_certificate_id.as_ref(),
    )?;
    push_line_of(
        alloc,
        lines,
        b"issuer digest",
        form.object_digest_info.as_ref(),
    )?;
    Ok(())
}

/// Pushes who issues them (RFC 5755, 4.2.3).
#[tactic(auto, unfolding(crate::specs::AttributeCertificates::issuer_lines))]
fn push_issuer(alloc: Global, lines: &mut Vec<u8>, issuer: &Issuer) -> Result<(), AllocError>
    ensures { OnOk result (lines.new.items ≡ lines.old.items ++ issuer_lines issuer.now) }
{
    match issuer {
        Issuer::V1(names) => push_line(alloc, lines, LINE, b"issuer", names),
        Issuer::V2(form) => push_form(alloc, lines, form),
    }
}

#[tactic(auto, using(crate::proofs::Joined::pushing), unfolding(crate::specs::AttributeCertificates::attributes_of))]
fn push_attributes(
    alloc: Global,
    lines: &mut Vec<u8>,
    attributes: &[Attribute],
) -> Result<(), AllocError>
    ensures { OnOk result (lines.new.items ≡ lines.old.items ++ attributes_of attributes.now) }
{
    for attribute in attributes {
        push_plain_attribute(alloc, lines, attribute)?;
    }
    Ok(())
}

#[tactic(auto, unfolding(crate::specs::AttributeCertificates::times_lines))]
fn push_times(
    alloc: Global,
    lines: &mut Vec<u8>,
    info: &AttributeCertificateInfo,
) -> Result<(), AllocError>
    ensures { OnOk result (lines.new.items ≡ lines.old.items ++ times_lines info.now) }
{
    let period = &info.attr_cert_validity_period;
    push_serial_line(alloc, lines, LINE, &info.serial_number)?;
    push_line(alloc, lines, LINE, b"not before", &period.not_before)?;
    push_line(alloc, lines, LINE, b"not after", &period.not_after)?;
    push_line(alloc, lines, LINE, b"version number", &info.version.0)?;
    Ok(())
}

/// Pushes what is signed.
#[tactic(auto, unfolding(crate::specs::AttributeCertificates::info_lines))]
fn push_info(
    alloc: Global,
    lines: &mut Vec<u8>,
    info: &AttributeCertificateInfo,
) -> Result<(), AllocError>
    ensures { OnOk result (lines.new.items ≡ lines.old.items ++ info_lines info.now) }
{
    push_holder(alloc, lines, &info.holder)?;
    push_issuer(alloc, lines, &info.issuer)?;
    push_times(alloc, lines, info)?;
    push_attributes(alloc, lines, info.attributes.as_slice())?;
    push_line_of(
        alloc,
        lines,
        b"issuer unique id",
        info.issuer_unique_id.as_ref(),
    )?;
    push_titled_extensions(alloc, lines, info.extensions.as_ref())?;
    Ok(())
}

impl ShowLines for AttributeCertificate {
    ghost written = { attribute_certificate_lines };

    #[tactic(auto, unfolding(crate::specs::AttributeCertificates::attribute_certificate_lines))]
    fn push_lines(&self, alloc: Global, lines: &mut Vec<u8>) -> Result<(), AllocError> {
        push_info(alloc, lines, &self.info)?;
        push_inner_algorithm(
            alloc,
            lines,
            &self.info.signature,
            &self.signature_algorithm,
        )?;
        push_signature(
            alloc,
            lines,
            &self.signature_algorithm,
            &self.signature_value,
        )?;
        Ok(())
    }
}

impl ShowLines for AttributeCertificateInfo {
    ghost written = { unsigned_info_lines };

    #[tactic(auto, unfolding(crate::specs::AttributeCertificates::unsigned_info_lines))]
    fn push_lines(&self, alloc: Global, lines: &mut Vec<u8>) -> Result<(), AllocError> {
        push_info(alloc, lines, self)?;
        push_algorithm(alloc, lines, &self.signature)?;
        Ok(())
    }
}

impl ShowLines for Holder {
    ghost written = { holder_lines };

    fn push_lines(&self, alloc: Global, lines: &mut Vec<u8>) -> Result<(), AllocError> {
        push_holder(alloc, lines, self)
    }
}

impl ShowLines for Issuer {
    ghost written = { issuer_lines };

    fn push_lines(&self, alloc: Global, lines: &mut Vec<u8>) -> Result<(), AllocError> {
        push_issuer(alloc, lines, self)
    }
}
