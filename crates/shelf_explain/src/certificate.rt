//! Certificates (RFC 5280, 4.1).
ghost use Rattle.std.specs.Prelude.{◌≡◌, ◌++◌, OnOk};
ghost use Rattle.shelf_explain.specs.Blocks.{certificate_lines, names_and_times, tbs_lines, unsigned_lines};

use crate::block::{
    LINE, ShowLines, push_algorithm, push_inner_algorithm, push_line_of, push_serial_line,
    push_signature, push_titled_extensions,
};
use crate::key::push_key_lines;
use crate::line::push_line;
use pkix_cert::{Certificate, SubjectPublicKeyInfo, TbsCertificate};
use std::alloc::{AllocError, Global};

/// Pushes who and when.
#[tactic(auto, unfolding(crate::specs::Blocks::names_and_times))]
fn push_names_and_times(
    alloc: Global,
    lines: &mut Vec<u8>,
    tbs: &TbsCertificate,
) -> Result<(), AllocError>
    ensures { OnOk result (lines.new.items ≡ lines.old.items ++ names_and_times tbs.now) }
{
    push_line(alloc, lines, LINE, b"subject", &tbs.subject)?;
    push_line(alloc, lines, LINE, b"issuer", &tbs.issuer)?;
    push_serial_line(alloc, lines, LINE, &tbs.serial_number)?;
    push_line(alloc, lines, LINE, b"not before", &tbs.validity.not_before)?;
    push_line(alloc, lines, LINE, b"not after", &tbs.validity.not_after)?;
    Ok(())
}

/// Pushes what an issuer signs.
#[tactic(auto, unfolding(crate::specs::Blocks::tbs_lines))]
fn push_tbs(alloc: Global, lines: &mut Vec<u8>, tbs: &TbsCertificate) -> Result<(), AllocError>
    ensures { OnOk result (lines.new.items ≡ lines.old.items ++ tbs_lines tbs.now) }
{
    push_names_and_times(alloc, lines, tbs)?;
    push_key_lines(alloc, lines, &tbs.subject_public_key_info)?;
    push_line(alloc, lines, LINE, b"version", &tbs.version)?;
    push_line_of(
        alloc,
        lines,
        b"issuer unique id",
        tbs.issuer_unique_id.as_ref(),
    )?;
    push_line_of(
        alloc,
        lines,
        b"subject unique id",
        tbs.subject_unique_id.as_ref(),
    )?;
    push_titled_extensions(alloc, lines, tbs.extensions.as_ref())?;
    Ok(())
}

impl ShowLines for Certificate {
    ghost written = { certificate_lines };

    #[tactic(auto, unfolding(crate::specs::Blocks::certificate_lines))]
    fn push_lines(&self, alloc: Global, lines: &mut Vec<u8>) -> Result<(), AllocError> {
        push_tbs(alloc, lines, &self.tbs_certificate)?;
        push_inner_algorithm(
            alloc,
            lines,
            &self.tbs_certificate.signature,
            &self.signature_algorithm,
        )?;
        push_signature(
            alloc,
            lines,
            &self.signature_algorithm,
            &self.signature_value,
        )?;
        Ok(())
    }
}

impl ShowLines for TbsCertificate {
    ghost written = { unsigned_lines };

    #[tactic(auto, unfolding(crate::specs::Blocks::unsigned_lines))]
    fn push_lines(&self, alloc: Global, lines: &mut Vec<u8>) -> Result<(), AllocError> {
        push_tbs(alloc, lines, self)?;
        push_algorithm(alloc, lines, &self.signature)?;
        Ok(())
    }
}

impl ShowLines for SubjectPublicKeyInfo {
    ghost use Rattle.shelf_explain.specs.Keys.{key_lines};

    ghost written = { key_lines };

    fn push_lines(&self, alloc: Global, lines: &mut Vec<u8>) -> Result<(), AllocError> {
        push_key_lines(alloc, lines, self)
    }
}
