//! Lists of revoked certificates (RFC 5280, 5.1).
ghost use Rattle.std.specs.Prelude.{◌≡◌, ◌++◌, OnOk};
ghost use Rattle.shelf_explain.specs.Lists.{all_entries, entries_lines, entry_lines, list_lines, tbs_list_lines, times_lines, unsigned_list_lines};

use crate::block::{
    BELOW, LINE, ShowLines, push_algorithm, push_inner_algorithm, push_line_of, push_serial_line,
    push_signature, push_titled_extensions,
};
use crate::extension::push_extensions;
use crate::line::push_line;
use pkix_cert::{CertificateList, RevokedCertificate, TbsCertList};
use std::alloc::{AllocError, Global};

/// The indent of what belongs to an entry.
const BELOW_ENTRY: &[u8] = b"      ";

/// Pushes the lines of an entry.
#[tactic(auto, unfolding(crate::specs::Lists::entry_lines))]
fn push_entry(
    alloc: Global,
    lines: &mut Vec<u8>,
    entry: &RevokedCertificate,
) -> Result<(), AllocError>
    ensures { OnOk result (lines.new.items ≡ lines.old.items ++ entry_lines entry.now) }
{
    push_serial_line(alloc, lines, BELOW, &entry.user_certificate)?;
    push_line(
        alloc,
        lines,
        BELOW_ENTRY,
        b"revoked",
        &entry.revocation_date,
    )?;
    push_extensions(
        alloc,
        lines,
        BELOW_ENTRY,
        entry.crl_entry_extensions.as_ref(),
    )?;
    Ok(())
}

#[tactic(auto, using(crate::proofs::Joined::pushing), unfolding(crate::specs::Lists::all_entries))]
fn push_all_entries(
    alloc: Global,
    lines: &mut Vec<u8>,
    entries: &[RevokedCertificate],
) -> Result<(), AllocError>
    ensures { OnOk result (lines.new.items ≡ lines.old.items ++ all_entries entries.now) }
{
    for entry in entries {
        push_entry(alloc, lines, entry)?;
    }
    Ok(())
}

/// Pushes how many entries there are, and the entries.
#[tactic(auto, unfolding(crate::specs::Lists::entries_lines))]
fn push_entries(
    alloc: Global,
    lines: &mut Vec<u8>,
    entries: &[RevokedCertificate],
) -> Result<(), AllocError>
    ensures { OnOk result (lines.new.items ≡ lines.old.items ++ entries_lines entries.now) }
{
    let count = entries.len() as u64;
    push_line(alloc, lines, LINE, b"revoked certificates", &count)?;
    push_all_entries(alloc, lines, entries)?;
    Ok(())
}

/// Pushes who, and when.
#[tactic(auto, unfolding(crate::specs::Lists::times_lines))]
fn push_times(alloc: Global, lines: &mut Vec<u8>, list: &TbsCertList) -> Result<(), AllocError>
    ensures { OnOk result (lines.new.items ≡ lines.old.items ++ times_lines list.now) }
{
    push_line(alloc, lines, LINE, b"issuer", &list.issuer)?;
    push_line(alloc, lines, LINE, b"this update", &list.this_update)?;
    push_line_of(alloc, lines, b"next update", list.next_update.as_ref())?;
    push_line_of(alloc, lines, b"version", list.version.as_ref())?;
    Ok(())
}

/// Pushes what an issuer signs.
#[tactic(auto, unfolding(crate::specs::Lists::tbs_list_lines))]
fn push_tbs_list(alloc: Global, lines: &mut Vec<u8>, list: &TbsCertList) -> Result<(), AllocError>
    ensures { OnOk result (lines.new.items ≡ lines.old.items ++ tbs_list_lines list.now) }
{
    push_times(alloc, lines, list)?;
    push_titled_extensions(alloc, lines, list.crl_extensions.as_ref())?;
    push_entries(alloc, lines, list.revoked_certificates.as_slice())?;
    Ok(())
}

impl ShowLines for CertificateList {
    ghost written = { list_lines };

    #[tactic(auto, unfolding(crate::specs::Lists::list_lines))]
    fn push_lines(&self, alloc: Global, lines: &mut Vec<u8>) -> Result<(), AllocError> {
        push_tbs_list(alloc, lines, &self.tbs_cert_list)?;
        push_inner_algorithm(
            alloc,
            lines,
            &self.tbs_cert_list.signature,
            &self.signature_algorithm,
        )?;
        push_signature(alloc, lines, &self.signature_algorithm, &self.signature)?;
        Ok(())
    }
}

impl ShowLines for TbsCertList {
    ghost written = { unsigned_list_lines };

    #[tactic(auto, unfolding(crate::specs::Lists::unsigned_list_lines))]
    fn push_lines(&self, alloc: Global, lines: &mut Vec<u8>) -> Result<(), AllocError> {
        push_tbs_list(alloc, lines, self)?;
        push_algorithm(alloc, lines, &self.signature)?;
        Ok(())
    }
}

impl ShowLines for RevokedCertificate {
    ghost written = { entry_lines };

    fn push_lines(&self, alloc: Global, lines: &mut Vec<u8>) -> Result<(), AllocError> {
        push_entry(alloc, lines, self)
    }
}
