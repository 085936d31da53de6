//! Key usage (RFC 5280, 4.2.1.3).
ghost use Rattle.std.specs.Prelude.{◌≡◌, IfOk, IfErr};
ghost use Rattle.rcgen_text.specs.declared.error.Error.TheVariants.{OutOfMemory};
ghost use Rattle.rcgen_read.specs.ExtensionReading.{read_usages, usages_of_bits};
ghost use Rattle.rcgen_read.specs.Reading.{ReadsAs};

use crate::extensions::contents_value;
use asn1_core::BitString;
use rcgen_issue::{Error, KeyUsagePurpose};
use std::alloc::Global;

/// All usages, in the order of their bits.
const USAGES: [KeyUsagePurpose; 9] = [
    KeyUsagePurpose::DigitalSignature,
    KeyUsagePurpose::ContentCommitment,
    KeyUsagePurpose::KeyEncipherment,
    KeyUsagePurpose::DataEncipherment,
    KeyUsagePurpose::KeyAgreement,
    KeyUsagePurpose::KeyCertSign,
    KeyUsagePurpose::CrlSign,
    KeyUsagePurpose::EncipherOnly,
    KeyUsagePurpose::DecipherOnly,
];

/// The usages whose bits are set, in order.
pub(crate) fn usages_of_bits(alloc: Global, bits: &BitString) -> Result<Vec<KeyUsagePurpose>, Error>
    ensures value { IfOk result (λ usages. usages.items ≡ usages_of_bits bits.now) }
    ensures memory { IfErr result (λ e. e ≡ OutOfMemory) }
{
    let mut usages = Vec::new(alloc);
    for (place, usage) in USAGES.iter().enumerate() {
        if bits.bit(place) {
            usages.push(*usage)?;
        }
    }
    Ok(usages)
}

/// The usages in the contents of the extension, in the order of their bits.
#[tactic(auto, unfolding(crate::specs::ExtensionReading::read_usages))]
pub(crate) fn key_usages(alloc: Global, contents: &[u8]) -> Result<Vec<KeyUsagePurpose>, Error>
    ensures { ReadsAs (λ usages. usages.items) (read_usages contents.now) result }
{
    let bits: BitString = contents_value(alloc, contents)?;
    usages_of_bits(alloc, &bits)
}
