//! Key usage.
ghost use Rattle.std.specs.Prelude.{◌≡◌, ◌≤◌, ◌==◌, List, length, false, IfOk, IfErr, ◌++◌, map, OnOk};
ghost use Rattle.rcgen_text.specs.declared.error.Error.TheVariants.{OutOfMemory};
ghost use Rattle.rcgen_certificate.specs.KeyUsages.{AreBitsOf, bit_of, is_listed, weight, first_byte, named_bits, key_usage, signs_lists, key_usage_row};
ghost use Rattle.rcgen_text.specs.declared.key_usage.KeyUsagePurpose.{KeyUsagePurpose};
ghost use Rattle.rcgen_certificate.specs.ExtensionRows.{row_of_extension};

use crate::extension::push_extension;
use asn1_core::BitString;
use der_tree::SequenceOf;
use pkix_cert::Extension;
use pkix_cert::extension_id::ID_CE_KEY_USAGE;
use rcgen_text::{Error, KeyUsagePurpose};
use std::alloc::Global;

fn bit_of(purpose: KeyUsagePurpose) -> u8
    ensures { result ≡ bit_of purpose }
{
    match purpose {
        KeyUsagePurpose::DigitalSignature => 0,
        KeyUsagePurpose::ContentCommitment => 1,
        KeyUsagePurpose::KeyEncipherment => 2,
        KeyUsagePurpose::DataEncipherment => 3,
        KeyUsagePurpose::KeyAgreement => 4,
        KeyUsagePurpose::KeyCertSign => 5,
        KeyUsagePurpose::CrlSign => 6,
        KeyUsagePurpose::EncipherOnly => 7,
        KeyUsagePurpose::DecipherOnly => 8,
    }
}

fn is_listed(purposes: &[KeyUsagePurpose], i: u8) -> bool
    ensures { result ≡ is_listed purposes.now i }
{
    purposes.iter().any(|purpose| bit_of(*purpose) == i)
}

fn weight(purposes: &[KeyUsagePurpose], i: u8, n: u8) -> u8
    ensures value { result ≡ weight purposes.now i n }
    ensures most { result ≤ n }
{
    if is_listed(purposes, i) { n } else { 0 }
}

fn first_byte(purposes: &[KeyUsagePurpose]) -> u8
    ensures { result ≡ first_byte purposes.now }
{
    weight(purposes, 0, 128)
        + weight(purposes, 1, 64)
        + weight(purposes, 2, 32)
        + weight(purposes, 3, 16)
        + weight(purposes, 4, 8)
        + weight(purposes, 5, 4)
        + weight(purposes, 6, 2)
        + weight(purposes, 7, 1)
}

/// The bits of the purposes, without zero bits at the end (RFC 5280, 4.2.1.3; X.690, 11.2.2); None
/// where there is no purpose.
#[tactic(auto, using(crate::proofs::KeyUsages::fitting))]
fn key_usage(alloc: Global, purposes: &[KeyUsagePurpose]) -> Result<Option<BitString>, Error>
    ensures value { IfOk result (λ b. b ≡ key_usage purposes.now) }
    ensures memory { IfErr result (λ e. e ≡ OutOfMemory) }
{
    if purposes.is_empty() {
        return Ok(None);
    }
    let first = first_byte(purposes);
    if is_listed(purposes, 8) {
        let bytes = Vec::from_slice(alloc, &[first, 128])?;
        Ok(Some(BitString::new(bytes, 7).unwrap()))
    } else {
        let bytes = Vec::from_slice(alloc, &[first])?;
        Ok(Some(BitString::new(bytes, first.trailing_zeros() as u8).unwrap()))
    }
}

/// Whether a key for these purposes may sign revocation lists: without a purpose it is for all.
pub fn signs_lists(usages: &[KeyUsagePurpose]) -> bool
    ensures { result ≡ signs_lists usages.now }
{
    usages.is_empty() || is_listed(usages, bit_of(KeyUsagePurpose::CrlSign))
}

/// A law: the bits are those of the purposes, and the last of them is set.
pub fn key_usage_bits()
    ensures { (purposes : List KeyUsagePurpose) → (length purposes == 0) ≡ false → AreBitsOf purposes (named_bits purposes) }
{}

/// Puts the extension on what the key is for at the end.
#[tactic(auto, using(crate::proofs::KindTrees::key_usage_formed))]
pub(crate) fn push_key_usage(
    alloc: Global,
    list: &mut SequenceOf<Extension>,
    purposes: &[KeyUsagePurpose],
) -> Result<(), Error>
    ensures rows { OnOk result (map row_of_extension list.new ≡ map row_of_extension list.old ++ key_usage_row purposes.now) }
    ensures memory { IfErr result (λ e. e ≡ OutOfMemory) }
{
    let usages = key_usage(alloc, purposes)?;
    push_extension(alloc, list, ID_CE_KEY_USAGE, true, usages)
}
