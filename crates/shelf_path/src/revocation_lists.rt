//! The revocation lists of a question, and the certificates of their issuers.
ghost use Rattle.std.specs.Prelude.{◌≡◌, ◌+◌, ◌<◌, ◌≤◌, ◌^◌, length, Ok};
ghost use Rattle.std.specs.List.{position_or_len};
ghost use Rattle.shelf_fault.specs.Faults.{Gets, and_then};
ghost use Rattle.shelf_path.specs.RevocationLists.{data_of, certificate_count, is_issuer, is_list, issuer_in, list_in, lists_behind, no_data};
ghost use Rattle.shelf_path.specs.RevocationLists.{with_block, with_certificate, with_list};

use crate::certificates::whole_certificate;
use der_tree::der;
use pem::Block;
use pkix_cert::{CertificateList, CertificateView};
use shelf_fault::Fault;
use std::alloc::Global;

/// How many certificates of issuers of lists are taken.
const MOST_ISSUERS: usize = 16;

/// Whether the block is a list's, by its label (RFC 7468, 6).
fn is_list(block: &Block) -> bool
    ensures { result ≡ is_list block.now }
{
    block.label() == b"X509 CRL".as_slice()
}

/// How many blocks come before the first list.
fn before_lists(blocks: &[Block]) -> usize
    ensures { result ≡ position_or_len is_list blocks.now }
{
    blocks.iter().take_while(|block| !is_list(block)).count()
}

/// How many of the blocks are the certificates', where revocation is asked or isn't.
#[tactic(auto, unfolding(crate::specs::RevocationLists::certificate_count))]
pub(crate) fn certificate_count(asked: bool, blocks: &[Block]) -> usize
    ensures count { result ≡ certificate_count asked blocks.now }
    ensures within { result ≤ length blocks.now }
{
    if asked {
        before_lists(blocks).max(1).min(blocks.len())
    } else {
        blocks.len()
    }
}

/// The list of the block of this number.
#[tactic(auto, unfolding(crate::specs::RevocationLists::list_in))]
fn list_in(alloc: Global, number: usize, block: &Block) -> Result<CertificateList, Fault>
    ensures { Gets (λ list. list) (list_in number block.now) result }
{
    if !is_list(block) {
        return Err(Fault::NotList(number));
    }
    let Some(list) = der::value_of(alloc, block.octets())? else {
        return Err(Fault::NotList(number));
    };
    Ok(list)
}

/// What comes after the path.
#[derive(Drop)]
pub(crate) struct RevocationBlocks<'a> {
    /// The revocation lists.
    pub(crate) lists: Vec<CertificateList>,
    /// The certificates of their issuers (RFC 5280, 6.3.3 (f)).
    pub(crate) issuers: Vec<CertificateView<'a>>,
}

/// Whether the block is the certificate of an issuer of lists, by a label of its own: so no list before the
/// anchor's certificate makes another certificate the anchor.
fn is_issuer(block: &Block) -> bool
    ensures { result ≡ is_issuer block.now }
{
    block.label() == b"CRL ISSUER CERTIFICATE".as_slice()
}

/// The certificate of the block of this number.
#[tactic(auto, unfolding(crate::specs::RevocationLists::issuer_in))]
fn issuer_in(number: usize, block: &Block) -> Result<CertificateView<'_>, Fault>
    ensures { Gets (λ view. view) (issuer_in number block.now) result }
{
    match whole_certificate(block.octets()) {
        Some(view) => Ok(view),
        None => Err(Fault::NotCertificate(number)),
    }
}

/// Appends the certificate of the block of this number.
fn with_certificate<'a>(
    number: usize,
    block: &'a Block,
    read: RevocationBlocks<'a>,
) -> Result<RevocationBlocks<'a>, Fault>
    ensures { Gets data_of (and_then (issuer_in number block.now) (λ k. Ok (with_certificate (data_of read.entry) k))) result }
{
    let RevocationBlocks { lists, mut issuers } = read;
    let view = issuer_in(number, block)?;
    issuers.push(view)?;
    Ok(RevocationBlocks { lists, issuers })
}

/// Appends the list of the block of this number.
fn with_list<'a>(
    alloc: Global,
    number: usize,
    block: &Block,
    read: RevocationBlocks<'a>,
) -> Result<RevocationBlocks<'a>, Fault>
    ensures { Gets data_of (and_then (list_in number block.now) (λ l. Ok (with_list (data_of read.entry) l))) result }
{
    let RevocationBlocks { mut lists, issuers } = read;
    let list = list_in(alloc, number, block)?;
    lists.push(list)?;
    Ok(RevocationBlocks { lists, issuers })
}

/// Appends what the block of this number is.
#[tactic(auto, unfolding(crate::specs::RevocationLists::with_block))]
fn with_block<'a>(
    alloc: Global,
    number: usize,
    block: &'a Block,
    read: RevocationBlocks<'a>,
) -> Result<RevocationBlocks<'a>, Fault>
    ensures { Gets data_of (with_block number block.now (data_of read.entry)) result }
{
    if is_issuer(block) && read.issuers.len() < MOST_ISSUERS {
        with_certificate(number, block, read)
    } else {
        with_list(alloc, number, block, read)
    }
}

/// The lists of these blocks and the certificates of their issuers, in their order, after so many other
/// blocks.
pub(crate) fn lists_behind<'a>(
    alloc: Global,
    count: usize,
    blocks: &'a [Block],
) -> Result<RevocationBlocks<'a>, Fault>
    requires { count + length blocks.now < 2 ^ 63 }
    ensures { Gets data_of (lists_behind count no_data blocks.now) result }
{
    let mut read = RevocationBlocks {
        lists: Vec::new(alloc),
        issuers: Vec::new(alloc),
    };
    let mut number = count;
    for block in blocks {
        number += 1;
        read = with_block(alloc, number, block, read)?;
    }
    Ok(read)
}
