//! The octets of what is signed for a revocation list, of which the entries are made one at a time.
ghost use Rattle.std.specs.Prelude.{◌≡◌, None, true, IfOk, IfErr, OnErr, map, refl};
ghost use Rattle.std.specs.List.{list_all};
ghost use Rattle.der_tree.specs.Answers.{Encodes, Puts};
ghost use Rattle.der_tree.specs.Default.{unless_empty};
ghost use Rattle.der_tree.specs.Form.{IsDerOf};
ghost use Rattle.der_tree.specs.Grammar.{any, sequence_of};
ghost use Rattle.der_tree.specs.HasTree.{HasTree};
ghost use Rattle.der_tree.specs.Optional.{optional_put};
ghost use Rattle.pkix_cert.specs.Revocations.{tbs_cert_list};
ghost use Rattle.rcgen_issue.specs.CrlView.{revoked_view};
ghost use Rattle.rcgen_issue.specs.Lists.{has_entry_times};
ghost use Rattle.rcgen_tbs.specs.Frames.{AreEntries, framed, framed_fields, framed_value, has_none, is_raw_element, octets_in};
ghost use Rattle.rcgen_text.specs.declared.error.Error.TheVariants.{OutOfMemory};

use crate::to_be_signed::octets;
use asn1_core::Tag;
use der_tree::{Bytes, EncodeError, Tree, Trees, put, put_explicit, put_optional, tree_octets};
use pkix_cert::TbsCertList;
use rcgen_issue::{RevokedCertParams, entry};
use rcgen_sign::memory_only;
use rcgen_text::Error;
use std::alloc::Global;

/// The entries, in order: each as its octets.
pub(crate) fn entry_trees(alloc: Global, revoked: &[RevokedCertParams]) -> Result<Trees, Error>
    requires { list_all has_entry_times (map revoked_view revoked.now) ≡ true }
    ensures entries { IfOk result (AreEntries (map revoked_view revoked.now)) }
    ensures memory { IfErr result (λ e. e ≡ OutOfMemory) }
{
    let mut trees = Trees::new(alloc);
    for params in revoked {
        let entry = entry(alloc, params)?;
        let bytes = Bytes::from_vec(octets(alloc, &entry)?);
        trees.push(Tree::Raw { bytes })?;
    }
    Ok(trees)
}

fn has_none(trees: &Trees) -> bool
    ensures { result ≡ has_none trees.now }
{
    match trees.as_slice() {
        [] => true,
        [_, ..] => false,
    }
}

/// Appends the SEQUENCE of these elements to the fields, unless there are no elements.
fn put_entries(fields: &mut Trees, entries: Trees) -> Result<(), EncodeError>
    requires { list_all is_raw_element entries ≡ true }
    ensures puts { Puts result fields.old fields.new (optional_put (sequence_of any 0 None refl) (unless_empty (map octets_in entries))) }
    ensures err { OnErr result (fields.new ≡ fields.old) }
{
    if has_none(&entries) {
        return Ok(());
    }
    fields.push(Tree::Node {
        tag: Tag::SEQUENCE,
        children: entries,
    })?;
    Ok(())
}

/// The fields of the list, with these elements in place of its entries.
#[tactic(auto, unfolding(crate::specs::Frames::framed_fields))]
fn put_framed(
    alloc: Global,
    fields: &mut Trees,
    frame: &TbsCertList,
    entries: Trees,
) -> Result<(), EncodeError>
    requires { list_all is_raw_element entries ≡ true }
    ensures { Puts result fields.old fields.new (framed_fields.fields.put (framed_value frame.now (map octets_in entries))) }
{
    put_optional(alloc, fields, frame.version.as_ref())?;
    put(alloc, fields, &frame.signature)?;
    put(alloc, fields, &frame.issuer)?;
    put(alloc, fields, &frame.this_update)?;
    put_optional(alloc, fields, frame.next_update.as_ref())?;
    put_entries(fields, entries)?;
    put_explicit(alloc, fields, frame.crl_extensions.as_ref(), Tag::CONTEXT_0)?;
    Ok(())
}

/// The list as a tree, with these elements in place of its entries.
fn framed_tree(alloc: Global, frame: &TbsCertList, entries: Trees) -> Result<Tree, EncodeError>
    requires { list_all is_raw_element entries ≡ true }
    ensures { Encodes result (framed.tree_of (framed_value frame.now (map octets_in entries))) }
{
    let mut children = Trees::new(alloc);
    put_framed(alloc, &mut children, frame, entries)?;
    Ok(Tree::Node {
        tag: Tag::SEQUENCE,
        children,
    })
}

/// The octets of the list, with these elements in place of its entries.
pub(crate) fn framed_octets(
    alloc: Global,
    frame: &TbsCertList,
    entries: Trees,
) -> Result<Vec<u8>, Error>
    requires frame { HasTree tbs_cert_list frame.now }
    requires entries { list_all is_raw_element entries ≡ true }
    ensures form { IfOk result (λ m. IsDerOf framed (framed_value frame.now (map octets_in entries)) m.items) }
    ensures memory { IfErr result (λ e. e ≡ OutOfMemory) }
{
    let tree = memory_only(framed_tree(alloc, frame, entries))?;
    let octets = tree_octets(alloc, &tree)?;
    Ok(octets)
}
