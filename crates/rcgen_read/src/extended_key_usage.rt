//! Extended key usage (RFC 5280, 4.2.1.12).
ghost use Rattle.std.specs.Prelude.{◌≡◌, [], filter, map, nat_eq, not, IfOk, IfErr};
ghost use Rattle.std.specs.Cmp.Lexicographic.{pointwise};
ghost use Rattle.std.specs.List.{list_any};
ghost use Rattle.std.specs.Ordering.{is_eq};
ghost use Rattle.rcgen_text.specs.declared.error.Error.TheVariants.{OutOfMemory};
ghost use Rattle.rcgen_certificate.specs.ExtendedKeyUsages.{other, purpose_oid, purpose_of};
ghost use Rattle.rcgen_read.specs.ExtensionReading.{has_name, inserted, lists, named_of, named_purposes, read_purposes};
ghost use Rattle.rcgen_read.specs.Reading.{ReadsAs};

use crate::extensions::contents_value;
use crate::name::wide_arcs;
use asn1_core::ObjectIdentifier;
use der_tree::SequenceOf;
use rcgen_issue::{Error, ExtendedKeyUsagePurpose, purposes_are_same};
use std::alloc::Global;
use std::collections::BTreeSet;

/// A purpose that has a name.
#[derive(Clone, Copy)]
pub(crate) enum NamedPurpose {
    Any,
    ServerAuth,
    ClientAuth,
    CodeSigning,
    EmailProtection,
    TimeStamping,
    OcspSigning,
}

/// Those that are known, in the order in which they are listed.
const NAMED: [NamedPurpose; 7] = [
    NamedPurpose::Any,
    NamedPurpose::ServerAuth,
    NamedPurpose::ClientAuth,
    NamedPurpose::CodeSigning,
    NamedPurpose::EmailProtection,
    NamedPurpose::TimeStamping,
    NamedPurpose::OcspSigning,
];

impl NamedPurpose {
    /// The arcs of its identifier.
    fn arcs(self) -> &'static [u32]
        ensures { result.now ≡ purpose_oid (named_of self) }
    {
        match self {
            NamedPurpose::Any => &[2, 5, 29, 37, 0],
            NamedPurpose::ServerAuth => &[1, 3, 6, 1, 5, 5, 7, 3, 1],
            NamedPurpose::ClientAuth => &[1, 3, 6, 1, 5, 5, 7, 3, 2],
            NamedPurpose::CodeSigning => &[1, 3, 6, 1, 5, 5, 7, 3, 3],
            NamedPurpose::EmailProtection => &[1, 3, 6, 1, 5, 5, 7, 3, 4],
            NamedPurpose::TimeStamping => &[1, 3, 6, 1, 5, 5, 7, 3, 8],
            NamedPurpose::OcspSigning => &[1, 3, 6, 1, 5, 5, 7, 3, 9],
        }
    }

    /// The same, as parameters have it.
    fn purpose(self) -> ExtendedKeyUsagePurpose
        ensures { purpose_of result ≡ named_of self }
    {
        match self {
            NamedPurpose::Any => ExtendedKeyUsagePurpose::Any,
            NamedPurpose::ServerAuth => ExtendedKeyUsagePurpose::ServerAuth,
            NamedPurpose::ClientAuth => ExtendedKeyUsagePurpose::ClientAuth,
            NamedPurpose::CodeSigning => ExtendedKeyUsagePurpose::CodeSigning,
            NamedPurpose::EmailProtection => ExtendedKeyUsagePurpose::EmailProtection,
            NamedPurpose::TimeStamping => ExtendedKeyUsagePurpose::TimeStamping,
            NamedPurpose::OcspSigning => ExtendedKeyUsagePurpose::OcspSigning,
        }
    }

    /// Whether it is one of those that are listed.
    fn is_listed(self, ids: &[ObjectIdentifier]) -> bool
        ensures { result ≡ lists ids.now (named_of self) }
    {
        ids.iter().any(|id| self.arcs() == id.arcs())
    }
}

/// Whether one of these has that identifier.
fn is_one_of(purposes: &[NamedPurpose], id: &ObjectIdentifier) -> bool
    ensures { result ≡ list_any (λ p. pointwise nat_eq (purpose_oid (named_of p)) id.now) purposes.now }
{
    purposes.iter().any(|purpose| purpose.arcs() == id.arcs())
}

/// Whether the purpose of that identifier has a name.
fn has_name(id: &ObjectIdentifier) -> bool
    ensures { result ≡ has_name id.now }
{
    is_one_of(&NAMED, id)
}

/// The named purposes that are listed, in their order.
fn named_in(alloc: Global, ids: &[ObjectIdentifier]) -> Result<Vec<ExtendedKeyUsagePurpose>, Error>
    ensures value { IfOk result (λ ps. map purpose_of ps.items ≡ filter (lists ids.now) named_purposes) }
    ensures memory { IfErr result (λ e. e ≡ OutOfMemory) }
{
    let mut purposes = Vec::new(alloc);
    for named in NAMED.iter().copied() {
        if named.is_listed(ids) {
            purposes.push(named.purpose())?;
        }
    }
    Ok(purposes)
}

/// The others, by their arcs, as they are listed.
fn others_in(alloc: Global, ids: &[ObjectIdentifier]) -> Result<Vec<ExtendedKeyUsagePurpose>, Error>
    ensures value { IfOk result (λ ps. map purpose_of ps.items ≡ map other (filter (λ id. not (has_name id)) ids.now)) }
    ensures memory { IfErr result (λ e. e ≡ OutOfMemory) }
{
    let mut purposes = Vec::new(alloc);
    for id in ids.iter() {
        if !has_name(id) {
            purposes.push(ExtendedKeyUsagePurpose::Other(wide_arcs(alloc, id)?))?;
        }
    }
    Ok(purposes)
}

/// The purposes in the contents of the extension: those that have a name in the order of `NAMED`,
/// each once, and then the others as they are listed. `UnsupportedExtension` exactly where the
/// contents aren't one list of identifiers.
#[tactic(auto, unfolding(crate::specs::ExtensionReading::read_purposes))]
pub(crate) fn purposes(
    alloc: Global,
    contents: &[u8],
) -> Result<Vec<ExtendedKeyUsagePurpose>, Error>
    ensures { ReadsAs (λ ps. map purpose_of ps.items) (read_purposes contents.now) result }
{
    let ids: SequenceOf<ObjectIdentifier> = contents_value(alloc, contents)?;
    let mut listed = named_in(alloc, ids.as_slice())?;
    let mut others = others_in(alloc, ids.as_slice())?;
    listed.append(&mut others)?;
    Ok(listed)
}

/// A law: what an order doesn't tell apart is equal.
fn ties_are_equal<K: Ord>()
    ensures { (x y : K) → is_eq (K.cmp x y) ≡ K.eq x y }
{}

/// The first of each of them, in order. The time is that of a sort, n log n.
pub(crate) fn each_once(
    alloc: Global,
    purposes: Vec<ExtendedKeyUsagePurpose>,
) -> Result<Vec<ExtendedKeyUsagePurpose>, Error>
    ensures value { IfOk result (λ once. map purpose_of once.items ≡ inserted [] (map purpose_of purposes.items)) }
    ensures memory { IfErr result (λ e. e ≡ OutOfMemory) }
{
    let mut once = Vec::new(alloc);
    let mut seen = BTreeSet::new(alloc);
    ties_are_equal::<ExtendedKeyUsagePurpose>();
    purposes_are_same();
    for purpose in purposes {
        if seen.insert(purpose.clone()?)? {
            once.push(purpose)?;
        }
    }
    Ok(once)
}
