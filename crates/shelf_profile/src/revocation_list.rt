//! The order of a revocation list (RFC 5280, 5).
ghost use Rattle.std.specs.Prelude.{◌≡◌, IfOk};
ghost use Rattle.std.specs.Option.{option_copied};
ghost use Rattle.std.specs.List.{list_all};
ghost use Rattle.shelf_profile.specs.RevocationList.{is_base, is_content, is_entry, is_reason, list_of, list_values};

use crate::serial::{is_less, is_number, is_serial};
use crate::signing::Signing;
use rcgen_text::RevocationReason;
use std::alloc::{AllocError, Global};
use toml_format::{Entries, FromTable, HexBytes, ListContent, Reason, Revoked, TableReader};

/// What a revocation list is to say.
#[derive(Drop)]
pub struct ListOrder {
    /// How it is signed.
    pub signing: Signing,
    /// What it says: its number has 1 to 20 octets (RFC 5280, 5.2.3); each entry is of a serial number as
    /// certificates have it (4.1.2.2), and without a base none has the reason removeFromCRL, which is
    /// for delta lists (5.3.1).
    pub content: ListContent,
    /// Of a delta list the number of the complete list on which it is based, as octets, the highest
    /// first: it is less than the list's own number (RFC 5280, 5.2.4).
    pub base: Option<HexBytes>,
}

/// Whether an entry may have this reason.
pub fn is_reason(is_delta: bool, reason: Option<RevocationReason>) -> bool
    ensures { result ≡ is_reason is_delta reason }
{
    match reason {
        Some(RevocationReason::RemoveFromCrl) => is_delta,
        _ => true,
    }
}

/// Whether an entry may be so.
fn is_entry(is_delta: bool, entry: &Revoked) -> bool
    ensures { result ≡ is_entry is_delta entry.now }
{
    is_serial(entry.serial.as_slice()) && is_reason(is_delta, entry.reason)
}

fn are_entries(is_delta: bool, entries: &[Revoked]) -> bool
    ensures { result ≡ list_all (is_entry is_delta) entries.now }
{
    entries.iter().all(|entry| is_entry(is_delta, entry))
}

/// Whether a list may say this.
fn is_content(is_delta: bool, content: &ListContent) -> bool
    ensures { result ≡ is_content is_delta content.now }
{
    is_number(content.number.as_slice()) && are_entries(is_delta, content.revoked.as_slice())
}

/// Whether a list of this number may have this base.
fn is_base(base: Option<&HexBytes>, number: &[u8]) -> bool
    ensures { result ≡ is_base (option_copied base.entry) number.now }
{
    match base {
        Some(base) => is_number(base.as_slice()) && is_less(base.as_slice(), number),
        None => true,
    }
}

impl FromTable for ListOrder {
    type Keys = ((((), Signing), ListContent), Option<HexBytes>);

    ghost keys = { list_values };

    ghost of_keys = { list_of };

    #[tactic(auto, unfolding(crate::specs::RevocationList::list_values))]
    fn keys<'a>(
        alloc: Global,
        entries: Entries<'a>,
    ) -> Result<TableReader<'a, Self::Keys>, AllocError> {
        let reader = TableReader::new(entries)
            .and(alloc)?
            .and(alloc)?
            .optional(alloc, "base")?;
        Ok(reader)
    }

    #[tactic(auto, unfolding(crate::specs::RevocationList::list_of))]
    fn of_keys(values: Self::Keys) -> Result<ListOrder, Reason> {
        let ((((), signing), content), base) = values;
        if is_content(base.is_some(), &content)
            && is_base(base.as_ref(), content.number.as_slice())
        {
            Ok(ListOrder {
                signing,
                content,
                base,
            })
        } else {
            Err(Reason::WrongValue)
        }
    }
}
