//! Addresses of IP and the ranges that they are in (RFC 5280, 4.2.1.10).
ghost use Rattle.std.specs.Prelude.{◌≡◌, length};
ghost use Rattle.path_names.specs.NameForms.{ip_within, is_address, is_range, same_under};

/// Whether so many octets are an address.
pub(crate) fn is_address(octets: &[u8]) -> bool
    ensures { result ≡ is_address octets.now }
{
    octets.len() == 4 || octets.len() == 16
}

/// Whether so many octets are a range: an address and a mask.
pub(crate) fn is_range(octets: &[u8]) -> bool
    ensures { result ≡ is_range octets.now }
{
    octets.len() == 8 || octets.len() == 32
}

/// Whether the two are the same where the mask has ones.
pub fn same_under(address: &[u8], base: &[u8], mask: &[u8]) -> bool
    ensures { result ≡ same_under address.now base.now mask.now }
{
    let mut bases = base;
    let mut masks = mask;
    for a in address {
        let [b, other_bases @ ..] = bases else {
            return false;
        };
        let [m, other_masks @ ..] = masks else {
            return false;
        };
        if *a & *m != *b & *m {
            return false;
        }
        bases = other_bases;
        masks = other_masks;
    }
    bases.is_empty() && masks.is_empty()
}

/// Whether the range has the address.
pub(crate) fn ip_within(address: &[u8], range: &[u8]) -> bool
    ensures { result ≡ ip_within address.now range.now }
{
    if range.len() / 2 != address.len() || range.len() % 2 != 0 {
        return false;
    }
    let (base, mask) = range.split_at(address.len());
    same_under(address, base, mask)
}
