//! Numbers as certificates hold them.
ghost use Rattle.std.specs.Prelude.{◌≡◌};
ghost use Rattle.asn1_core.specs.Twos.{is_negative};
ghost use Rattle.pkix_rules.specs.Integers.{is_even, is_odd, is_odd_above_one, is_one, is_positive, is_zero};

use asn1_core::Integer;

/// Whether the number is below 0.
pub(crate) fn is_negative(number: &Integer) -> bool
    ensures { result ≡ is_negative number.now }
{
    match number.as_bytes() {
        [] => false,
        [first, ..] => 127 < *first,
    }
}

/// Whether the number is 0.
pub(crate) fn is_zero(number: &Integer) -> bool
    ensures { result ≡ is_zero number.now }
{
    number.as_bytes() == [0].as_slice()
}

fn is_one(number: &Integer) -> bool
    ensures { result ≡ is_one number.now }
{
    number.as_bytes() == [1].as_slice()
}

/// Whether the number is above 0.
pub(crate) fn is_positive(number: &Integer) -> bool
    ensures { result ≡ is_positive number.now }
{
    !is_negative(number) && !is_zero(number)
}

fn is_even_octet(octet: u8) -> bool
    ensures { result ≡ is_even octet }
{
    octet % 2 == 0
}

/// Whether the number is above 1 and odd.
pub(crate) fn is_odd_above_one(number: &Integer) -> bool
    ensures { result ≡ is_odd_above_one number.now }
{
    is_positive(number) && !is_one(number) && is_odd(number)
}

/// Whether 2 doesn't divide the number.
pub(crate) fn is_odd(number: &Integer) -> bool
    ensures { result ≡ is_odd number.now }
{
    let mut odd = false;
    for octet in number.as_bytes() {
        odd = !is_even_octet(*octet);
    }
    odd
}
