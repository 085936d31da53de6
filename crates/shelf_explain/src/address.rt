//! Addresses, and subnets of them.
ghost use Rattle.std.specs.Prelude.{◌≡◌, ◌++◌, OnOk};
ghost use Rattle.shelf_explain.specs.Addresses.{address_text, eight_groups, four_groups, four_numbers, subnet_4, subnet_6, two_groups};

use crate::line::{after, first};
use crate::name::push_hex_value;
use crate::show::{push_hex, push_joined};
use std::alloc::{AllocError, Global};

#[tactic(auto, unfolding(crate::specs::Addresses::two_groups))]
fn push_two_groups(alloc: Global, lines: &mut Vec<u8>, octets: &[u8]) -> Result<(), AllocError>
    ensures { OnOk result (lines.new.items ≡ lines.old.items ++ two_groups octets.now) }
{
    push_hex(alloc, lines, first(octets, 2))?;
    lines.push(b':')?;
    push_hex(alloc, lines, after(octets, 2))
}

#[tactic(auto, unfolding(crate::specs::Addresses::four_groups))]
fn push_four_groups(alloc: Global, lines: &mut Vec<u8>, octets: &[u8]) -> Result<(), AllocError>
    ensures { OnOk result (lines.new.items ≡ lines.old.items ++ four_groups octets.now) }
{
    push_two_groups(alloc, lines, first(octets, 4))?;
    lines.push(b':')?;
    push_two_groups(alloc, lines, after(octets, 4))
}

#[tactic(auto, unfolding(crate::specs::Addresses::eight_groups))]
fn push_eight_groups(alloc: Global, lines: &mut Vec<u8>, octets: &[u8]) -> Result<(), AllocError>
    ensures { OnOk result (lines.new.items ≡ lines.old.items ++ eight_groups octets.now) }
{
    push_four_groups(alloc, lines, first(octets, 8))?;
    lines.push(b':')?;
    push_four_groups(alloc, lines, after(octets, 8))
}

#[tactic(auto, unfolding(crate::specs::Addresses::four_numbers))]
fn push_four_numbers(alloc: Global, lines: &mut Vec<u8>, octets: &[u8]) -> Result<(), AllocError>
    ensures { OnOk result (lines.new.items ≡ lines.old.items ++ four_numbers octets.now) }
{
    push_joined(alloc, lines, b".", octets)
}

#[tactic(auto, unfolding(crate::specs::Addresses::subnet_4))]
fn push_subnet_4(alloc: Global, lines: &mut Vec<u8>, octets: &[u8]) -> Result<(), AllocError>
    ensures { OnOk result (lines.new.items ≡ lines.old.items ++ subnet_4 octets.now) }
{
    push_four_numbers(alloc, lines, first(octets, 4))?;
    lines.push(b'/')?;
    push_four_numbers(alloc, lines, after(octets, 4))
}

#[tactic(auto, unfolding(crate::specs::Addresses::subnet_6))]
fn push_subnet_6(alloc: Global, lines: &mut Vec<u8>, octets: &[u8]) -> Result<(), AllocError>
    ensures { OnOk result (lines.new.items ≡ lines.old.items ++ subnet_6 octets.now) }
{
    push_eight_groups(alloc, lines, first(octets, 16))?;
    lines.push(b'/')?;
    push_eight_groups(alloc, lines, after(octets, 16))
}

/// Pushes an address, or in a constraint an address and its mask, by how many octets there are
/// (RFC 5280, 4.2.1.6, 4.2.1.10).
#[tactic(auto, unfolding(crate::specs::Addresses::address_text))]
pub(crate) fn push_address(
    alloc: Global,
    lines: &mut Vec<u8>,
    octets: &[u8],
) -> Result<(), AllocError>
    ensures { OnOk result (lines.new.items ≡ lines.old.items ++ address_text octets.now) }
{
    let length = octets.len();
    if length == 4 {
        push_four_numbers(alloc, lines, octets)
    } else if length == 8 {
        push_subnet_4(alloc, lines, octets)
    } else if length == 16 {
        push_eight_groups(alloc, lines, octets)
    } else if length == 32 {
        push_subnet_6(alloc, lines, octets)
    } else {
        push_hex_value(alloc, lines, octets)
    }
}
