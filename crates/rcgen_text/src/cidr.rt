ghost use Rattle.std.specs.Prelude.{◌≡◌, IfOk, IfErr};
ghost use Rattle.std.specs.List.{before_first};
ghost use Rattle.rcgen_text.specs.Addresses.{ReadsText, octet_mask, mask, subnet_of, subnet_octets, is_slash, IsPrefixText, IsSubnetText};
ghost use Rattle.rcgen_text.specs.declared.cidr.CidrSubnet.TheVariants as cidr;
ghost use Rattle.rcgen_text.specs.declared.error.Error.TheVariants.{OutOfMemory as NoMemory};

use crate::error::Error;
use crate::ip::IpAddr;
use asn1_core::TryClone;
use std::alloc::Global;

/// A subnet: an address and a mask (RFC 5280, 4.2.1.10).
#[derive(Clone, Copy, Debug, PartialEq, Eq, Hash)]
pub enum CidrSubnet {
    /// An IPv4 address and its mask.
    V4([u8; 4], [u8; 4]),
    /// An IPv6 address and its mask.
    V6([u8; 16], [u8; 16]),
}

#[tactic(auto, using(crate::proofs::Addresses::all_bits))]
fn octet_mask(bits: u8) -> u8
    ensures { result ≡ octet_mask bits }
{
    match bits {
        0 => 0x00,
        1 => 0x80,
        2 => 0xC0,
        3 => 0xE0,
        4 => 0xF0,
        5 => 0xF8,
        6 => 0xFC,
        7 => 0xFE,
        8.. => 0xFF,
    }
}

/// The mask of which the first bits are set.
fn mask<const N: usize>(prefix: u8) -> [u8; N]
    ensures { result ≡ mask N prefix }
{
    let mut mask = [0; N];
    let mut left = prefix;
    for octet in mask.iter_mut() {
        *octet = octet_mask(left);
        left = left.saturating_sub(8);
    }
    mask
}

fn before_slash(text: &str) -> &str
    ensures { result.now ≡ before_first is_slash text.now }
{
    match text.split_once('/') {
        Some((before, _)) => before,
        None => text,
    }
}

fn prefix_of(text: &str) -> Option<u8>
    ensures { ReadsText IsPrefixText text.now result }
{
    match text.parse::<u8>() {
        Ok(prefix) => Some(prefix),
        Err(_) => None,
    }
}

impl CidrSubnet {
    /// The subnet of the addresses that begin with so many bits of this one; with all of them where
    /// the prefix is wider than the address.
    pub fn from_addr_prefix(addr: IpAddr, prefix: u8) -> CidrSubnet
        ensures { result ≡ subnet_of addr prefix }
    {
        match addr {
            IpAddr::V4(addr) => CidrSubnet::from_v4_prefix(addr, prefix),
            IpAddr::V6(addr) => CidrSubnet::from_v6_prefix(addr, prefix),
        }
    }

    /// The same of an IPv4 address.
    pub fn from_v4_prefix(addr: [u8; 4], prefix: u8) -> CidrSubnet
        ensures { result ≡ cidr.V4 addr (mask 4 prefix) }
    {
        CidrSubnet::V4(addr, mask(prefix))
    }

    /// The same of an IPv6 address.
    pub fn from_v6_prefix(addr: [u8; 16], prefix: u8) -> CidrSubnet
        ensures { result ≡ cidr.V6 addr (mask 16 prefix) }
    {
        CidrSubnet::V6(addr, mask(prefix))
    }

    /// The subnet of a text ADDRESS/PREFIX. None exactly where the text is none.
    #[tactic(auto, using(crate::proofs::Addresses::parsing))]
    pub fn from_str(text: &str) -> Option<CidrSubnet>
        ensures { ReadsText IsSubnetText text.now result }
    {
        let (address, rest) = text.split_once('/')?;
        let address = IpAddr::parse(address)?;
        let prefix = prefix_of(before_slash(rest))?;
        Some(CidrSubnet::from_addr_prefix(address, prefix))
    }

    /// The address, then the mask (RFC 5280, 4.2.1.10).
    pub fn to_bytes(&self, alloc: Global) -> Result<Vec<u8>, Error>
        ensures value { IfOk result (λ bytes. bytes.items ≡ subnet_octets self.now) }
        ensures memory { IfErr result (λ e. e ≡ NoMemory) }
    {
        let (address, mask) = match self {
            CidrSubnet::V4(address, mask) => (address.as_slice(), mask.as_slice()),
            CidrSubnet::V6(address, mask) => (address.as_slice(), mask.as_slice()),
        };
        let mut bytes = Vec::from_slice(alloc, address)?;
        bytes.extend_from_slice(mask)?;
        Ok(bytes)
    }
}

impl TryClone for CidrSubnet {
    ghost copies_are_equal = { λ _ _ same. same };
}
