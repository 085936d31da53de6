ghost use Rattle.std.specs.Prelude.{◌≡◌};
ghost use Rattle.rcgen_text.specs.Addresses.{AreOctets, IsAddressText, ReadsText};
ghost use Rattle.rcgen_text.specs.declared.ip.IpAddr.TheVariants as ip;

use asn1_core::TryClone;
use std::net;

/// An IP address, its octets in network order.
#[derive(Clone, Copy, Debug, PartialEq, Eq, Hash)]
pub enum IpAddr {
    /// An IPv4 address.
    V4([u8; 4]),
    /// An IPv6 address.
    V6([u8; 16]),
}

/// The IPv4 address of its octets.
fn v4_address(octets: [u8; 4]) -> IpAddr
    ensures value { result ≡ ip.V4 octets }
    ensures octets { AreOctets 4 octets }
{
    IpAddr::V4(octets)
}

/// The IPv6 address of its octets.
fn v6_address(octets: [u8; 16]) -> IpAddr
    ensures value { result ≡ ip.V6 octets }
    ensures octets { AreOctets 16 octets }
{
    IpAddr::V6(octets)
}

impl IpAddr {
    /// The address of the text: four decimals from 0 to 255 joined by periods, none with a leading
    /// zero, or the groups of RFC 4291, 2.2, without a zone. None exactly where the text is neither.
    #[tactic(auto, using(crate::proofs::Addresses::parsing))]
    pub fn parse(text: &str) -> Option<IpAddr>
        ensures { ReadsText IsAddressText text.now result }
    {
        match text.parse::<net::IpAddr>() {
            Ok(net::IpAddr::V4(address)) => Some(v4_address(address.octets())),
            Ok(net::IpAddr::V6(address)) => Some(v6_address(address.octets())),
            Err(_) => None,
        }
    }
}

impl TryClone for IpAddr {
    ghost copies_are_equal = { λ _ _ same. same };
}
