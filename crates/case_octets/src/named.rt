//! Octets by name, since many cases have the same ones.
use std::alloc::Global;

#[derive(Drop)]
struct Named {
    name: String,
    octets: Vec<u8>,
}

/// Octets, each with its name.
#[derive(Drop)]
pub struct NamedOctets {
    list: Vec<Named>,
}

impl NamedOctets {
    /// None yet.
    pub fn new(alloc: Global) -> NamedOctets {
        NamedOctets {
            list: Vec::new(alloc),
        }
    }

    /// Names the octets; none where memory runs out.
    pub fn push(&mut self, alloc: Global, name: &str, octets: Vec<u8>) -> Option<()> {
        let name = String::from_str(alloc, name).ok()?;
        self.list.push(Named { name, octets }).ok()
    }

    /// The first octets with the name.
    pub fn octets(&self, name: &str) -> Option<&[u8]> {
        for named in self.list.as_slice() {
            if named.name.as_str() == name {
                return Some(named.octets.as_slice());
            }
        }
        None
    }
}
