//! The blocks that an order uses, each known by its label.
ghost use Rattle.std.specs.Prelude.{◌≡◌, map};
ghost use Rattle.shelf_fault.specs.Faults.{Gets};
ghost use Rattle.shelf_input.specs.Blocks.{blocks_in, filled, label_of, no_blocks, with_all, with_block, with_next};

use crate::files::blocks_of_files;
use asn1_core::OctetString;
use pem::Block;
use shelf_fault::{Fault, Label};
use std::alloc::Global;

/// The octets of the blocks that an order uses.
#[derive(Drop)]
pub struct Blocks {
    /// The subject's key: a SubjectPublicKeyInfo.
    pub public_key: Option<OctetString>,
    /// The subject's request.
    pub request: Option<OctetString>,
    /// The issuer's certificate.
    pub certificate: Option<OctetString>,
}

/// What a block is, by its label. `NEW CERTIFICATE REQUEST` is taken as `CERTIFICATE REQUEST` (RFC 7468, 7).
#[tactic(auto, unfolding(crate::specs::Blocks::label_of))]
fn label_of(label: &[u8]) -> Option<Label>
    ensures { result ≡ label_of label.now }
{
    if label == b"PUBLIC KEY".as_slice() {
        return Some(Label::PublicKey);
    }
    if label == b"CERTIFICATE REQUEST".as_slice() {
        return Some(Label::Request);
    }
    if label == b"NEW CERTIFICATE REQUEST".as_slice() {
        return Some(Label::Request);
    }
    if label == b"CERTIFICATE".as_slice() {
        return Some(Label::Certificate);
    }
    None
}

/// Where no octets were, there are those of the block now.
fn filled(
    place: Option<OctetString>,
    label: Label,
    octets: OctetString,
) -> Result<Option<OctetString>, Fault>
    ensures { Gets (λ o. o) (filled place label octets) result }
{
    match place {
        Some(_) => Err(Fault::Repeated(label)),
        None => Ok(Some(octets)),
    }
}

impl Blocks {
    fn with(self, label: Label, octets: OctetString) -> Result<Blocks, Fault>
        ensures { Gets (λ b. b) (with_block self label octets) result }
    {
        let Blocks {
            public_key,
            request,
            certificate,
        } = self;
        match label {
            Label::PublicKey => {
                let public_key = filled(public_key, label, octets)?;
                Ok(Blocks {
                    public_key,
                    request,
                    certificate,
                })
            }
            Label::Request => {
                let request = filled(request, label, octets)?;
                Ok(Blocks {
                    public_key,
                    request,
                    certificate,
                })
            }
            Label::Certificate => {
                let certificate = filled(certificate, label, octets)?;
                Ok(Blocks {
                    public_key,
                    request,
                    certificate,
                })
            }
        }
    }

    /// With the block of this number.
    #[tactic(auto, unfolding(crate::specs::Blocks::with_next))]
    fn with_next(self, number: usize, block: Block) -> Result<Blocks, Fault>
        ensures { Gets (λ b. b) (with_next number self block) result }
    {
        let Some(label) = label_of(block.label()) else {
            return Err(Fault::OtherLabel(number));
        };
        self.with(label, OctetString::new(block.into_octets()))
    }
}

/// With these blocks in their order.
fn with_all(list: Vec<Block>) -> Result<Blocks, Fault>
    ensures { Gets (λ b. b) (with_all 0 no_blocks list.items) result }
{
    let mut found = Blocks {
        public_key: None,
        request: None,
        certificate: None,
    };
    let mut number = 0usize;
    for block in list {
        number += 1;
        found = found.with_next(number, block)?;
    }
    Ok(found)
}

/// The blocks of files, each label at most once.
#[tactic(auto, unfolding(crate::specs::Blocks::blocks_in))]
pub fn blocks_in(alloc: Global, files: &[Vec<u8>]) -> Result<Blocks, Fault>
    ensures { Gets (λ b. b) (blocks_in (map (λ file. file.items) files.now)) result }
{
    let list = blocks_of_files(alloc, files)?;
    with_all(list)
}
