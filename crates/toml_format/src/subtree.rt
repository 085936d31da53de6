//! A subtree of names as text: its kind, a colon, and what the kind takes (RFC 5280, 4.2.1.10).
ghost use Rattle.std.specs.Prelude.{◌≡◌, IfOk};
ghost use Rattle.std.specs.Option.{option_map};
ghost use Rattle.toml_format.specs.Addresses.{subnet};
ghost use Rattle.toml_format.specs.Values.{text_as};
ghost use Rattle.toml_format.specs.Subtree.{subtree, subtree_of};
ghost use Rattle.toml_format.specs.declared.subtree.Subtree.TheVariants.{Net};

use crate::from_value::{FromText, FromValue, text_as};
use crate::reason::Reason;
use crate::separator::at_separator;
use crate::text::Text;
use rcgen_text::CidrSubnet;
use std::alloc::{AllocError, Global};
use toml::Value;

/// A subtree of names that are permitted or excluded (RFC 5280, 4.2.1.10).
#[derive(Drop)]
pub enum Subtree {
    /// A DNS name.
    Dns(Text),
    /// A mailbox, or its host.
    Email(Text),
    /// A name of one common name.
    Directory(Text),
    /// A subnet.
    Net(CidrSubnet),
}

/// The subnet that the text is of.
#[tactic(auto, using(crate::proofs::Addresses::is_subnet))]
fn net_subtree(text: &str) -> Option<Subtree>
    ensures { result ≡ option_map Net (subnet.value_of text.now) }
{
    CidrSubnet::from_str(text).map(Subtree::Net)
}

/// The subtree of this kind.
#[tactic(auto, unfolding(crate::specs::Subtree::subtree_of))]
fn subtree_of(alloc: Global, kind: &str, text: &str) -> Result<Option<Subtree>, AllocError>
    ensures { IfOk result (λ found. found ≡ subtree_of kind.now text.now) }
{
    match kind {
        "dns" => Ok(Some(Subtree::Dns(Text::copy(alloc, text)?))),
        "email" => Ok(Some(Subtree::Email(Text::copy(alloc, text)?))),
        "dir" => Ok(Some(Subtree::Directory(Text::copy(alloc, text)?))),
        "net" => Ok(net_subtree(text)),
        _ => Ok(None),
    }
}

impl FromText for Subtree {
    ghost from_text = { subtree };

    #[tactic(auto, unfolding(crate::specs::Subtree::subtree))]
    fn from_text(alloc: Global, text: &str) -> Result<Option<Subtree>, AllocError> {
        let Some((kind, separator, text)) = at_separator(text) else {
            return Ok(None);
        };
        if separator == b':' {
            subtree_of(alloc, kind, text)
        } else {
            Ok(None)
        }
    }
}

impl FromValue for Subtree {
    ghost format = { text_as subtree };

    fn from_value(alloc: Global, value: &Value) -> Result<Result<Subtree, Reason>, AllocError> {
        text_as(alloc, value)
    }
}
