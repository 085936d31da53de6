ghost use Rattle.std.specs.Prelude.{◌≡◌, [], ◌∷◌, ◌++◌, OnOk, OnErr, false};
ghost use Rattle.der_tree.specs.View.{plain, plain_list};
ghost use Rattle.der_tree.specs.Tree.{is_raw, retagged};

use asn1_core::{OutOfMemory, Tag};
use std::alloc::Global;
use std::marker::Model;

/// Octets of a tree: the contents of a leaf, or those of a raw.
#[derive(Debug, Drop)]
pub struct Bytes {
    bytes: Vec<u8>,
}

impl Model for Bytes {
    ghost use Rattle.std.specs.Prelude.{ℕ, List};

    ghost Value = { List ℕ };

    ghost view = { λ s. s.bytes.items };
}

impl Bytes {
    /// Whatever the octets are.
    pub fn from_vec(bytes: Vec<u8>) -> Bytes
        ensures { result ≡ bytes.items }
    {
        Bytes { bytes }
    }

    /// The octets in order.
    pub fn as_slice(&self) -> &[u8]
        ensures { result.now ≡ self.now }
    {
        self.bytes.as_slice()
    }
}

/// An element, with those within it.
#[cycle(tree)]
#[derive(Debug, Drop)]
pub enum Tree {
    /// A primitive element, with its contents octets.
    Leaf { tag: Tag, bytes: Bytes },
    /// A constructed element, with the elements that its contents are.
    Node { tag: Tag, children: Trees },
    /// An element as its octets, header and contents. They are written as they are, and not
    /// looked at.
    Raw { bytes: Bytes },
}

/// The elements within one, in order.
#[cycle(tree)]
#[derive(Debug, Drop)]
pub struct Trees {
    trees: Vec<Tree>,
}

impl Model for Trees {
    ghost use Rattle.std.specs.Prelude.{List};
    ghost use Rattle.std.specs.Coded.{coded_list};
    ghost use Rattle.der_tree.specs.Tree.{PlainTree};
    ghost use Rattle.der_tree.specs.laws.Tree.{coded_plain_tree};

    ghost Value = { List PlainTree };

    ghost coded = { coded_list coded_plain_tree };

    ghost use Rattle.der_tree.specs.View.{plain_list};
    ghost use Rattle.der_tree.specs.View.{height};

    ghost view = { λ s. plain_list s.trees.items };

    ghost size = { height };

    ghost use Rattle.der_tree.specs.laws.View.{most_le};

    ghost size_decreases = { λ a h. most_le a.trees.items };
}

impl Trees {
    /// No tree yet. What is pushed later is allocated there.
    pub fn new(alloc: Global) -> Trees
        ensures { result ≡ [] }
    {
        Trees {
            trees: Vec::new(alloc),
        }
    }

    /// The trees in order.
    pub fn as_slice(&self) -> &[Tree]
        ensures { plain_list result.now ≡ self.now }
    {
        self.trees.as_slice()
    }

    /// Puts the tree after the others. Where memory runs out it is dropped.
    pub fn push(&mut self, tree: Tree) -> Result<(), OutOfMemory>
        ensures ok { OnOk result (self.new ≡ self.old ++ plain tree ∷ []) }
        ensures err { OnErr result (self.new ≡ self.old) }
    {
        self.trees.push(tree)?;
        Ok(())
    }
}

impl Tree {
    /// The same under another tag.
    pub fn retagged(self, tag: Tag) -> Tree
        requires { is_raw (plain self) ≡ false }
        ensures { plain result ≡ retagged tag (plain self) }
    {
        match self {
            Tree::Leaf { tag: _, bytes } => Tree::Leaf { tag, bytes },
            Tree::Node { tag: _, children } => Tree::Node { tag, children },
            Tree::Raw { bytes } => Tree::Raw { bytes },
        }
    }
}
