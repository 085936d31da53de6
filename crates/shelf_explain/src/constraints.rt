//! Extensions that bound what a certificate is for (RFC 5280, 4.2.1).
ghost use Rattle.std.specs.Prelude.{◌≡◌, ◌++◌, OnOk};
ghost use Rattle.std.specs.Option.{option_copied};
ghost use Rattle.shelf_explain.specs.Lines.{labelled};
ghost use Rattle.shelf_explain.specs.ConstraintTexts.{authority_word, basic_constraints_text, maximum_text, minimum_text, name_constraints_text, path_length_text, subtree_text, subtrees_text};

use crate::line::{next_line, push_labelled};
use crate::show::{ShowText, push_below};
use asn1_core::Integer;
use pkix_cert::{BasicConstraints, GeneralSubtree, GeneralSubtrees, NameConstraints};
use std::alloc::{AllocError, Global};

/// Pushes how long a path below may be.
#[tactic(auto, unfolding(crate::specs::ConstraintTexts::path_length_text))]
fn push_path_length(
    alloc: Global,
    lines: &mut Vec<u8>,
    length: Option<&Integer>,
) -> Result<(), AllocError>
    ensures { OnOk result (lines.new.items ≡ lines.old.items ++ path_length_text (option_copied length.entry)) }
{
    let Some(length) = length else {
        return Ok(());
    };
    push_labelled(alloc, lines, b", path length ", length)
}

#[tactic(auto, unfolding(crate::specs::ConstraintTexts::authority_word))]
fn push_authority(lines: &mut Vec<u8>, ca: bool) -> Result<(), AllocError>
    ensures { OnOk result (lines.new.items ≡ lines.old.items ++ authority_word ca) }
{
    if ca {
        lines.extend_from_slice(b"CA")
    } else {
        lines.extend_from_slice(b"no CA")
    }
}

impl ShowText for BasicConstraints {
    ghost text = { basic_constraints_text };

    #[tactic(auto, unfolding(crate::specs::ConstraintTexts::basic_constraints_text))]
    fn push_onto(&self, alloc: Global, lines: &mut Vec<u8>) -> Result<(), AllocError> {
        push_authority(lines, self.ca)?;
        push_path_length(alloc, lines, self.path_len_constraint.as_ref())
    }
}

/// Pushes from which depth below the base on names count, where it isn't 0.
#[tactic(auto, unfolding(crate::specs::ConstraintTexts::minimum_text))]
fn push_minimum(alloc: Global, lines: &mut Vec<u8>, minimum: &Integer) -> Result<(), AllocError>
    ensures { OnOk result (lines.new.items ≡ lines.old.items ++ minimum_text minimum.now) }
{
    if minimum.as_bytes() == [0].as_slice() {
        return Ok(());
    }
    push_labelled(alloc, lines, b", minimum ", minimum)
}

#[tactic(auto, unfolding(crate::specs::ConstraintTexts::maximum_text))]
fn push_maximum(
    alloc: Global,
    lines: &mut Vec<u8>,
    maximum: Option<&Integer>,
) -> Result<(), AllocError>
    ensures { OnOk result (lines.new.items ≡ lines.old.items ++ maximum_text (option_copied maximum.entry)) }
{
    let Some(maximum) = maximum else {
        return Ok(());
    };
    push_labelled(alloc, lines, b", maximum ", maximum)
}

impl ShowText for GeneralSubtree {
    ghost text = { subtree_text };

    #[tactic(auto, unfolding(crate::specs::ConstraintTexts::subtree_text))]
    fn push_onto(&self, alloc: Global, lines: &mut Vec<u8>) -> Result<(), AllocError> {
        self.base.push_onto(alloc, lines)?;
        push_minimum(alloc, lines, &self.minimum)?;
        push_maximum(alloc, lines, self.maximum.as_ref())
    }
}

/// Pushes the subtrees, a line each, or what none means.
#[tactic(auto, unfolding(crate::specs::ConstraintTexts::subtrees_text))]
fn push_subtrees(
    alloc: Global,
    lines: &mut Vec<u8>,
    without: &[u8],
    subtrees: Option<&GeneralSubtrees>,
) -> Result<(), AllocError>
    ensures { OnOk result (lines.new.items ≡ lines.old.items ++ subtrees_text without.now (option_copied subtrees.entry)) }
{
    match subtrees {
        None => lines.extend_from_slice(without),
        Some(subtrees) => push_below(alloc, lines, subtrees.as_slice()),
    }
}

/// Pushes which subtrees they are, and the subtrees.
#[tactic(auto, unfolding(crate::specs::Lines::labelled))]
fn push_labelled_subtrees(
    alloc: Global,
    lines: &mut Vec<u8>,
    label: &[u8],
    without: &[u8],
    subtrees: Option<&GeneralSubtrees>,
) -> Result<(), AllocError>
    ensures { OnOk result (lines.new.items ≡ lines.old.items ++ labelled label.now (subtrees_text without.now (option_copied subtrees.entry))) }
{
    lines.extend_from_slice(label)?;
    push_subtrees(alloc, lines, without, subtrees)
}

impl ShowText for NameConstraints {
    ghost text = { name_constraints_text };

    #[tactic(auto, unfolding(crate::specs::ConstraintTexts::name_constraints_text))]
    fn push_onto(&self, alloc: Global, lines: &mut Vec<u8>) -> Result<(), AllocError> {
        let permitted = self.permitted_subtrees.as_ref();
        let excluded = self.excluded_subtrees.as_ref();
        push_labelled_subtrees(alloc, lines, b"permitted:", b" any", permitted)?;
        lines.extend_from_slice(next_line())?;
        push_labelled_subtrees(alloc, lines, b"excluded:", b" none", excluded)
    }
}
