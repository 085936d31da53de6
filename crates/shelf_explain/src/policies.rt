//! Policies, and where more is found (RFC 5280, 4.2.1.4, 4.2.1.5, 4.2.1.11, 4.2.2).
ghost use Rattle.std.specs.Prelude.{◌≡◌, ◌++◌, OnOk};
ghost use Rattle.std.specs.Option.{option_copied};
ghost use Rattle.shelf_explain.specs.Lines.{labelled};
ghost use Rattle.shelf_explain.specs.PolicyTexts.{access_text, address_of_practices, both_text, constraints_text, notice_or_hex, other_notice, policy_constraints_text, policy_mapping_text, policy_text, qualifier_text, qualifiers_text};

use crate::line::push_labelled;
use crate::name::push_hex_value;
use crate::show::{ShowText, push_below};
use crate::value::push_plain_text;
use asn1_core::{Ia5String, Integer};
use der_tree::{SequenceOf, der};
use pkix_name::Characters;
use pkix_trust::{
    AccessDescription, PolicyConstraints, PolicyInformation, PolicyMapping, PolicyQualifierInfo,
    UserNotice,
};
use std::alloc::{AllocError, Global};

/// Where the practices of a certification authority are written down (RFC 5280, 4.2.1.4).
const CPS: &[u32] = &[1, 3, 6, 1, 5, 5, 7, 2, 1];

/// A notice to the user of a certificate (RFC 5280, 4.2.1.4).
const USER_NOTICE: &[u32] = &[1, 3, 6, 1, 5, 5, 7, 2, 2];

const REQUIRED: &[u8] = b"explicit policy required after ";

const INHIBITED: &[u8] = b"mapping inhibited after ";

/// Pushes the address of a statement of practices.
#[tactic(auto, unfolding(crate::specs::PolicyTexts::address_of_practices, crate::specs::PolicyTexts::plain_or_hex))]
fn push_address_of_practices(
    alloc: Global,
    lines: &mut Vec<u8>,
    octets: &[u8],
) -> Result<(), AllocError>
    ensures { OnOk result (lines.new.items ≡ lines.old.items ++ address_of_practices octets.now) }
{
    let Some(text) = der::value_of::<Ia5String>(alloc, octets)? else {
        return push_hex_value(alloc, lines, octets);
    };
    push_plain_text(alloc, lines, Characters::Octets(text.as_bytes()))?;
    Ok(())
}

#[tactic(auto, unfolding(crate::specs::Lines::labelled))]
fn push_practices(
    alloc: Global,
    lines: &mut Vec<u8>,
    label: &[u8],
    octets: &[u8],
) -> Result<(), AllocError>
    ensures { OnOk result (lines.new.items ≡ lines.old.items ++ labelled label.now (address_of_practices octets.now)) }
{
    lines.extend_from_slice(label)?;
    push_address_of_practices(alloc, lines, octets)
}

#[tactic(auto, unfolding(crate::specs::PolicyTexts::other_notice))]
fn push_other_notice(alloc: Global, lines: &mut Vec<u8>, octets: &[u8]) -> Result<(), AllocError>
    ensures { OnOk result (lines.new.items ≡ lines.old.items ++ other_notice octets.now) }
{
    lines.push(b' ')?;
    push_hex_value(alloc, lines, octets)
}

/// Pushes a notice, or else its octets.
#[tactic(auto, unfolding(crate::specs::PolicyTexts::notice_or_hex, crate::specs::PolicyTexts::some_notice))]
fn push_notice(alloc: Global, lines: &mut Vec<u8>, octets: &[u8]) -> Result<(), AllocError>
    ensures { OnOk result (lines.new.items ≡ lines.old.items ++ notice_or_hex octets.now) }
{
    let Some(notice) = der::value_of::<UserNotice>(alloc, octets)? else {
        return push_other_notice(alloc, lines, octets);
    };
    notice.push_onto(alloc, lines)?;
    Ok(())
}

#[tactic(auto, unfolding(crate::specs::Lines::labelled))]
fn push_labelled_notice(
    alloc: Global,
    lines: &mut Vec<u8>,
    label: &[u8],
    octets: &[u8],
) -> Result<(), AllocError>
    ensures { OnOk result (lines.new.items ≡ lines.old.items ++ labelled label.now (notice_or_hex octets.now)) }
{
    lines.extend_from_slice(label)?;
    push_notice(alloc, lines, octets)
}

impl ShowText for PolicyQualifierInfo {
    ghost text = { qualifier_text };

    #[tactic(auto, unfolding(crate::specs::PolicyTexts::qualifier_text, crate::specs::PolicyTexts::other_qualifier_text))]
    fn push_onto(&self, alloc: Global, lines: &mut Vec<u8>) -> Result<(), AllocError> {
        if self.id.arcs() == CPS {
            push_practices(alloc, lines, b"CPS ", self.qualifier.as_bytes())
        } else if self.id.arcs() == USER_NOTICE {
            push_labelled_notice(alloc, lines, b"notice", self.qualifier.as_bytes())
        } else {
            self.id.push_onto(alloc, lines)?;
            lines.push(b' ')?;
            push_hex_value(alloc, lines, self.qualifier.as_bytes())
        }
    }
}

#[tactic(auto, unfolding(crate::specs::PolicyTexts::qualifiers_text))]
fn push_qualifiers(
    alloc: Global,
    lines: &mut Vec<u8>,
    qualifiers: Option<&SequenceOf<PolicyQualifierInfo>>,
) -> Result<(), AllocError>
    ensures { OnOk result (lines.new.items ≡ lines.old.items ++ qualifiers_text (option_copied qualifiers.entry)) }
{
    match qualifiers {
        None => Ok(()),
        Some(qualifiers) => push_below(alloc, lines, qualifiers.as_slice()),
    }
}

impl ShowText for PolicyInformation {
    ghost text = { policy_text };

    #[tactic(auto, unfolding(crate::specs::PolicyTexts::policy_text))]
    fn push_onto(&self, alloc: Global, lines: &mut Vec<u8>) -> Result<(), AllocError> {
        self.policy_identifier.push_onto(alloc, lines)?;
        push_qualifiers(alloc, lines, self.policy_qualifiers.as_ref())
    }
}

#[tactic(auto, unfolding(crate::specs::PolicyTexts::both_text))]
fn push_both(
    alloc: Global,
    lines: &mut Vec<u8>,
    required: &Integer,
    inhibited: &Integer,
) -> Result<(), AllocError>
    ensures { OnOk result (lines.new.items ≡ lines.old.items ++ both_text required.now inhibited.now) }
{
    push_labelled(alloc, lines, REQUIRED, required)?;
    lines.extend_from_slice(b", ")?;
    push_labelled(alloc, lines, INHIBITED, inhibited)?;
    Ok(())
}

/// Pushes what is asked for, and after how many certificates.
#[tactic(auto, unfolding(crate::specs::PolicyTexts::constraints_text))]
fn push_constraints(
    alloc: Global,
    lines: &mut Vec<u8>,
    required: Option<&Integer>,
    inhibited: Option<&Integer>,
) -> Result<(), AllocError>
    ensures { OnOk result (lines.new.items ≡ lines.old.items ++ constraints_text (option_copied required.entry) (option_copied inhibited.entry)) }
{
    match (required, inhibited) {
        (None, None) => lines.extend_from_slice(b"none"),
        (Some(required), None) => push_labelled(alloc, lines, REQUIRED, required),
        (None, Some(inhibited)) => push_labelled(alloc, lines, INHIBITED, inhibited),
        (Some(required), Some(inhibited)) => push_both(alloc, lines, required, inhibited),
    }
}

impl ShowText for PolicyConstraints {
    ghost text = { policy_constraints_text };

    #[tactic(auto, unfolding(crate::specs::PolicyTexts::policy_constraints_text))]
    fn push_onto(&self, alloc: Global, lines: &mut Vec<u8>) -> Result<(), AllocError> {
        let required = self.require_explicit_policy.as_ref();
        let inhibited = self.inhibit_policy_mapping.as_ref();
        push_constraints(alloc, lines, required, inhibited)
    }
}

impl ShowText for PolicyMapping {
    ghost text = { policy_mapping_text };

    #[tactic(auto, unfolding(crate::specs::PolicyTexts::policy_mapping_text))]
    fn push_onto(&self, alloc: Global, lines: &mut Vec<u8>) -> Result<(), AllocError> {
        self.issuer_domain_policy.push_onto(alloc, lines)?;
        push_labelled(alloc, lines, b" -> ", &self.subject_domain_policy)
    }
}

impl ShowText for AccessDescription {
    ghost text = { access_text };

    #[tactic(auto, unfolding(crate::specs::PolicyTexts::access_text))]
    fn push_onto(&self, alloc: Global, lines: &mut Vec<u8>) -> Result<(), AllocError> {
        self.access_method.push_onto(alloc, lines)?;
        lines.push(b' ')?;
        self.access_location.push_onto(alloc, lines)
    }
}
