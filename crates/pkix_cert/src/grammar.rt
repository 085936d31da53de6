// A test for each line of a certificate's grammar (RFC 5280, 4.1).

use crate::algorithm::{AlgorithmIdentifier, SubjectPublicKeyInfo};
use crate::certificate::{Certificate, TbsCertificate, Version};
use crate::elements::Elements;
use crate::extension::{Extension, Extensions};
use crate::seen::{
    Plain, Shown, ShownFields, is_sequence_of, is_set_of, see, see_explicit, see_implicit,
    see_optional, take_defaulted, take_explicit,
};
use crate::time::{Time, Validity};
use asn1_core::{BitString, GeneralizedTime, Integer, ObjectIdentifier, OctetString, Tag, UtcTime};
use der_tree::{Any, DerType, Window, or_default};
use pkix_name::{AttributeTypeAndValue, Name, RelativeDistinguishedName};

#[tactic(auto, unfolding(crate::specs::Certificates::certificate_fields))]
impl ShownFields for Certificate {
    fn pass(fields: &mut Elements<'_>) -> Option<()> {
        see::<TbsCertificate>(fields)?;
        see::<AlgorithmIdentifier>(fields)?;
        see::<BitString>(fields)?;
        Some(())
    }
}

#[tactic(auto, unfolding(crate::specs::Certificates::tbs_certificate_fields))]
impl ShownFields for TbsCertificate {
    fn pass(fields: &mut Elements<'_>) -> Option<()> {
        or_default(take_explicit(fields, Tag::CONTEXT_0)?, Version::V1).ok()?;
        see::<Integer>(fields)?;
        see::<AlgorithmIdentifier>(fields)?;
        see::<Name>(fields)?;
        see::<Validity>(fields)?;
        see::<Name>(fields)?;
        see::<SubjectPublicKeyInfo>(fields)?;
        see_implicit::<BitString>(fields, Tag::CONTEXT_1)?;
        see_implicit::<BitString>(fields, Tag::CONTEXT_2)?;
        see_explicit::<Extensions>(fields, Tag::CONTEXT_3)?;
        Some(())
    }
}

#[tactic(auto, unfolding(crate::specs::Algorithms::algorithm_identifier_fields))]
impl ShownFields for AlgorithmIdentifier {
    fn pass(fields: &mut Elements<'_>) -> Option<()> {
        see::<ObjectIdentifier>(fields)?;
        see_optional::<Any>(fields)?;
        Some(())
    }
}

#[tactic(auto, unfolding(crate::specs::Algorithms::subject_public_key_info_fields))]
impl ShownFields for SubjectPublicKeyInfo {
    fn pass(fields: &mut Elements<'_>) -> Option<()> {
        see::<AlgorithmIdentifier>(fields)?;
        see::<BitString>(fields)?;
        Some(())
    }
}

#[tactic(auto, unfolding(crate::specs::Times::validity_fields))]
impl ShownFields for Validity {
    fn pass(fields: &mut Elements<'_>) -> Option<()> {
        see::<Time>(fields)?;
        see::<Time>(fields)?;
        Some(())
    }
}

impl Shown for Time {
    fn is_shown(window: Window<'_>) -> bool {
        if UtcTime::starts(window.tag()) {
            UtcTime::plain(window).is_some()
        } else {
            GeneralizedTime::plain(window).is_some()
        }
    }
}

#[tactic(auto, unfolding(crate::specs::Extensions::extension_fields))]
impl ShownFields for Extension {
    fn pass(fields: &mut Elements<'_>) -> Option<()> {
        see::<ObjectIdentifier>(fields)?;
        take_defaulted(fields, false)?;
        see::<OctetString>(fields)?;
        Some(())
    }
}

#[tactic(auto, using(crate::proofs::Seeing::named))]
impl Shown for Extensions {
    fn is_shown(window: Window<'_>) -> bool {
        is_sequence_of::<Extension>(window, 1)
    }
}

#[tactic(auto, unfolding(pkix_name::specs::Names::attribute_type_and_value_fields))]
impl ShownFields for AttributeTypeAndValue {
    fn pass(fields: &mut Elements<'_>) -> Option<()> {
        see::<ObjectIdentifier>(fields)?;
        see::<Any>(fields)?;
        Some(())
    }
}

#[tactic(auto, using(crate::proofs::Seeing::named))]
impl Shown for RelativeDistinguishedName {
    fn is_shown(window: Window<'_>) -> bool {
        is_set_of::<AttributeTypeAndValue>(window, 1)
    }
}

#[tactic(auto, using(crate::proofs::Seeing::named))]
impl Shown for Name {
    fn is_shown(window: Window<'_>) -> bool {
        is_sequence_of::<RelativeDistinguishedName>(window, 0)
    }
}
