ghost use Rattle.std.specs.Prelude.{◌≡◌, Some, None, refl};
ghost use Rattle.std.proofs.Common.{rules};
ghost use Rattle.der_tree.specs.Tags.{universal};
ghost use Rattle.pkix_trust.specs.Versions.{raw_value, printed_anchor_version, anchor_v1, anchor_version};
ghost use Rattle.pkix_trust.specs.Anchors.{trust_anchor_info, trust_anchor_info_fields, cert_path_controls, cert_path_controls_fields, trust_anchor_choice};

use crate::policy::CertificatePolicies;
use asn1_core::{Integer, Tag, TryClone, Utf8String, copied};
use der_tree::{
    DecodeError, DerType, EncodeError, Fields, Form, Sequence, SequenceOf, Tree, Trees, Window,
    explicit, from_explicit, implicit, optional, or_default, put, put_explicit, put_implicit,
    put_optional, required, to_explicit, unless_default,
};
use pkix_cert::{
    CertPolicyFlags, Certificate, Extensions, KeyIdentifier, NameConstraints, SubjectPublicKeyInfo,
    TbsCertificate, TrustAnchorTitle,
};
use pkix_name::Name;
use std::alloc::{AllocError, Global};
use std::fmt;

/// Trust anchors (RFC 5914, 3).
pub type TrustAnchorList = SequenceOf<TrustAnchorChoice>;

/// A key that is trusted, and what for (RFC 5914, 2).
#[derive(Debug, PartialEq, Eq, Hash)]
pub struct TrustAnchorInfo {
    /// Version 1 where it isn't written.
    pub version: TrustAnchorInfoVersion,
    /// The key that is trusted (2.2).
    pub pub_key: SubjectPublicKeyInfo,
    /// The identifier of that key (2.3).
    pub key_id: KeyIdentifier,
    /// A name of the anchor for people (2.4).
    pub ta_title: Option<TrustAnchorTitle>,
    /// The anchor's name, and what paths from it may be (2.5).
    pub cert_path: Option<CertPathControls>,
    /// Further restrictions (2.6).
    pub exts: Option<Extensions>,
    /// The language of the title.
    pub ta_title_lang_tag: Option<Utf8String>,
}

impl Drop for TrustAnchorInfo {
    fn drop(self) {
        let TrustAnchorInfo {
            version: _,
            pub_key: _,
            key_id: _,
            ta_title: _,
            cert_path: _,
            exts: _,
            ta_title_lang_tag: _,
        } = self;
    }
}

impl Clone for TrustAnchorInfo {
    ghost is_clone = { λ x y. y ≡ x };

    fn clone(&self) -> Result<TrustAnchorInfo, AllocError> {
        Ok(TrustAnchorInfo {
            version: copied(&self.version)?,
            pub_key: copied(&self.pub_key)?,
            key_id: copied(&self.key_id)?,
            ta_title: copied(&self.ta_title)?,
            cert_path: copied(&self.cert_path)?,
            exts: copied(&self.exts)?,
            ta_title_lang_tag: copied(&self.ta_title_lang_tag)?,
        })
    }
}

impl TryClone for TrustAnchorInfo {
    ghost copies_are_equal = { λ _ _ same. same };
}

impl Form for TrustAnchorInfo {
    ghost codec = { trust_anchor_info };
}

#[tactic(auto, unfolding(crate::specs::Anchors::trust_anchor_info_fields))]
impl Sequence for TrustAnchorInfo {
    ghost layout = { trust_anchor_info_fields };

    ghost is_sequence = { refl };

    fn put_fields(&self, alloc: Global, fields: &mut Trees) -> Result<(), EncodeError> {
        put_explicit(
            alloc,
            fields,
            unless_default(&self.version, &TrustAnchorInfoVersion::V1),
            Tag::CONTEXT_1,
        )?;
        put(alloc, fields, &self.pub_key)?;
        put(alloc, fields, &self.key_id)?;
        put_optional(alloc, fields, self.ta_title.as_ref())?;
        put_optional(alloc, fields, self.cert_path.as_ref())?;
        put_explicit(alloc, fields, self.exts.as_ref(), Tag::CONTEXT_1)?;
        put_implicit(
            alloc,
            fields,
            self.ta_title_lang_tag.as_ref(),
            Tag::CONTEXT_2,
        )?;
        Ok(())
    }

    fn read_fields(alloc: Global, fields: &mut Fields<'_>) -> Result<Self, DecodeError> {
        Ok(TrustAnchorInfo {
            version: or_default(
                explicit(alloc, fields, Tag::CONTEXT_1)?,
                TrustAnchorInfoVersion::V1,
            )?,
            pub_key: required(alloc, fields)?,
            key_id: required(alloc, fields)?,
            ta_title: optional(alloc, fields)?,
            cert_path: optional(alloc, fields)?,
            exts: explicit(alloc, fields, Tag::CONTEXT_1)?,
            ta_title_lang_tag: implicit(alloc, fields, Tag::CONTEXT_2)?,
        })
    }
}

/// What paths from the anchor may be (RFC 5914, 2.5).
#[derive(Debug, PartialEq, Eq, Hash)]
pub struct CertPathControls {
    /// The anchor's name.
    pub ta_name: Name,
    /// A certificate of the anchor's key, for those who need one.
    pub certificate: Option<Certificate>,
    /// The policies that paths may have.
    pub policy_set: Option<CertificatePolicies>,
    /// Bits 0 to 2: policies aren't mapped, one is needed, any policy doesn't count.
    pub policy_flags: Option<CertPolicyFlags>,
    /// The names that paths may have.
    pub name_constr: Option<NameConstraints>,
    /// How many certificates may come between the anchor and the last of a path.
    pub path_len_constraint: Option<Integer>,
}

impl Drop for CertPathControls {
    fn drop(self) {
        let CertPathControls {
            ta_name: _,
            certificate: _,
            policy_set: _,
            policy_flags: _,
            name_constr: _,
            path_len_constraint: _,
        } = self;
    }
}

impl Clone for CertPathControls {
    ghost is_clone = { λ x y. y ≡ x };

    fn clone(&self) -> Result<CertPathControls, AllocError> {
        Ok(CertPathControls {
            ta_name: copied(&self.ta_name)?,
            certificate: copied(&self.certificate)?,
            policy_set: copied(&self.policy_set)?,
            policy_flags: copied(&self.policy_flags)?,
            name_constr: copied(&self.name_constr)?,
            path_len_constraint: copied(&self.path_len_constraint)?,
        })
    }
}

impl TryClone for CertPathControls {
    ghost copies_are_equal = { λ _ _ same. same };
}

impl Form for CertPathControls {
    ghost codec = { cert_path_controls };
}

#[tactic(auto, unfolding(crate::specs::Anchors::cert_path_controls_fields))]
impl Sequence for CertPathControls {
    ghost layout = { cert_path_controls_fields };

    ghost is_sequence = { refl };

    fn put_fields(&self, alloc: Global, fields: &mut Trees) -> Result<(), EncodeError> {
        put(alloc, fields, &self.ta_name)?;
        put_implicit(alloc, fields, self.certificate.as_ref(), Tag::CONTEXT_0)?;
        put_implicit(alloc, fields, self.policy_set.as_ref(), Tag::CONTEXT_1)?;
        put_implicit(alloc, fields, self.policy_flags.as_ref(), Tag::CONTEXT_2)?;
        put_implicit(alloc, fields, self.name_constr.as_ref(), Tag::CONTEXT_3)?;
        put_implicit(
            alloc,
            fields,
            self.path_len_constraint.as_ref(),
            Tag::CONTEXT_4,
        )?;
        Ok(())
    }

    fn read_fields(alloc: Global, fields: &mut Fields<'_>) -> Result<Self, DecodeError> {
        Ok(CertPathControls {
            ta_name: required(alloc, fields)?,
            certificate: implicit(alloc, fields, Tag::CONTEXT_0)?,
            policy_set: implicit(alloc, fields, Tag::CONTEXT_1)?,
            policy_flags: implicit(alloc, fields, Tag::CONTEXT_2)?,
            name_constr: implicit(alloc, fields, Tag::CONTEXT_3)?,
            path_len_constraint: implicit(alloc, fields, Tag::CONTEXT_4)?,
        })
    }
}

/// A trust anchor in one of three forms (RFC 5914, 3).
#[derive(Debug, Drop, PartialEq, Eq, Hash)]
pub enum TrustAnchorChoice {
    /// A whole certificate.
    Certificate(Certificate),
    /// A certificate without its signature.
    TbsCertificate(TbsCertificate),
    /// The key and what it is trusted for.
    TrustAnchorInfo(TrustAnchorInfo),
}

impl Clone for TrustAnchorChoice {
    ghost is_clone = { λ x y. y ≡ x };

    fn clone(&self) -> Result<TrustAnchorChoice, AllocError> {
        Ok(match self {
            TrustAnchorChoice::Certificate(value) => TrustAnchorChoice::Certificate(copied(value)?),
            TrustAnchorChoice::TbsCertificate(value) => TrustAnchorChoice::TbsCertificate(copied(
                value,
            )?),
            TrustAnchorChoice::TrustAnchorInfo(value) => TrustAnchorChoice::TrustAnchorInfo(copied(
                value,
            )?),
        })
    }
}

impl TryClone for TrustAnchorChoice {
    ghost copies_are_equal = { λ _ _ same. same };
}

impl Form for TrustAnchorChoice {
    ghost codec = { trust_anchor_choice };
}

impl DerType for TrustAnchorChoice {
    ghost TAG = { None };

    ghost tag_is = { refl };

    const TAG: Option<Tag> = None;

    fn starts(tag: Tag) -> bool {
        Certificate::starts(tag) || tag == Tag::CONTEXT_1 || tag == Tag::CONTEXT_2
    }

    fn to_tree(&self, alloc: Global) -> Result<Tree, EncodeError> {
        match self {
            TrustAnchorChoice::Certificate(value) => value.to_tree(alloc),
            TrustAnchorChoice::TbsCertificate(value) => to_explicit(alloc, value, Tag::CONTEXT_1),
            TrustAnchorChoice::TrustAnchorInfo(value) => to_explicit(alloc, value, Tag::CONTEXT_2),
        }
    }

    fn from_tree(alloc: Global, window: Window<'_>) -> Result<Self, DecodeError> {
        let tag = window.tag();
        if Certificate::starts(tag) {
            Ok(TrustAnchorChoice::Certificate(Certificate::from_tree(alloc, window)?))
        } else if tag == Tag::CONTEXT_1 {
            Ok(TrustAnchorChoice::TbsCertificate(from_explicit(alloc, window, Tag::CONTEXT_1)?))
        } else {
            Ok(TrustAnchorChoice::TrustAnchorInfo(from_explicit(alloc, window, Tag::CONTEXT_2)?))
        }
    }
}

/// The version of a trust anchor (RFC 5914, 2.1).
#[derive(Clone, Copy, Debug, PartialEq, Eq, PartialOrd, Ord, Hash)]
pub struct TrustAnchorInfoVersion(u64);

impl TrustAnchorInfoVersion {
    /// Version 1, the default.
    pub const V1: TrustAnchorInfoVersion = TrustAnchorInfoVersion(1);

    /// The number as it is written: 1 for version 1.
    pub fn raw_value(self) -> u64
        ensures { result ≡ raw_value self }
    {
        self.0
    }
}

/// The number of the one version (RFC 5914, 2.1).
pub fn anchor_version_numbers()
    ensures { raw_value TrustAnchorInfoVersion.V1 ≡ 1 }
{}

impl Default for TrustAnchorInfoVersion {
    ghost is_default = { λ v. v ≡ anchor_v1 };

    fn default() -> TrustAnchorInfoVersion {
        TrustAnchorInfoVersion::V1
    }
}

/// The version's number: 1 for `V1`.
impl fmt::Display for TrustAnchorInfoVersion {
    ghost output = { λ v. Some (printed_anchor_version v) };

    fn fmt<W: fmt::Write>(&self, f: &mut fmt::Formatter<W>) -> fmt::Result {
        write!(f, "{}", self.0)
    }
}

impl TryClone for TrustAnchorInfoVersion {
    ghost copies_are_equal = { Prim.search rules };
}

impl Form for TrustAnchorInfoVersion {
    ghost codec = { anchor_version };
}

impl DerType for TrustAnchorInfoVersion {
    ghost TAG = { Some (universal 2) };

    ghost tag_is = { refl };

    const TAG: Option<Tag> = Some(Tag::INTEGER);

    fn starts(tag: Tag) -> bool {
        u64::starts(tag)
    }

    fn to_tree(&self, alloc: Global) -> Result<Tree, EncodeError> {
        self.0.to_tree(alloc)
    }

    fn from_tree(alloc: Global, window: Window<'_>) -> Result<Self, DecodeError> {
        Ok(TrustAnchorInfoVersion(u64::from_tree(alloc, window)?))
    }
}
