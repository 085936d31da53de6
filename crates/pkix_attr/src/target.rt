ghost use Rattle.std.specs.Prelude.{◌≡◌, None, refl};
ghost use Rattle.std.proofs.Common.{rules};
ghost use Rattle.pkix_attr.specs.Targets.{target, target_cert, target_cert_fields};

use crate::digest::ObjectDigestInfo;
use crate::holder::IssuerSerial;
use asn1_core::{Tag, TryClone, copied};
use der_tree::{
    DecodeError, DerType, EncodeError, Fields, Form, Sequence, SequenceOf, Tree, Trees, Window,
    from_explicit, from_implicit, optional, put, put_optional, required, to_explicit, to_implicit,
};
use pkix_name::GeneralName;
use std::alloc::{AllocError, Global};

/// Those whom the certificate is for (RFC 5755, 4.3.2).
pub type Targets = SequenceOf<Target>;

/// Who may pass the certificate on to whom (RFC 5755, 7.2).
pub type ProxyInfo = SequenceOf<Targets>;

/// One for whom the certificate is (RFC 5755, 4.3.2).
#[derive(Debug, Drop, PartialEq, Eq, Hash)]
pub enum Target {
    /// By name.
    Name(GeneralName),
    /// Each of a group.
    Group(GeneralName),
    /// By a certificate.
    Cert(TargetCert),
}

impl Clone for Target {
    ghost is_clone = { λ x y. y ≡ x };

    fn clone(&self) -> Result<Target, AllocError> {
        Ok(match self {
            Target::Name(value) => Target::Name(copied(value)?),
            Target::Group(value) => Target::Group(copied(value)?),
            Target::Cert(value) => Target::Cert(copied(value)?),
        })
    }
}

impl TryClone for Target {
    ghost copies_are_equal = { λ _ _ same. same };
}

impl Form for Target {
    ghost codec = { target };
}

impl DerType for Target {
    ghost TAG = { None };

    ghost tag_is = { refl };

    const TAG: Option<Tag> = None;

    fn starts(tag: Tag) -> bool {
        tag == Tag::CONTEXT_0 || tag == Tag::CONTEXT_1 || tag == Tag::CONTEXT_2
    }

    fn to_tree(&self, alloc: Global) -> Result<Tree, EncodeError> {
        match self {
            Target::Name(value) => to_explicit(alloc, value, Tag::CONTEXT_0),
            Target::Group(value) => to_explicit(alloc, value, Tag::CONTEXT_1),
            Target::Cert(value) => to_implicit(alloc, value, Tag::CONTEXT_2),
        }
    }

    fn from_tree(alloc: Global, window: Window<'_>) -> Result<Self, DecodeError> {
        let tag = window.tag();
        if tag == Tag::CONTEXT_0 {
            Ok(Target::Name(from_explicit(alloc, window, Tag::CONTEXT_0)?))
        } else if tag == Tag::CONTEXT_1 {
            Ok(Target::Group(from_explicit(alloc, window, Tag::CONTEXT_1)?))
        } else {
            Ok(Target::Cert(from_implicit(alloc, window, Tag::CONTEXT_2)?))
        }
    }
}

/// One for whom the certificate is, by a certificate (RFC 5755, 4.3.2).
#[derive(Debug, PartialEq, Eq, Hash)]
pub struct TargetCert {
    /// The certificate.
    pub target_certificate: IssuerSerial,
    /// The name.
    pub target_name: Option<GeneralName>,
    /// The certificate's digest.
    pub cert_digest_info: Option<ObjectDigestInfo>,
}

impl Drop for TargetCert {
    fn drop(self) {
        let TargetCert {
            target_certificate: _,
            target_name: _,
            cert_digest_info: _,
        } = self;
    }
}

impl Clone for TargetCert {
    ghost is_clone = { λ x y. y ≡ x };

    fn clone(&self) -> Result<TargetCert, AllocError> {
        Ok(TargetCert {
            target_certificate: copied(&self.target_certificate)?,
            target_name: copied(&self.target_name)?,
            cert_digest_info: copied(&self.cert_digest_info)?,
        })
    }
}

impl TryClone for TargetCert {
    ghost copies_are_equal = { λ _ _ same. same };
}

impl Form for TargetCert {
    ghost codec = { target_cert };
}

#[tactic(auto, unfolding(crate::specs::Targets::target_cert_fields))]
impl Sequence for TargetCert {
    ghost layout = { target_cert_fields };

    ghost is_sequence = { refl };

    fn put_fields(&self, alloc: Global, fields: &mut Trees) -> Result<(), EncodeError> {
        put(alloc, fields, &self.target_certificate)?;
        put_optional(alloc, fields, self.target_name.as_ref())?;
        put_optional(alloc, fields, self.cert_digest_info.as_ref())?;
        Ok(())
    }

    fn read_fields(alloc: Global, fields: &mut Fields<'_>) -> Result<Self, DecodeError> {
        Ok(TargetCert {
            target_certificate: required(alloc, fields)?,
            target_name: optional(alloc, fields)?,
            cert_digest_info: optional(alloc, fields)?,
        })
    }
}
