ghost use Rattle.std.specs.Prelude.{◌≡◌, Some, None, refl};
ghost use Rattle.std.proofs.Common.{rules};
ghost use Rattle.pkix_attr.specs.Values.{ietf_attr_syntax, ietf_attr_syntax_fields, ietf_attr_syntax_value, svce_auth_info, svce_auth_info_fields, role_syntax, role_syntax_fields};

use asn1_core::{ObjectIdentifier, OctetString, Tag, TryClone, Utf8String, copied};
use der_tree::{
    DecodeError, DerType, EncodeError, Fields, Form, Sequence, SequenceOf, Tree, Trees, Window,
    implicit, optional, put, put_explicit, put_implicit, put_optional, required, required_explicit,
};
use pkix_name::{GeneralName, GeneralNames};
use std::alloc::{AllocError, Global};

/// Values under an authority (RFC 5755, 4.4).
#[derive(Clone, Debug, Drop, PartialEq, Eq, Hash)]
pub struct IetfAttrSyntax {
    /// The authority.
    pub policy_authority: Option<GeneralNames>,
    /// The values, which profiles require to be all in one form.
    pub values: SequenceOf<IetfAttrSyntaxValue>,
}

impl TryClone for IetfAttrSyntax {
    ghost copies_are_equal = { Prim.search rules };
}

impl Form for IetfAttrSyntax {
    ghost codec = { ietf_attr_syntax };
}

#[tactic(auto, unfolding(crate::specs::Values::ietf_attr_syntax_fields))]
impl Sequence for IetfAttrSyntax {
    ghost layout = { ietf_attr_syntax_fields };

    ghost is_sequence = { refl };

    fn put_fields(&self, alloc: Global, fields: &mut Trees) -> Result<(), EncodeError> {
        put_implicit(
            alloc,
            fields,
            self.policy_authority.as_ref(),
            Tag::CONTEXT_0,
        )?;
        put(alloc, fields, &self.values)?;
        Ok(())
    }

    fn read_fields(alloc: Global, fields: &mut Fields<'_>) -> Result<Self, DecodeError> {
        Ok(IetfAttrSyntax {
            policy_authority: implicit(alloc, fields, Tag::CONTEXT_0)?,
            values: required(alloc, fields)?,
        })
    }
}

/// A value (RFC 5755, 4.4).
#[derive(Clone, Debug, Drop, PartialEq, Eq, PartialOrd, Ord, Hash)]
pub enum IetfAttrSyntaxValue {
    /// Octets.
    Octets(OctetString),
    /// An identifier.
    Oid(ObjectIdentifier),
    /// A text.
    String(Utf8String),
}

impl TryClone for IetfAttrSyntaxValue {
    ghost copies_are_equal = { Prim.search rules };
}

impl Form for IetfAttrSyntaxValue {
    ghost codec = { ietf_attr_syntax_value };
}

impl DerType for IetfAttrSyntaxValue {
    ghost TAG = { None };

    ghost tag_is = { refl };

    const TAG: Option<Tag> = None;

    fn starts(tag: Tag) -> bool {
        OctetString::starts(tag) || ObjectIdentifier::starts(tag) || Utf8String::starts(tag)
    }

    fn to_tree(&self, alloc: Global) -> Result<Tree, EncodeError> {
        match self {
            IetfAttrSyntaxValue::Octets(value) => value.to_tree(alloc),
            IetfAttrSyntaxValue::Oid(value) => value.to_tree(alloc),
            IetfAttrSyntaxValue::String(value) => value.to_tree(alloc),
        }
    }

    fn from_tree(alloc: Global, window: Window<'_>) -> Result<Self, DecodeError> {
        let tag = window.tag();
        if OctetString::starts(tag) {
            Ok(IetfAttrSyntaxValue::Octets(OctetString::from_tree(alloc, window)?))
        } else if ObjectIdentifier::starts(tag) {
            Ok(IetfAttrSyntaxValue::Oid(ObjectIdentifier::from_tree(alloc, window)?))
        } else {
            Ok(IetfAttrSyntaxValue::String(Utf8String::from_tree(alloc, window)?))
        }
    }
}

/// How to log on to a service (RFC 5755, 4.4.1).
#[derive(Debug, Drop, PartialEq, Eq, Hash)]
pub struct SvceAuthInfo {
    /// The service.
    pub service: GeneralName,
    /// Who the holder is there.
    pub ident: GeneralName,
    /// What the service asks for beside, as a password.
    pub auth_info: Option<OctetString>,
}

impl Clone for SvceAuthInfo {
    ghost is_clone = { λ x y. y ≡ x };

    fn clone(&self) -> Result<SvceAuthInfo, AllocError> {
        Ok(SvceAuthInfo {
            service: copied(&self.service)?,
            ident: copied(&self.ident)?,
            auth_info: copied(&self.auth_info)?,
        })
    }
}

impl TryClone for SvceAuthInfo {
    ghost copies_are_equal = { λ _ _ same. same };
}

impl Form for SvceAuthInfo {
    ghost codec = { svce_auth_info };
}

#[tactic(auto, unfolding(crate::specs::Values::svce_auth_info_fields))]
impl Sequence for SvceAuthInfo {
    ghost layout = { svce_auth_info_fields };

    ghost is_sequence = { refl };

    fn put_fields(&self, alloc: Global, fields: &mut Trees) -> Result<(), EncodeError> {
        put(alloc, fields, &self.service)?;
        put(alloc, fields, &self.ident)?;
        put_optional(alloc, fields, self.auth_info.as_ref())?;
        Ok(())
    }

    fn read_fields(alloc: Global, fields: &mut Fields<'_>) -> Result<Self, DecodeError> {
        Ok(SvceAuthInfo {
            service: required(alloc, fields)?,
            ident: required(alloc, fields)?,
            auth_info: optional(alloc, fields)?,
        })
    }
}

/// A role (RFC 5755, 4.4.5).
#[derive(Clone, Debug, Drop, PartialEq, Eq, Hash)]
pub struct RoleSyntax {
    /// Who gave the role.
    role_authority: Option<GeneralNames>,
    /// Its name.
    role_name: GeneralName,
}

impl RoleSyntax {
    /// The value of these fields.
    pub fn new(role_authority: Option<GeneralNames>, role_name: GeneralName) -> RoleSyntax
        ensures role_authority { result.role_authority ≡ role_authority }
        ensures role_name { result.role_name ≡ role_name }
    {
        RoleSyntax {
            role_authority,
            role_name,
        }
    }

    /// Who gave the role.
    pub fn role_authority(&self) -> &Option<GeneralNames>
        ensures { result.now ≡ self.now.role_authority }
    {
        &self.role_authority
    }

    /// Its name.
    pub fn role_name(&self) -> &GeneralName
        ensures { result.now ≡ self.now.role_name }
    {
        &self.role_name
    }
}

impl TryClone for RoleSyntax {
    ghost copies_are_equal = { Prim.search rules };
}

impl Form for RoleSyntax {
    ghost codec = { role_syntax };
}

#[tactic(auto, unfolding(crate::specs::Values::role_syntax_fields))]
impl Sequence for RoleSyntax {
    ghost layout = { role_syntax_fields };

    ghost is_sequence = { refl };

    fn put_fields(&self, alloc: Global, fields: &mut Trees) -> Result<(), EncodeError> {
        put_implicit(alloc, fields, self.role_authority.as_ref(), Tag::CONTEXT_0)?;
        put_explicit(alloc, fields, Some(&self.role_name), Tag::CONTEXT_1)?;
        Ok(())
    }

    fn read_fields(alloc: Global, fields: &mut Fields<'_>) -> Result<Self, DecodeError> {
        Ok(RoleSyntax {
            role_authority: implicit(alloc, fields, Tag::CONTEXT_0)?,
            role_name: required_explicit(alloc, fields, Tag::CONTEXT_1)?,
        })
    }
}
