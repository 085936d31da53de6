ghost use Rattle.std.specs.Prelude.{◌≡◌, refl};
ghost use Rattle.std.proofs.Common.{rules};
ghost use Rattle.pkix_cert.specs.KeyIdentifiers.{no_identifier, authority_key_identifier, authority_key_identifier_fields};

use crate::certificate::CertificateSerialNumber;
use asn1_core::{BitString, ObjectIdentifier, OctetString, Tag, TryClone};
use der_tree::{
    DecodeError, EncodeError, Fields, Form, Sequence, SequenceOf, Trees, implicit, put_implicit,
};
use pkix_name::{Attribute, GeneralNames};
use std::alloc::Global;

/// What tells a key apart from others of its owner (RFC 5280, 4.2.1.2).
pub type KeyIdentifier = OctetString;

/// The identifier of the key that is certified (RFC 5280, 4.2.1.2).
pub type SubjectKeyIdentifier = KeyIdentifier;

/// What the key may be used for, a bit each (RFC 5280, 4.2.1.3).
pub type KeyUsage = BitString;

/// The bit of `KeyUsage` for keys that sign certificates (RFC 5280, 4.2.1.3).
pub const KEY_CERT_SIGN: usize = 5;

/// The bit of `KeyUsage` for keys that sign revocation lists (RFC 5280, 4.2.1.3).
pub const CRL_SIGN: usize = 6;

/// A purpose of a key (RFC 5280, 4.2.1.12).
pub type KeyPurposeId = ObjectIdentifier;

/// The purposes of a key (RFC 5280, 4.2.1.12).
pub type ExtKeyUsageSyntax = SequenceOf<KeyPurposeId>;

/// Attributes of the subject (RFC 5280, 4.2.1.8).
pub type SubjectDirectoryAttributes = SequenceOf<Attribute>;

/// Which key of the issuer signed (RFC 5280, 4.2.1.1).
#[derive(Clone, Debug, Drop, PartialEq, Eq, Hash)]
pub struct AuthorityKeyIdentifier {
    pub key_identifier: Option<KeyIdentifier>,
    pub authority_cert_issuer: Option<GeneralNames>,
    pub authority_cert_serial_number: Option<CertificateSerialNumber>,
}

/// Nothing of it is known.
impl Default for AuthorityKeyIdentifier {
    ghost is_default = { λ v. v ≡ no_identifier };

    fn default() -> AuthorityKeyIdentifier {
        AuthorityKeyIdentifier {
            key_identifier: None,
            authority_cert_issuer: None,
            authority_cert_serial_number: None,
        }
    }
}

impl TryClone for AuthorityKeyIdentifier {
    ghost copies_are_equal = { Prim.search rules };
}

impl Form for AuthorityKeyIdentifier {
    ghost codec = { authority_key_identifier };
}

#[tactic(auto, unfolding(crate::specs::KeyIdentifiers::authority_key_identifier_fields))]
impl Sequence for AuthorityKeyIdentifier {
    ghost layout = { authority_key_identifier_fields };

    ghost is_sequence = { refl };

    fn put_fields(&self, alloc: Global, fields: &mut Trees) -> Result<(), EncodeError> {
        put_implicit(alloc, fields, self.key_identifier.as_ref(), Tag::CONTEXT_0)?;
        put_implicit(
            alloc,
            fields,
            self.authority_cert_issuer.as_ref(),
            Tag::CONTEXT_1,
        )?;
        put_implicit(
            alloc,
            fields,
            self.authority_cert_serial_number.as_ref(),
            Tag::CONTEXT_2,
        )?;
        Ok(())
    }

    fn read_fields(alloc: Global, fields: &mut Fields<'_>) -> Result<Self, DecodeError> {
        Ok(AuthorityKeyIdentifier {
            key_identifier: implicit(alloc, fields, Tag::CONTEXT_0)?,
            authority_cert_issuer: implicit(alloc, fields, Tag::CONTEXT_1)?,
            authority_cert_serial_number: implicit(alloc, fields, Tag::CONTEXT_2)?,
        })
    }
}
