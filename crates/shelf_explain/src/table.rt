//! The fields of what is signed. One that may be left out is known by its identifier octet.
ghost use Rattle.std.specs.Prelude.{◌≡◌, map};
ghost use Rattle.shelf_explain.specs.Tables.{as_row, attribute_certificate_fields, certificate_fields, list_fields, request_fields, signature_fields};

use crate::field_part::Field;
use crate::row::FieldRow;

const CERTIFICATE_FIELDS: &[FieldRow] = &[
    FieldRow {
        name: b"version",
        starts: b"\xa0",
        field: Field::TaggedVersion,
    },
    FieldRow {
        name: b"serial",
        starts: b"",
        field: Field::Serial,
    },
    FieldRow {
        name: b"signed algorithm",
        starts: b"",
        field: Field::Algorithm,
    },
    FieldRow {
        name: b"issuer",
        starts: b"",
        field: Field::Name,
    },
    FieldRow {
        name: b"validity",
        starts: b"",
        field: Field::Times,
    },
    FieldRow {
        name: b"subject",
        starts: b"",
        field: Field::Name,
    },
    FieldRow {
        name: b"key",
        starts: b"",
        field: Field::Key,
    },
    FieldRow {
        name: b"issuer unique id",
        starts: b"\x81\xa1",
        field: Field::Octets,
    },
    FieldRow {
        name: b"subject unique id",
        starts: b"\x82\xa2",
        field: Field::Octets,
    },
    FieldRow {
        name: b"extensions",
        starts: b"\xa3",
        field: Field::TaggedExtensions,
    },
];

const REQUEST_FIELDS: &[FieldRow] = &[
    FieldRow {
        name: b"version",
        starts: b"",
        field: Field::Number,
    },
    FieldRow {
        name: b"subject",
        starts: b"",
        field: Field::Name,
    },
    FieldRow {
        name: b"key",
        starts: b"",
        field: Field::Key,
    },
    FieldRow {
        name: b"attributes",
        starts: b"",
        field: Field::Attributes,
    },
];

const LIST_FIELDS: &[FieldRow] = &[
    FieldRow {
        name: b"version",
        starts: b"\x02",
        field: Field::Number,
    },
    FieldRow {
        name: b"signed algorithm",
        starts: b"",
        field: Field::Algorithm,
    },
    FieldRow {
        name: b"issuer",
        starts: b"",
        field: Field::Name,
    },
    FieldRow {
        name: b"this update",
        starts: b"",
        field: Field::Time,
    },
    FieldRow {
        name: b"next update",
        starts: b"\x17\x18",
        field: Field::Time,
    },
    FieldRow {
        name: b"revoked certificates",
        starts: b"0",
        field: Field::Entries,
    },
    FieldRow {
        name: b"extensions",
        starts: b"\xa0",
        field: Field::TaggedExtensions,
    },
];

const ATTRIBUTE_CERTIFICATE_FIELDS: &[FieldRow] = &[
    FieldRow {
        name: b"version",
        starts: b"",
        field: Field::Number,
    },
    FieldRow {
        name: b"holder",
        starts: b"",
        field: Field::Holder,
    },
    FieldRow {
        name: b"issuer",
        starts: b"",
        field: Field::Issuer,
    },
    FieldRow {
        name: b"signed algorithm",
        starts: b"",
        field: Field::Algorithm,
    },
    FieldRow {
        name: b"serial",
        starts: b"",
        field: Field::Serial,
    },
    FieldRow {
        name: b"validity",
        starts: b"",
        field: Field::Times,
    },
    FieldRow {
        name: b"attributes",
        starts: b"",
        field: Field::Attributes,
    },
    FieldRow {
        name: b"issuer unique id",
        starts: b"\x03",
        field: Field::Bits,
    },
    FieldRow {
        name: b"extensions",
        starts: b"0",
        field: Field::Extensions,
    },
];

const SIGNATURE_FIELDS: &[FieldRow] = &[
    FieldRow {
        name: b"signature algorithm",
        starts: b"",
        field: Field::Algorithm,
    },
    FieldRow {
        name: b"signature",
        starts: b"",
        field: Field::Bits,
    },
];

/// The fields of a TBSCertificate (RFC 5280, 4.1).
#[tactic(auto, unfolding(crate::specs::Tables::certificate_fields))]
pub(crate) fn certificate_fields() -> &'static [FieldRow]
    ensures { map as_row result.now ≡ certificate_fields }
{
    CERTIFICATE_FIELDS
}

/// The fields of a CertificationRequestInfo (RFC 2986, 4.1).
#[tactic(auto, unfolding(crate::specs::Tables::request_fields))]
pub(crate) fn request_fields() -> &'static [FieldRow]
    ensures { map as_row result.now ≡ request_fields }
{
    REQUEST_FIELDS
}

/// The fields of a TBSCertList (RFC 5280, 5.1).
#[tactic(auto, unfolding(crate::specs::Tables::list_fields))]
pub(crate) fn list_fields() -> &'static [FieldRow]
    ensures { map as_row result.now ≡ list_fields }
{
    LIST_FIELDS
}

/// The fields of an AttributeCertificateInfo (RFC 5755, 4.1).
#[tactic(auto, unfolding(crate::specs::Tables::attribute_certificate_fields))]
pub(crate) fn attribute_certificate_fields() -> &'static [FieldRow]
    ensures { map as_row result.now ≡ attribute_certificate_fields }
{
    ATTRIBUTE_CERTIFICATE_FIELDS
}

/// The fields after the part that is signed.
#[tactic(auto, unfolding(crate::specs::Tables::signature_fields))]
pub(crate) fn signature_fields() -> &'static [FieldRow]
    ensures { map as_row result.now ≡ signature_fields }
{
    SIGNATURE_FIELDS
}
