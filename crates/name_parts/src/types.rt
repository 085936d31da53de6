//! The types of attributes that have a name, and the kind of string of each.
//!
//! The names are those of RFC 4519, RFC 4524, RFC 2985 and RFC 5280, in any case of ASCII (RFC 4512, 2.5),
//! of types whose values are strings; and those of companies (X.520, 2.5.4.97, and the guidelines for
//! extended validation). `uniqueIdentifier` isn't among them: X.520 and RFC 4524 name two types so.
ghost use Rattle.std.specs.Prelude.{◌≡◌, find, map, nat_eq};
ghost use Rattle.std.specs.Cmp.Lexicographic.{pointwise};
ghost use Rattle.std.specs.Option.{option_map};
ghost use Rattle.name_parts.specs.Types.{arcs_in, arcs_named, as_known, kind_in, kind_of, same_name};

/// A kind of string.
#[derive(Clone, Copy, Debug, PartialEq, Eq)]
pub(crate) enum Kind {
    /// NumericString.
    Numeric,
    /// PrintableString.
    Printable,
    /// IA5String.
    Ia5,
    /// UTF8String.
    Utf8,
}

/// A name, the type of attribute that has it, and the kind of its values.
#[derive(Clone, Copy, Debug)]
pub(crate) struct Row {
    name: &'static [u8],
    arcs: &'static [u32],
    kind: Kind,
}

const TYPES: &[Row] = &[
    Row {
        name: b"businessCategory",
        arcs: &[2, 5, 4, 15],
        kind: Kind::Utf8,
    },
    Row {
        name: b"c",
        arcs: &[2, 5, 4, 6],
        kind: Kind::Printable,
    },
    Row {
        name: b"countryName",
        arcs: &[2, 5, 4, 6],
        kind: Kind::Printable,
    },
    Row {
        name: b"cn",
        arcs: &[2, 5, 4, 3],
        kind: Kind::Utf8,
    },
    Row {
        name: b"commonName",
        arcs: &[2, 5, 4, 3],
        kind: Kind::Utf8,
    },
    Row {
        name: b"dc",
        arcs: &[0, 9, 2342, 19200300, 100, 1, 25],
        kind: Kind::Ia5,
    },
    Row {
        name: b"domainComponent",
        arcs: &[0, 9, 2342, 19200300, 100, 1, 25],
        kind: Kind::Ia5,
    },
    Row {
        name: b"description",
        arcs: &[2, 5, 4, 13],
        kind: Kind::Utf8,
    },
    Row {
        name: b"destinationIndicator",
        arcs: &[2, 5, 4, 27],
        kind: Kind::Printable,
    },
    Row {
        name: b"dnQualifier",
        arcs: &[2, 5, 4, 46],
        kind: Kind::Printable,
    },
    Row {
        name: b"generationQualifier",
        arcs: &[2, 5, 4, 44],
        kind: Kind::Utf8,
    },
    Row {
        name: b"givenName",
        arcs: &[2, 5, 4, 42],
        kind: Kind::Utf8,
    },
    Row {
        name: b"houseIdentifier",
        arcs: &[2, 5, 4, 51],
        kind: Kind::Utf8,
    },
    Row {
        name: b"initials",
        arcs: &[2, 5, 4, 43],
        kind: Kind::Utf8,
    },
    Row {
        name: b"internationalISDNNumber",
        arcs: &[2, 5, 4, 25],
        kind: Kind::Numeric,
    },
    Row {
        name: b"l",
        arcs: &[2, 5, 4, 7],
        kind: Kind::Utf8,
    },
    Row {
        name: b"localityName",
        arcs: &[2, 5, 4, 7],
        kind: Kind::Utf8,
    },
    Row {
        name: b"name",
        arcs: &[2, 5, 4, 41],
        kind: Kind::Utf8,
    },
    Row {
        name: b"o",
        arcs: &[2, 5, 4, 10],
        kind: Kind::Utf8,
    },
    Row {
        name: b"organizationName",
        arcs: &[2, 5, 4, 10],
        kind: Kind::Utf8,
    },
    Row {
        name: b"ou",
        arcs: &[2, 5, 4, 11],
        kind: Kind::Utf8,
    },
    Row {
        name: b"organizationalUnitName",
        arcs: &[2, 5, 4, 11],
        kind: Kind::Utf8,
    },
    Row {
        name: b"physicalDeliveryOfficeName",
        arcs: &[2, 5, 4, 19],
        kind: Kind::Utf8,
    },
    Row {
        name: b"postalCode",
        arcs: &[2, 5, 4, 17],
        kind: Kind::Utf8,
    },
    Row {
        name: b"postOfficeBox",
        arcs: &[2, 5, 4, 18],
        kind: Kind::Utf8,
    },
    Row {
        name: b"serialNumber",
        arcs: &[2, 5, 4, 5],
        kind: Kind::Printable,
    },
    Row {
        name: b"sn",
        arcs: &[2, 5, 4, 4],
        kind: Kind::Utf8,
    },
    Row {
        name: b"surname",
        arcs: &[2, 5, 4, 4],
        kind: Kind::Utf8,
    },
    Row {
        name: b"st",
        arcs: &[2, 5, 4, 8],
        kind: Kind::Utf8,
    },
    Row {
        name: b"stateOrProvinceName",
        arcs: &[2, 5, 4, 8],
        kind: Kind::Utf8,
    },
    Row {
        name: b"street",
        arcs: &[2, 5, 4, 9],
        kind: Kind::Utf8,
    },
    Row {
        name: b"streetAddress",
        arcs: &[2, 5, 4, 9],
        kind: Kind::Utf8,
    },
    Row {
        name: b"telephoneNumber",
        arcs: &[2, 5, 4, 20],
        kind: Kind::Printable,
    },
    Row {
        name: b"title",
        arcs: &[2, 5, 4, 12],
        kind: Kind::Utf8,
    },
    Row {
        name: b"uid",
        arcs: &[0, 9, 2342, 19200300, 100, 1, 1],
        kind: Kind::Utf8,
    },
    Row {
        name: b"userid",
        arcs: &[0, 9, 2342, 19200300, 100, 1, 1],
        kind: Kind::Utf8,
    },
    Row {
        name: b"x121Address",
        arcs: &[2, 5, 4, 24],
        kind: Kind::Numeric,
    },
    Row {
        name: b"associatedDomain",
        arcs: &[0, 9, 2342, 19200300, 100, 1, 37],
        kind: Kind::Ia5,
    },
    Row {
        name: b"buildingName",
        arcs: &[0, 9, 2342, 19200300, 100, 1, 48],
        kind: Kind::Utf8,
    },
    Row {
        name: b"co",
        arcs: &[0, 9, 2342, 19200300, 100, 1, 43],
        kind: Kind::Utf8,
    },
    Row {
        name: b"friendlyCountryName",
        arcs: &[0, 9, 2342, 19200300, 100, 1, 43],
        kind: Kind::Utf8,
    },
    Row {
        name: b"documentIdentifier",
        arcs: &[0, 9, 2342, 19200300, 100, 1, 11],
        kind: Kind::Utf8,
    },
    Row {
        name: b"documentLocation",
        arcs: &[0, 9, 2342, 19200300, 100, 1, 15],
        kind: Kind::Utf8,
    },
    Row {
        name: b"documentPublisher",
        arcs: &[0, 9, 2342, 19200300, 100, 1, 56],
        kind: Kind::Utf8,
    },
    Row {
        name: b"documentTitle",
        arcs: &[0, 9, 2342, 19200300, 100, 1, 12],
        kind: Kind::Utf8,
    },
    Row {
        name: b"documentVersion",
        arcs: &[0, 9, 2342, 19200300, 100, 1, 13],
        kind: Kind::Utf8,
    },
    Row {
        name: b"drink",
        arcs: &[0, 9, 2342, 19200300, 100, 1, 5],
        kind: Kind::Utf8,
    },
    Row {
        name: b"favouriteDrink",
        arcs: &[0, 9, 2342, 19200300, 100, 1, 5],
        kind: Kind::Utf8,
    },
    Row {
        name: b"homePhone",
        arcs: &[0, 9, 2342, 19200300, 100, 1, 20],
        kind: Kind::Printable,
    },
    Row {
        name: b"homeTelephone",
        arcs: &[0, 9, 2342, 19200300, 100, 1, 20],
        kind: Kind::Printable,
    },
    Row {
        name: b"host",
        arcs: &[0, 9, 2342, 19200300, 100, 1, 9],
        kind: Kind::Utf8,
    },
    Row {
        name: b"info",
        arcs: &[0, 9, 2342, 19200300, 100, 1, 4],
        kind: Kind::Utf8,
    },
    Row {
        name: b"mail",
        arcs: &[0, 9, 2342, 19200300, 100, 1, 3],
        kind: Kind::Ia5,
    },
    Row {
        name: b"rfc822Mailbox",
        arcs: &[0, 9, 2342, 19200300, 100, 1, 3],
        kind: Kind::Ia5,
    },
    Row {
        name: b"mobile",
        arcs: &[0, 9, 2342, 19200300, 100, 1, 41],
        kind: Kind::Printable,
    },
    Row {
        name: b"mobileTelephoneNumber",
        arcs: &[0, 9, 2342, 19200300, 100, 1, 41],
        kind: Kind::Printable,
    },
    Row {
        name: b"organizationalStatus",
        arcs: &[0, 9, 2342, 19200300, 100, 1, 45],
        kind: Kind::Utf8,
    },
    Row {
        name: b"pager",
        arcs: &[0, 9, 2342, 19200300, 100, 1, 42],
        kind: Kind::Printable,
    },
    Row {
        name: b"pagerTelephoneNumber",
        arcs: &[0, 9, 2342, 19200300, 100, 1, 42],
        kind: Kind::Printable,
    },
    Row {
        name: b"personalTitle",
        arcs: &[0, 9, 2342, 19200300, 100, 1, 40],
        kind: Kind::Utf8,
    },
    Row {
        name: b"roomNumber",
        arcs: &[0, 9, 2342, 19200300, 100, 1, 6],
        kind: Kind::Utf8,
    },
    Row {
        name: b"userClass",
        arcs: &[0, 9, 2342, 19200300, 100, 1, 8],
        kind: Kind::Utf8,
    },
    Row {
        name: b"emailAddress",
        arcs: &[1, 2, 840, 113549, 1, 9, 1],
        kind: Kind::Ia5,
    },
    Row {
        name: b"unstructuredName",
        arcs: &[1, 2, 840, 113549, 1, 9, 2],
        kind: Kind::Utf8,
    },
    Row {
        name: b"unstructuredAddress",
        arcs: &[1, 2, 840, 113549, 1, 9, 8],
        kind: Kind::Utf8,
    },
    Row {
        name: b"pseudonym",
        arcs: &[2, 5, 4, 65],
        kind: Kind::Utf8,
    },
    Row {
        name: b"organizationIdentifier",
        arcs: &[2, 5, 4, 97],
        kind: Kind::Utf8,
    },
    Row {
        name: b"jurisdictionLocalityName",
        arcs: &[1, 3, 6, 1, 4, 1, 311, 60, 2, 1, 1],
        kind: Kind::Utf8,
    },
    Row {
        name: b"jurisdictionStateOrProvinceName",
        arcs: &[1, 3, 6, 1, 4, 1, 311, 60, 2, 1, 2],
        kind: Kind::Utf8,
    },
    Row {
        name: b"jurisdictionCountryName",
        arcs: &[1, 3, 6, 1, 4, 1, 311, 60, 2, 1, 3],
        kind: Kind::Printable,
    },
];

#[tactic(auto, using(crate::proofs::Found::decided))]
fn same_name(a: &[u8], b: &[u8]) -> bool
    ensures { result ≡ same_name a.now b.now }
{
    a.eq_ignore_ascii_case(b)
}

/// The first row with the name.
fn row_named(table: &[Row], name: &[u8]) -> Option<Row>
    ensures { result ≡ find (λ row. same_name row.name.now name.now) table.now }
{
    table.iter().copied().find(|row| same_name(row.name, name))
}

/// The first row with the arcs.
fn row_of(table: &[Row], arcs: &[u32]) -> Option<Row>
    ensures { result ≡ find (λ row. pointwise nat_eq row.arcs.now arcs.now) table.now }
{
    table.iter().copied().find(|row| row.arcs == arcs)
}

fn arcs_in(table: &[Row], name: &[u8]) -> Option<&'static [u32]>
    ensures { option_map (λ arcs. arcs.now) result ≡ arcs_in (map as_known table.now) name.now }
{
    match row_named(table, name) {
        Some(row) => Some(row.arcs),
        None => None,
    }
}

fn kind_in(table: &[Row], arcs: &[u32]) -> Kind
    ensures { result ≡ kind_in (map as_known table.now) arcs.now }
{
    match row_of(table, arcs) {
        Some(row) => row.kind,
        None => Kind::Utf8,
    }
}

/// The arcs of the type with the name.
pub(crate) fn arcs_named(name: &[u8]) -> Option<&'static [u32]>
    ensures { option_map (λ arcs. arcs.now) result ≡ arcs_named name.now }
{
    arcs_in(TYPES, name)
}

/// The kind of string of the type's values.
pub(crate) fn kind_of(arcs: &[u32]) -> Kind
    ensures { result ≡ kind_of arcs.now }
{
    kind_in(TYPES, arcs)
}
