//! Object identifiers that have a name here.
ghost use Rattle.std.specs.Prelude.{◌≡◌, ◌++◌, find, map, nat_eq, OnOk};
ghost use Rattle.std.specs.Option.{option_map};
ghost use Rattle.std.specs.Cmp.Lexicographic.{pointwise};
ghost use Rattle.shelf_explain.specs.Known.{as_pair, attribute_names, extension_names, extension_name_text, identifier_text, known_names, name_in, named};

use crate::show::push_dotted;
use pkix_alg::algorithms::RSA_ENCRYPTION;
use pkix_cert::extension_id::{
    ID_CE_AUTHORITY_KEY_IDENTIFIER, ID_CE_BASIC_CONSTRAINTS, ID_CE_CERTIFICATE_ISSUER,
    ID_CE_CERTIFICATE_POLICIES, ID_CE_CRL_DISTRIBUTION_POINTS, ID_CE_CRL_NUMBER, ID_CE_CRL_REASONS,
    ID_CE_DELTA_CRL_INDICATOR, ID_CE_EXT_KEY_USAGE, ID_CE_FRESHEST_CRL, ID_CE_INHIBIT_ANY_POLICY,
    ID_CE_INVALIDITY_DATE, ID_CE_ISSUER_ALT_NAME, ID_CE_ISSUING_DISTRIBUTION_POINT,
    ID_CE_KEY_USAGE, ID_CE_NAME_CONSTRAINTS, ID_CE_POLICY_CONSTRAINTS, ID_CE_POLICY_MAPPINGS,
    ID_CE_SUBJECT_ALT_NAME, ID_CE_SUBJECT_KEY_IDENTIFIER,
};
use std::alloc::{AllocError, Global};

/// An object identifier and its name.
#[derive(Clone, Copy, Debug)]
pub(crate) struct Row {
    arcs: &'static [u32],
    name: &'static [u8],
}

/// The types of attributes that have a name (RFC 4514, 3, of RFC 4519 and RFC 2985 those that certificates use, and those of
/// companies).
const ATTRIBUTES: &[Row] = &[
    Row {
        arcs: &[2, 5, 4, 3],
        name: b"CN",
    },
    Row {
        arcs: &[2, 5, 4, 7],
        name: b"L",
    },
    Row {
        arcs: &[2, 5, 4, 8],
        name: b"ST",
    },
    Row {
        arcs: &[2, 5, 4, 10],
        name: b"O",
    },
    Row {
        arcs: &[2, 5, 4, 11],
        name: b"OU",
    },
    Row {
        arcs: &[2, 5, 4, 6],
        name: b"C",
    },
    Row {
        arcs: &[2, 5, 4, 9],
        name: b"STREET",
    },
    Row {
        arcs: &[0, 9, 2342, 19200300, 100, 1, 25],
        name: b"DC",
    },
    Row {
        arcs: &[0, 9, 2342, 19200300, 100, 1, 1],
        name: b"UID",
    },
    Row {
        arcs: &[2, 5, 4, 4],
        name: b"SN",
    },
    Row {
        arcs: &[2, 5, 4, 5],
        name: b"serialNumber",
    },
    Row {
        arcs: &[2, 5, 4, 12],
        name: b"title",
    },
    Row {
        arcs: &[2, 5, 4, 42],
        name: b"givenName",
    },
    Row {
        arcs: &[1, 2, 840, 113549, 1, 9, 1],
        name: b"emailAddress",
    },
    Row {
        arcs: &[2, 5, 4, 97],
        name: b"organizationIdentifier",
    },
    Row {
        arcs: &[2, 5, 4, 46],
        name: b"dnQualifier",
    },
    Row {
        arcs: &[2, 5, 4, 65],
        name: b"pseudonym",
    },
    Row {
        arcs: &[2, 5, 4, 17],
        name: b"postalCode",
    },
    Row {
        arcs: &[2, 5, 4, 15],
        name: b"businessCategory",
    },
    Row {
        arcs: &[1, 3, 6, 1, 4, 1, 311, 60, 2, 1, 1],
        name: b"jurisdictionLocalityName",
    },
    Row {
        arcs: &[1, 3, 6, 1, 4, 1, 311, 60, 2, 1, 2],
        name: b"jurisdictionStateOrProvinceName",
    },
    Row {
        arcs: &[1, 3, 6, 1, 4, 1, 311, 60, 2, 1, 3],
        name: b"jurisdictionCountryName",
    },
    Row {
        arcs: &[2, 5, 4, 41],
        name: b"name",
    },
    Row {
        arcs: &[2, 5, 4, 43],
        name: b"initials",
    },
    Row {
        arcs: &[2, 5, 4, 44],
        name: b"generationQualifier",
    },
    Row {
        arcs: &[2, 5, 4, 13],
        name: b"description",
    },
    Row {
        arcs: &[2, 5, 4, 18],
        name: b"postOfficeBox",
    },
    Row {
        arcs: &[2, 5, 4, 20],
        name: b"telephoneNumber",
    },
    Row {
        arcs: &[2, 5, 4, 45],
        name: b"uniqueIdentifier",
    },
    Row {
        arcs: &[1, 2, 840, 113549, 1, 9, 2],
        name: b"unstructuredName",
    },
    Row {
        arcs: &[1, 2, 840, 113549, 1, 9, 8],
        name: b"unstructuredAddress",
    },
];

/// Extensions (RFC 5280, 4.2, 5.2, 5.3; RFC 5755, 4.3).
const EXTENSIONS: &[Row] = &[
    Row {
        arcs: ID_CE_SUBJECT_KEY_IDENTIFIER,
        name: b"subject key id",
    },
    Row {
        arcs: ID_CE_KEY_USAGE,
        name: b"key usage",
    },
    Row {
        arcs: &[2, 5, 29, 16],
        name: b"private key usage",
    },
    Row {
        arcs: ID_CE_SUBJECT_ALT_NAME,
        name: b"subject alt names",
    },
    Row {
        arcs: ID_CE_ISSUER_ALT_NAME,
        name: b"issuer alt names",
    },
    Row {
        arcs: ID_CE_BASIC_CONSTRAINTS,
        name: b"basic constraints",
    },
    Row {
        arcs: ID_CE_CRL_NUMBER,
        name: b"CRL number",
    },
    Row {
        arcs: ID_CE_CRL_REASONS,
        name: b"reason",
    },
    Row {
        arcs: ID_CE_INVALIDITY_DATE,
        name: b"invalid since",
    },
    Row {
        arcs: ID_CE_DELTA_CRL_INDICATOR,
        name: b"delta to CRL number",
    },
    Row {
        arcs: ID_CE_ISSUING_DISTRIBUTION_POINT,
        name: b"issuing point",
    },
    Row {
        arcs: ID_CE_CERTIFICATE_ISSUER,
        name: b"certificate issuer",
    },
    Row {
        arcs: ID_CE_NAME_CONSTRAINTS,
        name: b"name constraints",
    },
    Row {
        arcs: ID_CE_CRL_DISTRIBUTION_POINTS,
        name: b"CRL points",
    },
    Row {
        arcs: ID_CE_CERTIFICATE_POLICIES,
        name: b"policies",
    },
    Row {
        arcs: ID_CE_POLICY_MAPPINGS,
        name: b"policy mappings",
    },
    Row {
        arcs: ID_CE_AUTHORITY_KEY_IDENTIFIER,
        name: b"authority key id",
    },
    Row {
        arcs: ID_CE_POLICY_CONSTRAINTS,
        name: b"policy constraints",
    },
    Row {
        arcs: ID_CE_EXT_KEY_USAGE,
        name: b"purposes",
    },
    Row {
        arcs: ID_CE_FRESHEST_CRL,
        name: b"freshest CRL",
    },
    Row {
        arcs: ID_CE_INHIBIT_ANY_POLICY,
        name: b"inhibit any policy",
    },
    Row {
        arcs: &[2, 5, 29, 55],
        name: b"targets",
    },
    Row {
        arcs: &[2, 5, 29, 56],
        name: b"no revocation",
    },
    Row {
        arcs: &[1, 3, 6, 1, 5, 5, 7, 1, 1],
        name: b"authority access",
    },
    Row {
        arcs: &[1, 3, 6, 1, 5, 5, 7, 1, 11],
        name: b"subject access",
    },
    Row {
        arcs: &[1, 3, 6, 1, 5, 5, 7, 1, 4],
        name: b"audit identity",
    },
    Row {
        arcs: &[2, 5, 29, 9],
        name: b"directory attributes",
    },
    Row {
        arcs: &[1, 3, 6, 1, 5, 5, 7, 1, 3],
        name: b"qualified statements",
    },
    Row {
        arcs: &[1, 3, 6, 1, 5, 5, 7, 1, 24],
        name: b"TLS features",
    },
    Row {
        arcs: &[1, 3, 6, 1, 5, 5, 7, 48, 1, 5],
        name: b"OCSP no check",
    },
    Row {
        arcs: &[1, 3, 6, 1, 4, 1, 11129, 2, 4, 2],
        name: b"CT timestamps",
    },
    Row {
        arcs: &[1, 3, 6, 1, 4, 1, 11129, 2, 4, 3],
        name: b"CT poison",
    },
    Row {
        arcs: &[1, 3, 6, 1, 4, 1, 311, 20, 2],
        name: b"template name",
    },
    Row {
        arcs: &[1, 3, 6, 1, 4, 1, 311, 21, 1],
        name: b"CA version",
    },
    Row {
        arcs: &[1, 3, 6, 1, 4, 1, 311, 21, 2],
        name: b"previous CA hash",
    },
    Row {
        arcs: &[1, 3, 6, 1, 4, 1, 311, 21, 7],
        name: b"template",
    },
    Row {
        arcs: &[1, 3, 6, 1, 4, 1, 311, 21, 10],
        name: b"application policies",
    },
    Row {
        arcs: &[1, 3, 6, 1, 4, 1, 311, 25, 2],
        name: b"account",
    },
    Row {
        arcs: &[2, 16, 840, 1, 113730, 1, 1],
        name: b"Netscape type",
    },
    Row {
        arcs: &[2, 16, 840, 1, 113730, 1, 13],
        name: b"Netscape comment",
    },
];

/// Algorithms, curves, purposes of keys, policies and methods of access.
const IDENTIFIERS: &[Row] = &[
    Row {
        arcs: RSA_ENCRYPTION,
        name: b"RSA",
    },
    Row {
        arcs: &[1, 2, 840, 113549, 1, 1, 5],
        name: b"RSA with SHA-1",
    },
    Row {
        arcs: &[1, 2, 840, 113549, 1, 1, 10],
        name: b"RSA-PSS",
    },
    Row {
        arcs: &[1, 2, 840, 113549, 1, 1, 11],
        name: b"RSA with SHA-256",
    },
    Row {
        arcs: &[1, 2, 840, 113549, 1, 1, 12],
        name: b"RSA with SHA-384",
    },
    Row {
        arcs: &[1, 2, 840, 113549, 1, 1, 13],
        name: b"RSA with SHA-512",
    },
    Row {
        arcs: &[1, 2, 840, 10045, 2, 1],
        name: b"EC",
    },
    Row {
        arcs: &[1, 2, 840, 10045, 3, 1, 7],
        name: b"P-256",
    },
    Row {
        arcs: &[1, 3, 132, 0, 34],
        name: b"P-384",
    },
    Row {
        arcs: &[1, 3, 132, 0, 35],
        name: b"P-521",
    },
    Row {
        arcs: &[1, 2, 840, 10045, 4, 3, 2],
        name: b"ECDSA with SHA-256",
    },
    Row {
        arcs: &[1, 2, 840, 10045, 4, 3, 3],
        name: b"ECDSA with SHA-384",
    },
    Row {
        arcs: &[1, 2, 840, 10045, 4, 3, 4],
        name: b"ECDSA with SHA-512",
    },
    Row {
        arcs: &[1, 3, 101, 110],
        name: b"X25519",
    },
    Row {
        arcs: &[1, 3, 101, 112],
        name: b"Ed25519",
    },
    Row {
        arcs: &[1, 3, 101, 113],
        name: b"Ed448",
    },
    Row {
        arcs: &[2, 16, 840, 1, 101, 3, 4, 3, 17],
        name: b"ML-DSA-44",
    },
    Row {
        arcs: &[2, 16, 840, 1, 101, 3, 4, 3, 18],
        name: b"ML-DSA-65",
    },
    Row {
        arcs: &[2, 16, 840, 1, 101, 3, 4, 3, 19],
        name: b"ML-DSA-87",
    },
    Row {
        arcs: &[1, 3, 6, 1, 5, 5, 7, 3, 1],
        name: b"server authentication",
    },
    Row {
        arcs: &[1, 3, 6, 1, 5, 5, 7, 3, 2],
        name: b"client authentication",
    },
    Row {
        arcs: &[1, 3, 6, 1, 5, 5, 7, 3, 3],
        name: b"code signing",
    },
    Row {
        arcs: &[1, 3, 6, 1, 5, 5, 7, 3, 4],
        name: b"e-mail protection",
    },
    Row {
        arcs: &[1, 3, 6, 1, 5, 5, 7, 3, 8],
        name: b"time stamping",
    },
    Row {
        arcs: &[1, 3, 6, 1, 5, 5, 7, 3, 9],
        name: b"OCSP signing",
    },
    Row {
        arcs: &[2, 5, 29, 37, 0],
        name: b"any purpose",
    },
    Row {
        arcs: &[2, 5, 29, 32, 0],
        name: b"any policy",
    },
    Row {
        arcs: &[1, 3, 6, 1, 5, 5, 7, 48, 1],
        name: b"OCSP",
    },
    Row {
        arcs: &[1, 3, 6, 1, 5, 5, 7, 48, 2],
        name: b"CA issuers",
    },
    Row {
        arcs: &[1, 3, 6, 1, 5, 5, 7, 48, 3],
        name: b"time stamping",
    },
    Row {
        arcs: &[1, 3, 6, 1, 5, 5, 7, 48, 5],
        name: b"CA repository",
    },
    Row {
        arcs: &[1, 2, 840, 113549, 1, 9, 7],
        name: b"challenge password",
    },
    Row {
        arcs: &[1, 2, 840, 113549, 1, 9, 14],
        name: b"extension request",
    },
    Row {
        arcs: &[2, 5, 4, 72],
        name: b"role",
    },
    Row {
        arcs: &[2, 5, 4, 55],
        name: b"clearance",
    },
    Row {
        arcs: &[1, 3, 6, 1, 5, 5, 7, 10, 1],
        name: b"authentication info",
    },
    Row {
        arcs: &[1, 3, 6, 1, 5, 5, 7, 10, 2],
        name: b"access identity",
    },
    Row {
        arcs: &[1, 3, 6, 1, 5, 5, 7, 10, 3],
        name: b"charging identity",
    },
    Row {
        arcs: &[1, 3, 6, 1, 5, 5, 7, 10, 4],
        name: b"group",
    },
    Row {
        arcs: &[1, 2, 840, 113549, 1, 1, 2],
        name: b"RSA with MD2",
    },
    Row {
        arcs: &[1, 2, 840, 113549, 1, 1, 4],
        name: b"RSA with MD5",
    },
    Row {
        arcs: &[1, 2, 840, 113549, 1, 1, 14],
        name: b"RSA with SHA-224",
    },
    Row {
        arcs: &[1, 3, 14, 3, 2, 29],
        name: b"RSA with SHA-1",
    },
    Row {
        arcs: &[1, 2, 840, 113549, 1, 1, 7],
        name: b"RSA-OAEP",
    },
    Row {
        arcs: &[1, 2, 840, 113549, 1, 1, 8],
        name: b"MGF1",
    },
    Row {
        arcs: &[1, 2, 840, 10040, 4, 1],
        name: b"DSA",
    },
    Row {
        arcs: &[1, 2, 840, 10040, 4, 3],
        name: b"DSA with SHA-1",
    },
    Row {
        arcs: &[2, 16, 840, 1, 101, 3, 4, 3, 1],
        name: b"DSA with SHA-224",
    },
    Row {
        arcs: &[2, 16, 840, 1, 101, 3, 4, 3, 2],
        name: b"DSA with SHA-256",
    },
    Row {
        arcs: &[1, 2, 840, 10046, 2, 1],
        name: b"DH",
    },
    Row {
        arcs: &[1, 2, 840, 113549, 2, 2],
        name: b"MD2",
    },
    Row {
        arcs: &[1, 2, 840, 113549, 2, 5],
        name: b"MD5",
    },
    Row {
        arcs: &[1, 3, 14, 3, 2, 26],
        name: b"SHA-1",
    },
    Row {
        arcs: &[2, 16, 840, 1, 101, 3, 4, 2, 4],
        name: b"SHA-224",
    },
    Row {
        arcs: &[2, 16, 840, 1, 101, 3, 4, 2, 1],
        name: b"SHA-256",
    },
    Row {
        arcs: &[2, 16, 840, 1, 101, 3, 4, 2, 2],
        name: b"SHA-384",
    },
    Row {
        arcs: &[2, 16, 840, 1, 101, 3, 4, 2, 3],
        name: b"SHA-512",
    },
    Row {
        arcs: &[1, 2, 840, 10045, 4, 1],
        name: b"ECDSA with SHA-1",
    },
    Row {
        arcs: &[1, 2, 840, 10045, 4, 3, 1],
        name: b"ECDSA with SHA-224",
    },
    Row {
        arcs: &[1, 2, 840, 10045, 3, 1, 1],
        name: b"P-192",
    },
    Row {
        arcs: &[1, 3, 132, 0, 33],
        name: b"P-224",
    },
    Row {
        arcs: &[1, 3, 132, 0, 10],
        name: b"secp256k1",
    },
    Row {
        arcs: &[1, 3, 36, 3, 3, 2, 8, 1, 1, 7],
        name: b"brainpoolP256r1",
    },
    Row {
        arcs: &[1, 3, 36, 3, 3, 2, 8, 1, 1, 11],
        name: b"brainpoolP384r1",
    },
    Row {
        arcs: &[1, 3, 36, 3, 3, 2, 8, 1, 1, 13],
        name: b"brainpoolP512r1",
    },
    Row {
        arcs: &[1, 3, 101, 111],
        name: b"X448",
    },
    Row {
        arcs: &[1, 3, 6, 1, 5, 5, 7, 3, 36],
        name: b"document signing",
    },
    Row {
        arcs: &[1, 3, 6, 1, 5, 2, 3, 5],
        name: b"KDC authentication",
    },
    Row {
        arcs: &[1, 3, 6, 1, 4, 1, 311, 20, 2, 2],
        name: b"smart card logon",
    },
    Row {
        arcs: &[1, 3, 6, 1, 4, 1, 311, 10, 3, 4],
        name: b"file encryption",
    },
    Row {
        arcs: &[1, 3, 6, 1, 4, 1, 11129, 2, 4, 4],
        name: b"CT precertificate signing",
    },
    Row {
        arcs: &[2, 23, 140, 1, 1],
        name: b"extended validation",
    },
    Row {
        arcs: &[2, 23, 140, 1, 2, 1],
        name: b"domain validated",
    },
    Row {
        arcs: &[2, 23, 140, 1, 2, 2],
        name: b"organization validated",
    },
    Row {
        arcs: &[2, 23, 140, 1, 2, 3],
        name: b"individual validated",
    },
    Row {
        arcs: &[1, 3, 6, 1, 5, 5, 7, 2, 1],
        name: b"CPS",
    },
    Row {
        arcs: &[1, 3, 6, 1, 5, 5, 7, 2, 2],
        name: b"user notice",
    },
    Row {
        arcs: &[1, 3, 6, 1, 4, 1, 311, 20, 2, 3],
        name: b"UPN",
    },
    Row {
        arcs: &[1, 3, 6, 1, 5, 5, 7, 8, 9],
        name: b"SmtpUTF8Mailbox",
    },
    Row {
        arcs: &[1, 3, 6, 1, 5, 5, 7, 8, 7],
        name: b"SRV name",
    },
    Row {
        arcs: &[1, 3, 6, 1, 5, 5, 7, 8, 5],
        name: b"XMPP address",
    },
    Row {
        arcs: &[1, 2, 840, 113549, 1, 9, 2],
        name: b"unstructured name",
    },
    Row {
        arcs: &[1, 2, 840, 113549, 1, 9, 8],
        name: b"unstructured address",
    },
];

/// The first row with the identifier.
fn first_row(table: &[Row], arcs: &[u32]) -> Option<Row>
    ensures { result ≡ find (λ row. pointwise nat_eq row.arcs.now arcs.now) table.now }
{
    table.iter().copied().find(|row| row.arcs == arcs)
}

/// The name that the table has for the identifier.
fn name_in(table: &[Row], arcs: &[u32]) -> Option<&'static [u8]>
    ensures { option_map (λ name. name.now) result ≡ name_in (map as_pair table.now) arcs.now }
{
    match first_row(table, arcs) {
        Some(row) => Some(row.name),
        None => None,
    }
}

/// The short name of an attribute's type.
pub(crate) fn attribute_name(arcs: &[u32]) -> Option<&'static [u8]>
    ensures { option_map (λ name. name.now) result ≡ name_in attribute_names arcs.now }
{
    name_in(ATTRIBUTES, arcs)
}

/// The name of an extension.
fn extension_name(arcs: &[u32]) -> Option<&'static [u8]>
    ensures { option_map (λ name. name.now) result ≡ name_in extension_names arcs.now }
{
    name_in(EXTENSIONS, arcs)
}

/// The name of another identifier.
fn known_name(arcs: &[u32]) -> Option<&'static [u8]>
    ensures { option_map (λ name. name.now) result ≡ name_in known_names arcs.now }
{
    name_in(IDENTIFIERS, arcs)
}

/// Pushes the name, or else the arcs.
#[tactic(auto, unfolding(crate::specs::Known::named))]
fn push_named(
    alloc: Global,
    lines: &mut Vec<u8>,
    name: Option<&'static [u8]>,
    arcs: &[u32],
) -> Result<(), AllocError>
    ensures { OnOk result (lines.new.items ≡ lines.old.items ++ named (option_map (λ text. text.now) name.entry) arcs.now) }
{
    match name {
        Some(name) => lines.extend_from_slice(name),
        None => push_dotted(alloc, lines, arcs),
    }
}

/// Pushes the name of the identifier, or else its arcs.
#[tactic(auto, unfolding(crate::specs::Known::identifier_text))]
pub(crate) fn push_identifier(
    alloc: Global,
    lines: &mut Vec<u8>,
    arcs: &[u32],
) -> Result<(), AllocError>
    ensures { OnOk result (lines.new.items ≡ lines.old.items ++ identifier_text arcs.now) }
{
    push_named(alloc, lines, known_name(arcs), arcs)
}

/// Pushes the name of the extension, or else the arcs of its identifier.
#[tactic(auto, unfolding(crate::specs::Known::extension_name_text))]
pub(crate) fn push_extension_name(
    alloc: Global,
    lines: &mut Vec<u8>,
    arcs: &[u32],
) -> Result<(), AllocError>
    ensures { OnOk result (lines.new.items ≡ lines.old.items ++ extension_name_text arcs.now) }
{
    push_named(alloc, lines, extension_name(arcs), arcs)
}
