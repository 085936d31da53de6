//! What is written of each rule.
ghost use Rattle.std.specs.Prelude.{◌≡◌};
ghost use Rattle.rule_texts.specs.Errors.{is_error};
ghost use Rattle.rule_texts.specs.Texts.{text};

use rule_table::Rule;

/// Whether nothing is issued where the rule is broken: readers reject what breaks it, or it isn't what an operator can mean.
#[tactic(auto, unfolding(crate::specs::Errors::is_error))]
pub fn is_error(rule: Rule) -> bool
    ensures { result ≡ is_error rule }
{
    match rule {
        Rule::BelowPathLength => true,
        Rule::ExtensionTwice => true,
        Rule::EmptyText => true,
        Rule::UnreadableExtension => true,
        Rule::PathLengthNegative => true,
        Rule::EmptyPurposes => true,
        Rule::EmptyAltNames => true,
        Rule::ControlCharacter => true,
        Rule::SubtreeAddress => true,
        Rule::SubtreeMailbox => true,
        Rule::EmptyPolicies => true,
        Rule::NegativeSkipCerts => true,
        Rule::EmptyCrlPoints => true,
        Rule::CrlPointUri => true,
        Rule::EmptyAccess => true,
        Rule::EmptyIssuer => true,
        Rule::UnknownVersion => true,
        Rule::ExtensionsWithoutV3 => true,
        Rule::SerialNotPositive => true,
        Rule::SerialTooLong => true,
        Rule::ValidityReversed => true,
        Rule::TimeForm => true,
        Rule::TimeFraction => true,
        Rule::SignatureParameters => true,
        Rule::EmptySubjectKeyId => true,
        Rule::EmptyAuthorityKeyId => true,
        Rule::NameNotPermitted => true,
        Rule::NameExcluded => true,
        Rule::NameNotCompared => true,
        Rule::RequestVersion => true,
        Rule::ListVersion => true,
        Rule::ListEmptyIssuer => true,
        Rule::NextUpdateNotLater => true,
        Rule::IssuingPointUri => true,
        Rule::EntryTwice => true,
        Rule::AttributeVersion => true,
        Rule::EmptyHolderName => true,
        Rule::AttributeIssuerForm => true,
        Rule::NoAttributes => true,
        Rule::AttributeWithoutValues => true,
        Rule::NotStrictDer => true,
        Rule::WeakKey => true,
        _ => false,
    }
}

/// The key of an order or the part that the rule concerns, a colon, and what is wrong where the rule is broken; the standard and section in
/// parentheses, and the rule's identifier in brackets.
#[tactic(auto, unfolding(crate::specs::Texts::text))]
pub fn text(rule: Rule) -> &'static str
    ensures { result.now ≡ text rule }
{
    match rule {
        Rule::StartsBeforeIssuer =>
            "start: before the start of the issuer's certificate (RFC 5280, 6.1.3 (a)) [starts_before_issuer]",
        Rule::EndsAfterIssuer =>
            "not_after: after the end of the issuer's certificate (RFC 5280, 6.1.3 (a)) [ends_after_issuer]",
        Rule::BelowPathLength =>
            "ca: the issuer's certificate has path length 0, so it can't issue an authority's certificate (RFC 5280, 4.2.1.9) [below_path_length]",
        Rule::NoAuthorityKeyId =>
            "authority_key_id: missing, so readers find the issuer by its name alone (RFC 5280, 4.2.1.1) [no_authority_key_id]",
        Rule::EmptySubject =>
            "subject: empty; only a subject that isn't an authority and doesn't sign CRLs may have no name, with critical alternative names (RFC 5280, 4.1.2.6) [empty_subject]",
        Rule::CertSignWithoutCa =>
            "key_usages: keyCertSign is for authorities, and the subject isn't one (RFC 5280, 4.2.1.3) [cert_sign_without_ca]",
        Rule::CaWithoutCertSign =>
            "key_usages: an authority needs keyCertSign (RFC 5280, 4.2.1.3) [ca_without_cert_sign]",
        Rule::PathLengthWithoutCa =>
            "ca: a path length is for authorities, and the subject isn't one (RFC 5280, 4.2.1.9) [path_length_without_ca]",
        Rule::NameConstraintsWithoutCa =>
            "permitted, excluded: name constraints are for authorities, and the subject isn't one (RFC 5280, 4.2.1.10) [name_constraints_without_ca]",
        Rule::ExtensionTwice =>
            "extensions: the same extension twice (RFC 5280, 4.2) [extension_twice]",
        Rule::NoAltNames =>
            "alt_names: missing; clients look for a server's name only there (RFC 9525, 2) [no_alt_names]",
        Rule::OddCountry =>
            "subject: a country must be a PrintableString of two characters; in an order, C:printable=DE (RFC 5280, A.1) [odd_country]",
        Rule::OddIa5Text =>
            "subject: a domain component or e-mail address must be an IA5String; in an order, TYPE:ia5=value (RFC 5280, A.1) [odd_ia5_text]",
        Rule::OddPrintableText =>
            "subject: a serial number or qualifier must be a PrintableString; in an order, TYPE:printable=value (RFC 5280, A.1) [odd_printable_text]",
        Rule::OddText =>
            "subject: a common name, organization, locality or the like must be a UTF8String or PrintableString (a DirectoryString) (RFC 5280, A.1) [odd_text]",
        Rule::EmptyText => "subject: an attribute without a character (RFC 5280, A.1) [empty_text]",
        Rule::TextTooLong =>
            "subject: more characters than the type allows: 64 in a common name, organization, unit or title, 128 in a locality, state or pseudonym (RFC 5280, A.1) [text_too_long]",
        Rule::OldTextKind =>
            "subject: TeletexString, BMPString and UniversalString are obsolete; use UTF8String or PrintableString (RFC 5280, 4.1.2.4) [old_text_kind]",
        Rule::RsaParameters =>
            "key: the parameters of an RSA key must be NULL (RFC 3279, 2.3.1) [rsa_parameters]",
        Rule::EcParameters =>
            "key: the parameters of an elliptic curve key must be the identifier of a curve (RFC 5480, 2.1.1) [ec_parameters]",
        Rule::EdParameters =>
            "key: an Ed25519 or Ed448 key must have no parameters (RFC 8410, 3) [ed_parameters]",
        Rule::UnreadableKey =>
            "key: its octets aren't a key of its algorithm (RFC 3279, 2.3.1; RFC 5480, 2.2; RFC 8410, 4) [unreadable_key]",
        Rule::ShortRsaKey =>
            "key: an RSA modulus of fewer than 2048 bits is weak (NIST SP 800-131A, 3) [short_rsa_key]",
        Rule::RsaExponent =>
            "key: an RSA exponent and modulus must be odd and greater than 1 (RFC 8017, 3.1) [rsa_exponent]",
        Rule::RsaExponentSize =>
            "key: an RSA exponent must be greater than 2^16 and less than 2^256 (FIPS 186-5, A.1.1) [rsa_exponent_size]",
        Rule::PointOffCurve =>
            "key: not an uncompressed point of its curve; a compressed one can't be checked here (SEC 1, 3.2.2.1) [point_off_curve]",
        Rule::UnreadableExtension =>
            "extensions: the contents of an extension aren't the DER of the type that its identifier has (RFC 5280, 4.2) [unreadable_extension]",
        Rule::ExtensionNotDer =>
            "extensions: the contents of an extension aren't DER (RFC 5280, 4.2) [extension_not_der]",
        Rule::UnknownCriticalExtension =>
            "extensions: a critical extension that isn't known here; readers that don't know it reject the certificate (RFC 5280, 4.2) [unknown_critical_extension]",
        Rule::CriticalAuthorityKeyId =>
            "authority_key_id: must not be critical (RFC 5280, 4.2.1.1) [critical_authority_key_id]",
        Rule::CriticalSubjectKeyId =>
            "key_id: the subject key identifier must not be critical (RFC 5280, 4.2.1.2) [critical_subject_key_id]",
        Rule::UncriticalKeyUsage =>
            "key_usages: should be critical (RFC 5280, 4.2.1.3) [uncritical_key_usage]",
        Rule::CriticalAltNames =>
            "alt_names: should not be critical, since the subject isn't empty (RFC 5280, 4.2.1.6) [critical_alt_names]",
        Rule::CriticalIssuerAltNames =>
            "issuer's alternative names: should not be critical (RFC 5280, 4.2.1.7) [critical_issuer_alt_names]",
        Rule::CriticalDirectoryAttributes =>
            "subject directory attributes: must not be critical (RFC 5280, 4.2.1.8) [critical_directory_attributes]",
        Rule::UncriticalBasicConstraints =>
            "ca: an authority's basic constraints must be critical (RFC 5280, 4.2.1.9) [uncritical_basic_constraints]",
        Rule::UncriticalNameConstraints =>
            "permitted, excluded: name constraints must be critical (RFC 5280, 4.2.1.10) [uncritical_name_constraints]",
        Rule::UncriticalPolicyMappings =>
            "policy mappings: should be critical (RFC 5280, 4.2.1.5) [uncritical_policy_mappings]",
        Rule::UncriticalPolicyConstraints =>
            "policy constraints: must be critical (RFC 5280, 4.2.1.11) [uncritical_policy_constraints]",
        Rule::UncriticalInhibitAnyPolicy =>
            "inhibit_any_policy: must be critical (RFC 5280, 4.2.1.14) [uncritical_inhibit_any_policy]",
        Rule::CriticalCrlPoints =>
            "crl_points: should not be critical (RFC 5280, 4.2.1.13) [critical_crl_points]",
        Rule::CriticalFreshestCrl =>
            "freshest CRL: must not be critical (RFC 5280, 4.2.1.15) [critical_freshest_crl]",
        Rule::CriticalAuthorityInfoAccess =>
            "ca_issuers, ocsp: authority information access must not be critical (RFC 5280, 4.2.2.1) [critical_authority_info_access]",
        Rule::CriticalSubjectInfoAccess =>
            "subject information access: must not be critical (RFC 5280, 4.2.2.2) [critical_subject_info_access]",
        Rule::PathLengthNegative =>
            "ca: a path length below 0 (RFC 5280, 4.2.1.9) [path_length_negative]",
        Rule::PathLengthWithoutCertSign =>
            "ca: a path length is for keys with keyCertSign (RFC 5280, 4.2.1.9) [path_length_without_cert_sign]",
        Rule::EmptyKeyUsage =>
            "key_usages: the extension has no usage (RFC 5280, 4.2.1.3) [empty_key_usage]",
        Rule::UnknownKeyUsage =>
            "key_usages: only bits 0 to 8 have a meaning (RFC 5280, 4.2.1.3) [unknown_key_usage]",
        Rule::EncipherWithoutAgreement =>
            "key_usages: encipherOnly and decipherOnly have no meaning without keyAgreement (RFC 5280, 4.2.1.3) [encipher_without_agreement]",
        Rule::EncipherAndDecipherOnly =>
            "key_usages: encipherOnly and decipherOnly exclude each other (RFC 5480, 3) [encipher_and_decipher_only]",
        Rule::KeyUsageOfRsa =>
            "key_usages: keyAgreement, encipherOnly and decipherOnly aren't for RSA keys (RFC 3279, 2.3.1) [key_usage_of_rsa]",
        Rule::KeyUsageOfEc =>
            "key_usages: keyEncipherment and dataEncipherment aren't for elliptic curve keys (RFC 8813, 3) [key_usage_of_ec]",
        Rule::KeyUsageOfEd =>
            "key_usages: an Ed25519 or Ed448 key may have only digitalSignature, nonRepudiation, keyCertSign and cRLSign (RFC 9295, 3) [key_usage_of_ed]",
        Rule::EmptyPurposes =>
            "extended_key_usages: the extension has no purpose (RFC 5280, 4.2.1.12) [empty_purposes]",
        Rule::PurposeTwice =>
            "extended_key_usages: the same purpose twice (RFC 5280, 4.2.1.12) [purpose_twice]",
        Rule::AnyPurposeCritical =>
            "extended_key_usages: should not be critical with anyExtendedKeyUsage (RFC 5280, 4.2.1.12) [any_purpose_critical]",
        Rule::AnyPurpose =>
            "extended_key_usages: anyExtendedKeyUsage allows the key for every purpose (RFC 5280, 4.2.1.12) [any_purpose]",
        Rule::OcspWithoutNoCheck =>
            "extended_key_usages: OCSPSigning lets the subject answer for the issuer; an OCSP responder's certificate has the extension ocsp-nocheck (1.3.6.1.5.5.7.48.1.5) (RFC 6960, 4.2.2.2) [ocsp_without_no_check]",
        Rule::TimeStampingNotAlone =>
            "extended_key_usages: timeStamping must be the only purpose, in a critical extension (RFC 3161, 2.3) [time_stamping_not_alone]",
        Rule::PurposesWithoutUsage =>
            "extended_key_usages: none of the key usages serves one of the purposes (RFC 5280, 4.2.1.12) [purposes_without_usage]",
        Rule::EmptyAltNames =>
            "alt_names: the extension has no name (RFC 5280, 4.2.1.6) [empty_alt_names]",
        Rule::ControlCharacter =>
            "alt_names: a control character in a name (RFC 5280, 4.2.1.6) [control_character]",
        Rule::DnsEmptyLabel =>
            "alt_names: a DNS name with an empty label: it is empty, begins or ends with a dot, or has two dots in a row (RFC 5280, 4.2.1.6; RFC 1034, 3.5) [dns_empty_label]",
        Rule::DnsCharacter =>
            "alt_names: a DNS name may have only letters, digits, hyphens and dots (RFC 5280, 4.2.1.6; RFC 1034, 3.5) [dns_character]",
        Rule::DnsUnderscore =>
            "alt_names: a DNS name with an underscore isn't a host's name (RFC 5280, 4.2.1.6; RFC 1034, 3.5) [dns_underscore]",
        Rule::DnsHyphen =>
            "alt_names: a label of a DNS name begins or ends with a hyphen (RFC 5280, 4.2.1.6; RFC 1034, 3.5) [dns_hyphen]",
        Rule::DnsLongLabel =>
            "alt_names: a label of a DNS name has more than 63 octets (RFC 5280, 4.2.1.6; RFC 1034, 3.1) [dns_long_label]",
        Rule::DnsLongName =>
            "alt_names: a DNS name has more than 253 octets (RFC 5280, 4.2.1.6; RFC 1034, 3.1) [dns_long_name]",
        Rule::DnsWildcard =>
            "alt_names: an asterisk may only be the whole first label of a DNS name (RFC 9525, 6.3) [dns_wildcard]",
        Rule::DnsTopWildcard =>
            "alt_names: a wildcard for each name below a top-level domain (RFC 9525, 6.3; RFC 6125, 7.2) [dns_top_wildcard]",
        Rule::DnsAddress =>
            "alt_names: a DNS name that ends in a number; an IP address is written ip:ADDRESS (RFC 5280, 4.2.1.6; RFC 1123, 2.1) [dns_address]",
        Rule::MailboxForm =>
            "alt_names: an e-mail address must be LOCAL@HOST (RFC 5280, 4.2.1.6; RFC 5321, 4.1.2) [mailbox_form]",
        Rule::UriCharacter =>
            "alt_names: a URI must not have blanks or characters outside of ASCII (RFC 5280, 4.2.1.6; RFC 3986, 2) [uri_character]",
        Rule::UriRelative =>
            "alt_names: a URI must have a scheme, and something after it (RFC 5280, 4.2.1.6) [uri_relative]",
        Rule::UriWithoutHost =>
            "alt_names: a URI with // must have a host after it (RFC 5280, 4.2.1.6) [uri_without_host]",
        Rule::AddressLength =>
            "alt_names: an IP address must have 4 or 16 octets (RFC 5280, 4.2.1.6) [address_length]",
        Rule::PrincipalName =>
            "alt_names: a principal name, by which Windows or Kerberos logs its holder on (RFC 4556, 3.2.2) [principal_name]",
        Rule::EmptyOtherName =>
            "alt_names: another name with an empty text (RFC 5280, 4.2.1.6) [empty_other_name]",
        Rule::AltNameTwice => "alt_names: the same name twice (RFC 5280, 4.2.1.6) [alt_name_twice]",
        Rule::EmptyNameConstraints =>
            "permitted, excluded: name constraints without a subtree (RFC 5280, 4.2.1.10) [empty_name_constraints]",
        Rule::SubtreeDistance =>
            "permitted, excluded: a subtree must have minimum 0 and no maximum (RFC 5280, 4.2.1.10) [subtree_distance]",
        Rule::SubtreeAddress =>
            "permitted, excluded: a network must have 8 or 32 octets, an address and its mask (RFC 5280, 4.2.1.10) [subtree_address]",
        Rule::SubtreeMailbox =>
            "permitted, excluded: an e-mail subtree must be LOCAL@HOST, HOST or .HOST (RFC 5280, 4.2.1.10) [subtree_mailbox]",
        Rule::SubtreePeriod =>
            "permitted, excluded: a DNS subtree that begins with a period, which some readers reject (RFC 5280, 4.2.1.10) [subtree_period]",
        Rule::EmptyPolicies =>
            "policies: the extension has no policy (RFC 5280, 4.2.1.4) [empty_policies]",
        Rule::PolicyTwice => "policies: the same policy twice (RFC 5280, 4.2.1.4) [policy_twice]",
        Rule::AnyPolicyMapped =>
            "policy mappings: anyPolicy must not be mapped (RFC 5280, 4.2.1.5) [any_policy_mapped]",
        Rule::EmptyPolicyConstraints =>
            "policy constraints: neither of the two numbers (RFC 5280, 4.2.1.11) [empty_policy_constraints]",
        Rule::NegativeSkipCerts =>
            "policy constraints, inhibit_any_policy: a number of certificates below 0 (RFC 5280, 4.2.1.11, 4.2.1.14) [negative_skip_certs]",
        Rule::EmptyCrlPoints =>
            "crl_points: the extension has no distribution point (RFC 5280, 4.2.1.13) [empty_crl_points]",
        Rule::CrlPointWithoutName =>
            "crl_points: a distribution point must have a name or the issuer of its CRL (RFC 5280, 4.2.1.13) [crl_point_without_name]",
        Rule::CrlPointUri =>
            "crl_points: a URI must have a scheme, a host after //, and only characters of URIs, or readers reject the certificate (RFC 5280, 4.2.1.13) [crl_point_uri]",
        Rule::EmptyAccess =>
            "ca_issuers, ocsp: the extension has no location (RFC 5280, 4.2.2.1) [empty_access]",
        Rule::AccessUri =>
            "ca_issuers, ocsp: a URI must have a scheme, a host after //, and only characters of URIs (RFC 5280, 4.2.2.1) [access_uri]",
        Rule::EmptyIssuer => "issuer: its name is empty (RFC 5280, 4.1.2.4) [empty_issuer]",
        Rule::UnknownVersion => "version: not 1, 2 or 3 (RFC 5280, 4.1.2.1) [unknown_version]",
        Rule::ExtensionsWithoutV3 =>
            "version: a certificate with extensions must have version 3 (RFC 5280, 4.1.2.1) [extensions_without_v3]",
        Rule::UniqueIdentifiers =>
            "unique identifiers: a certificate must not have one (RFC 5280, 4.1.2.8) [unique_identifiers]",
        Rule::SerialNotPositive =>
            "serial: must be greater than 0 (RFC 5280, 4.1.2.2) [serial_not_positive]",
        Rule::SerialTooLong => "serial: more than 20 octets (RFC 5280, 4.1.2.2) [serial_too_long]",
        Rule::ValidityReversed =>
            "not_after: before the start (RFC 5280, 4.1.2.5; RFC 5755, 4.2.6) [validity_reversed]",
        Rule::TimeForm =>
            "times: a year from 1950 to 2049 must be written as UTCTime (RFC 5280, 4.1.2.5) [time_form]",
        Rule::TimeFraction =>
            "times: a fraction of a second (RFC 5280, 4.1.2.5.2; RFC 5755, 4.2.6) [time_fraction]",
        Rule::YearZero =>
            "times: the year 0, which readers reject (RFC 5280, 4.1.2.5.2) [year_zero]",
        Rule::SignatureParameters =>
            "signature: the parameters of its algorithm must be NULL for RSA, and absent for ECDSA and EdDSA (RFC 3279, 2.2.1; RFC 5758, 3.2; RFC 8410, 3) [signature_parameters]",
        Rule::CaWithoutSubjectKeyId =>
            "key_id: an authority's certificate must have a subject key identifier (RFC 5280, 4.2.1.2) [ca_without_subject_key_id]",
        Rule::EmptySubjectKeyId =>
            "key_id: a subject key identifier without octets (RFC 5280, 4.2.1.2) [empty_subject_key_id]",
        Rule::EmptyAuthorityKeyId =>
            "key_id: an authority key identifier without octets (RFC 5280, 4.2.1.1) [empty_authority_key_id]",
        Rule::AuthoritySerialAlone =>
            "authority_key_id: the issuer's name and serial number must both be there, or neither (RFC 5280, 4.2.1.1) [authority_serial_alone]",
        Rule::SerialOfIssuer =>
            "serial: the same as that of the issuer's certificate, which the same authority signed (RFC 5280, 4.1.2.2) [serial_of_issuer]",
        Rule::AuthorityKeyIdDiffers =>
            "key_id: the authority key identifier isn't the subject key identifier of the issuer's certificate (RFC 5280, 4.2.1.1) [authority_key_id_differs]",
        Rule::PathLengthBeyondIssuer =>
            "ca: the path length isn't smaller than that of the issuer's certificate, which ends paths earlier (RFC 5280, 4.2.1.9) [path_length_beyond_issuer]",
        Rule::NameNotPermitted =>
            "alt_names, subject: a name outside of the subtrees that the issuer's certificate permits (RFC 5280, 4.2.1.10) [name_not_permitted]",
        Rule::NameExcluded =>
            "alt_names, subject: a name within a subtree that the issuer's certificate excludes (RFC 5280, 4.2.1.10) [name_excluded]",
        Rule::NameNotCompared =>
            "alt_names, subject: a name that can't be compared with a subtree of the issuer's certificate, so readers reject it (RFC 5280, 4.2.1.10) [name_not_compared]",
        Rule::PurposeBeyondIssuer =>
            "extended_key_usages: a purpose that the issuer's certificate doesn't have (RFC 5280, 4.2.1.12) [purpose_beyond_issuer]",
        Rule::SubjectOfIssuer =>
            "subject: the same as the issuer's (RFC 5280, 4.1.2.6) [subject_of_issuer]",
        Rule::SelfIssuedAuthority =>
            "subject: the same as the issuer's, with another key; no path length or name constraint limits such an authority, so it must be the issuer itself (RFC 5280, 6.1, 4.2.1.9) [self_issued_authority]",
        Rule::KeyOfIssuer => "key: the same as the issuer's (RFC 5280, 4.1.2.7) [key_of_issuer]",
        Rule::KeyIdOfIssuer =>
            "key_id: the same as the issuer's, though the key is another (RFC 5280, 4.2.1.2) [key_id_of_issuer]",
        Rule::IssuerPolicies =>
            "policies: the issuer's certificate maps anyPolicy or has a policy twice, so no path through it is valid (RFC 5280, 4.2.1.4, 6.1.4 (a)) [issuer_policies]",
        Rule::IssuerPurposes =>
            "purposes: those of the issuer's certificate can't be read (RFC 5280, 4.2.1.12) [issuer_purposes]",
        Rule::RequestVersion =>
            "version: a request must have version 1 (RFC 2986, 4.1) [request_version]",
        Rule::ListVersion =>
            "version: must be 2, and must be there where a CRL has extensions (RFC 5280, 5.1, 5.1.2.1) [list_version]",
        Rule::ListEmptyIssuer =>
            "issuer: its name is empty (RFC 5280, 5.1.2.3) [list_empty_issuer]",
        Rule::NoNextUpdate => "next_update: missing (RFC 5280, 5.1.2.5) [no_next_update]",
        Rule::NextUpdateNotLater =>
            "next_update: not after this_update (RFC 5280, 5.1.2.5) [next_update_not_later]",
        Rule::UncriticalIssuingPoint =>
            "points, scope: the issuing distribution point must be critical (RFC 5280, 5.2.5) [uncritical_issuing_point]",
        Rule::ListWithoutKeyId =>
            "key_id: a CRL must have an authority key identifier (RFC 5280, 5.2.1) [list_without_key_id]",
        Rule::NoCrlNumber => "number: missing (RFC 5280, 5.2.3) [no_crl_number]",
        Rule::CrlNumberForm =>
            "number: must not be below 0 or have more than 20 octets (RFC 5280, 5.2.3) [crl_number_form]",
        Rule::CriticalCrlNumber =>
            "number: must not be critical (RFC 5280, 5.2.3) [critical_crl_number]",
        Rule::UncriticalDeltaIndicator =>
            "extensions: the delta CRL indicator must be critical (RFC 5280, 5.2.4) [uncritical_delta_indicator]",
        Rule::EmptyIssuingPoint =>
            "points, scope: an issuing distribution point without contents (RFC 5280, 5.2.5) [empty_issuing_point]",
        Rule::IssuingPointFlags =>
            "scope: at most one of users, authorities and attributes (RFC 5280, 5.2.5) [issuing_point_flags]",
        Rule::IssuingPointUri =>
            "points: a URI must have a scheme, a host after //, and only characters of URIs, or readers reject the CRL (RFC 5280, 5.2.5) [issuing_point_uri]",
        Rule::EntryTwice => "revoked: the same serial number twice (RFC 5280, 5.3) [entry_twice]",
        Rule::RevokedAfterUpdate =>
            "revoked: a certificate that is revoked after this_update (RFC 5280, 5.1.2.6) [revoked_after_update]",
        Rule::ReasonUnspecified =>
            "revoked: the reason unspecified should be left out (RFC 5280, 5.3.1) [reason_unspecified]",
        Rule::RemoveFromComplete =>
            "revoked: removeFromCRL is for delta CRLs (RFC 5280, 5.3.1) [remove_from_complete]",
        Rule::InvalidAfterRevoked =>
            "revoked: a key that became invalid after its certificate was revoked (RFC 5280, 5.3.2) [invalid_after_revoked]",
        Rule::UnknownCriticalEntry =>
            "revoked: a critical extension of an entry that isn't known here; readers that don't know it reject the CRL (RFC 5280, 5.3) [unknown_critical_entry]",
        Rule::AttributeVersion =>
            "version: an attribute certificate must have version 2 (RFC 5755, 4.2.1) [attribute_version]",
        Rule::HolderForms =>
            "holder: exactly one way to name the holder (RFC 5755, 4.2.2) [holder_forms]",
        Rule::EmptyHolderName => "holder: an empty name (RFC 5755, 4.2.2) [empty_holder_name]",
        Rule::HolderNameForm =>
            "holder: an attribute of its name isn't of the kind or length that its type has (RFC 5755, 4.2.2; RFC 5280, A.1) [holder_name_form]",
        Rule::AttributeIssuerForm =>
            "issuer: must be one directory name that isn't empty (RFC 5755, 4.2.3) [attribute_issuer_form]",
        Rule::NoAttributes => "attributes: missing (RFC 5755, 4.2.7) [no_attributes]",
        Rule::AttributeTwice =>
            "attributes: the same type twice (RFC 2986, 4.1; RFC 5755, 4.2.7) [attribute_twice]",
        Rule::AttributeWithoutValues =>
            "attributes: an attribute without values (RFC 2986, 4.1; RFC 5755, 4.2.7) [attribute_without_values]",
        Rule::UncriticalTargets =>
            "targets: must be critical (RFC 5755, 4.3.2) [uncritical_targets]",
        Rule::UncriticalAuditIdentity =>
            "audit identity: must be critical (RFC 5755, 4.3.1) [uncritical_audit_identity]",
        Rule::CriticalNoRevocation =>
            "no_revocation: must not be critical (RFC 5755, 4.3.6) [critical_no_revocation]",
        Rule::NotStrictDer =>
            "encoding: an element isn't DER (RFC 5280, 4.1; X.690, 8 to 11) [not_strict_der]",
        Rule::WeakKey =>
            "key: weak or the issuer's, as the lines above say; an order with weak_key = true takes it (RFC 5280, 8) [weak_key]",
    }
}
