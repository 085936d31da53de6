//! What is wrong, in words, with the key or the block where it is.
use crate::begun_blocks::{
    BlockPlace, block_of_number, block_with_label, label_advice, refused_block, shown_label,
};
use crate::lines::{line, push_short};
use crate::named::Named;
use crate::offences::{block_offence, file_offence};
use crate::order_faults::{has_base, kind_in, order_faults};
use crate::order_keys::OrderForm;
use crate::revoked_faults::{line_complaint, text_complaint};
use asn1_core::ObjectIdentifier;
use pem::Refusal;
use shelf_fault::{Fault, IssuerFault, KeyFault, Label, NameForm, Obstacle, Place, SignatureFault};
use shelf_profile::OrderKind;
use std::alloc::{AllocError, Global};
use std::net;
use toml_format::Reason;

/// How many octets of an identifier are shown.
const SHOWN: usize = 60;

/// What is read, for messages about it.
#[derive(Clone, Copy)]
struct Context<'a> {
    alloc: Global,
    form: OrderForm,
    order: Named<'a>,
    files: &'a [Named<'a>],
}

/// The label of a block.
fn label_text(label: Label) -> &'static str {
    match label {
        Label::PublicKey => "PUBLIC KEY",
        Label::Request => "CERTIFICATE REQUEST",
        Label::Certificate => "CERTIFICATE",
    }
}

/// The block that has a key.
fn label_of(place: Place) -> Label {
    match place {
        Place::PublicKey => Label::PublicKey,
        Place::Request => Label::Request,
        Place::Issuer => Label::Certificate,
    }
}

/// The place within its file.
fn place_text(alloc: Global, place: &BlockPlace<'_>) -> Result<String, AllocError> {
    let Some(number) = place.number else {
        return Ok(String::new(alloc));
    };
    match place.begun {
        Some(begun) => {
            let label = shown_label(alloc, begun.label)?;
            format!(in alloc; "block {number} ({label})")
        }
        None => format!(in alloc; "block {number}"),
    }
}

impl Context<'_> {
    /// A line on the order.
    fn of_order(&self, what: &str) -> Result<Vec<u8>, AllocError> {
        line(self.alloc, self.order.name, "", what)
    }

    /// A line on a key of the order.
    fn at_key(&self, key: &str, what: &str) -> Result<Vec<u8>, AllocError> {
        line(self.alloc, self.order.name, key, what)
    }

    /// A line on a block.
    fn at_place(&self, place: &BlockPlace<'_>, what: &str) -> Result<Vec<u8>, AllocError> {
        let text = place_text(self.alloc, place)?;
        line(self.alloc, place.file, text.as_str(), what)
    }

    /// A line on the block that is the nth with this label.
    fn at_nth(&self, label: Label, nth: usize, what: &str) -> Result<Vec<u8>, AllocError> {
        match block_with_label(self.files, label, nth) {
            Some(place) => self.at_place(&place, what),
            None => line(self.alloc, "", label_text(label), what),
        }
    }

    /// A line on the block with this label.
    fn at_block(&self, label: Label, what: &str) -> Result<Vec<u8>, AllocError> {
        self.at_nth(label, 1, what)
    }

    /// A line on a block that can't be read: where it isn't DER, or else this.
    fn at_unread(&self, place: &BlockPlace<'_>, what: &str) -> Result<Vec<u8>, AllocError> {
        match block_offence(self.alloc, place)? {
            Some(offence) => self.at_place(place, offence.as_str()),
            None => self.at_place(place, what),
        }
    }

    /// The same of the block with this label.
    fn at_unread_block(&self, label: Label, what: &str) -> Result<Vec<u8>, AllocError> {
        match block_with_label(self.files, label, 1) {
            Some(place) => self.at_unread(&place, what),
            None => line(self.alloc, "", label_text(label), what),
        }
    }

    /// A line on what the request asks for and isn't taken.
    fn at_take(&self, what: &str) -> Result<Vec<u8>, AllocError> {
        self.at_key("take", what)
    }

    /// What is ordered.
    fn kind(&self) -> Result<Option<OrderKind>, AllocError> {
        kind_in(self.alloc, self.order.octets)
    }
}

/// The identifier with its arcs in decimal, of a long one the front.
fn dotted(alloc: Global, id: &ObjectIdentifier) -> Result<String, AllocError> {
    let mut text = String::new(alloc);
    for arc in id.arcs() {
        if text.len() > SHOWN {
            text.push_str("..")?;
            return Ok(text);
        }
        if !text.is_empty() {
            text.push('.')?;
        }
        let digits = format!(in alloc; "{arc}")?;
        text.push_str(digits.as_str())?;
    }
    Ok(text)
}

/// id-ecPublicKey, the algorithm of keys on any curve (RFC 5480, 2.1.1).
const EC_PUBLIC_KEY: &str = "1.2.840.10045.2.1";

/// id-RSASSA-PSS (RFC 4055, 3.1).
const RSASSA_PSS: &str = "1.2.840.113549.1.1.10";

fn key_text(alloc: Global, fault: &KeyFault) -> Result<String, AllocError> {
    match fault {
        KeyFault::NotRead => String::from_str(alloc, "its public key can't be read"),
        KeyFault::Unknown(id) => {
            let id = dotted(alloc, id)?;
            let what =
                "a signing key must be RSA, ECDSA over P-256, P-384 or P-521 (as a named curve), Ed25519 or ML-DSA";
            if id.as_str() == EC_PUBLIC_KEY {
                format!(in alloc;
                    "{what}; this EC key is on another curve, or has explicit parameters"
                )
            } else if id.as_str() == RSASSA_PSS {
                format!(in alloc;
                    "{what}; this RSASSA-PSS key's parameters aren't SHA-256, -384 or -512, MGF1 with the same, and a salt as long as a digest"
                )
            } else {
                format!(in alloc; "{what}; this key's algorithm is {id}")
            }
        }
        KeyFault::OtherDigest(id) => {
            let id = dotted(alloc, id)?;
            format!(in alloc;
                "`digest` doesn't fit its key: RSA and P-521 sign with sha256, sha384 or sha512, P-256 with sha256, P-384 with sha384, Ed25519 and ML-DSA without `digest`, an RSASSA-PSS key with that of its parameters; this key's algorithm is {id}"
            )
        }
        KeyFault::OtherPadding(id) => {
            let id = dotted(alloc, id)?;
            format!(in alloc;
                "`padding` doesn't fit its key: RSA signs with pkcs1 or pss, an RSASSA-PSS key with pss, others without `padding`; this key's algorithm is {id}"
            )
        }
        KeyFault::Parameters => {
            String::from_str(
                alloc,
                "its algorithm's parameters are wrong (RSA: NULL; EC: a named curve; Ed25519, Ed448, X25519, X448, ML-DSA: none), or aren't strict DER",
            )
        }
    }
}

/// What is wrong with the key in a block.
fn key_complaint(
    context: Context<'_>,
    place: Place,
    fault: &KeyFault,
) -> Result<Vec<u8>, AllocError> {
    let what = key_text(context.alloc, fault)?;
    let label = label_of(place);
    match fault {
        KeyFault::NotRead => context.at_unread_block(label, what.as_str()),
        _ => context.at_block(label, what.as_str()),
    }
}

/// Which file an order of this kind lacks.
fn missing_text(kind: Option<OrderKind>, label: Label) -> &'static str {
    match label {
        Label::PublicKey => match kind {
            Some(OrderKind::Request) =>
                "a file with a PUBLIC KEY is required: the key that the request is for",
            _ => "a file with a CERTIFICATE REQUEST or a PUBLIC KEY is required: the subject's",
        },
        Label::Request =>
            "a file with a CERTIFICATE REQUEST is required, in place of a PUBLIC KEY: `take` copies from it",
        Label::Certificate => match kind {
            Some(OrderKind::Certificate) =>
                "a file with a CERTIFICATE is required: the issuer's, since `profile` isn't root",
            _ => "a file with a CERTIFICATE is required: the issuer's",
        },
    }
}

/// That a block isn't there.
fn missing_complaint(context: Context<'_>, label: Label) -> Result<Vec<u8>, AllocError> {
    let kind = context.kind()?;
    context.of_order(missing_text(kind, label))
}

fn issuer_text(fault: IssuerFault) -> &'static str {
    match fault {
        IssuerFault::NotRead => "not a certificate",
        IssuerFault::NoAuthority =>
            "not an authority's certificate: its basicConstraints lack cA, so it may not issue",
        IssuerFault::NoCertSign =>
            "its key usage lacks keyCertSign, so it may not issue certificates",
        IssuerFault::IsAuthority =>
            "an authority's certificate: an authority must not issue attribute certificates (RFC 5755, 4.5)",
        IssuerFault::NoDigitalSignature =>
            "its key usage lacks digitalSignature, so it may not sign attribute certificates",
        IssuerFault::NotVersion3 =>
            "its version isn't 3 (RFC 5280, 4.1.2.1): nothing that it issues is valid",
        IssuerFault::RepeatedExtension =>
            "it has an extension twice (RFC 5280, 4.2): nothing that it issues is valid",
        IssuerFault::UnknownCritical =>
            "it has an unknown critical extension (RFC 5280, 4.2): nothing that it issues is valid",
        IssuerFault::UnreadExtension =>
            "its key identifier, key usage, basic or name constraints, alternative names or policies can't be read (RFC 5280, 4.2): nothing that it issues is valid",
        IssuerFault::OtherAlgorithm =>
            "its two signature algorithms differ (RFC 5280, 4.1.1.2): nothing that it issues is valid",
        IssuerFault::NoUsage =>
            "its key usage has no bit (RFC 5280, 4.2.1.3), so its key may sign nothing",
        IssuerFault::NegativePathLength =>
            "its path length is negative (RFC 5280, 4.2.1.9), so it may not issue",
        IssuerFault::EmptySubject =>
            "its subject is empty (RFC 5280, 4.1.2.4): what it issues would name no issuer",
        IssuerFault::SubjectNotStrict => "its subject has a value that isn't strict DER",
    }
}

fn signature_text(fault: SignatureFault) -> &'static str {
    match fault {
        SignatureFault::OtherBlock =>
            "the file of --signature isn't the bytes, their base64 or one PEM block SIGNATURE",
        SignatureFault::OtherForm =>
            "wrong signature format for this key: 64 octets for Ed25519, the DER of r and s for ECDSA (not r and s side by side), as many octets as the modulus for RSA",
        SignatureFault::Wrong =>
            "not the signing key's signature over what `shelf tbs` writes, or made with another hash function or padding: P-256 signs with SHA-256, P-384 with SHA-384, RSA and P-521 with that of `digest`, RSA with `padding`, PSS with a salt as long as the digest",
    }
}

/// The keys of an order of this kind that take a text which has to be ASCII.
fn text_keys(kind: Option<OrderKind>) -> &'static str {
    match kind {
        Some(OrderKind::Certificate) =>
            "permitted, excluded, crl_points, ocsp, ca_issuers, CERTIFICATE REQUEST",
        Some(OrderKind::List) => "points",
        Some(OrderKind::Request) | Some(OrderKind::Attribute) | None => "",
    }
}

/// The keys of an order of this kind that take times.
fn time_keys(kind: Option<OrderKind>) -> &'static str {
    match kind {
        Some(OrderKind::Certificate) | Some(OrderKind::Attribute) => "start, not_after, days",
        Some(OrderKind::List) => "this_update, next_update, revoked",
        Some(OrderKind::Request) | None => "",
    }
}

/// The keys of an order of this kind, or of a question about a path, that take object identifiers.
fn identifier_keys(kind: Option<OrderKind>) -> &'static str {
    match kind {
        Some(OrderKind::Certificate) =>
            "subject, alt_names, extended_key_usages, extensions, policies",
        Some(OrderKind::Request) => "subject, alt_names, extended_key_usages, extensions",
        Some(OrderKind::Attribute) => "holder, attributes",
        Some(OrderKind::List) => "",
        None => "policies",
    }
}

/// The keys of an order of this kind that an obstacle may be of.
fn obstacle_keys(kind: Option<OrderKind>, obstacle: Obstacle) -> &'static str {
    match obstacle {
        Obstacle::NotRead => match kind {
            Some(OrderKind::Certificate) => "CERTIFICATE, CERTIFICATE REQUEST",
            _ => "CERTIFICATE",
        },
        Obstacle::NameType | Obstacle::AddressLength | Obstacle::Extension => "take",
        Obstacle::Text => text_keys(kind),
        Obstacle::Time => time_keys(kind),
        Obstacle::NextUpdate => "next_update",
        Obstacle::EmptyPoint => match kind {
            Some(OrderKind::List) => "points",
            _ => "crl_points",
        },
        Obstacle::Identifier => identifier_keys(kind),
        Obstacle::RepeatedType => match kind {
            Some(OrderKind::Attribute) => "holder.subject",
            _ => "subject",
        },
        Obstacle::NoSubtree => "permitted, excluded",
        Obstacle::RepeatedPolicy => "policies",
        Obstacle::NoAttributes | Obstacle::RepeatedAttribute | Obstacle::AttributeValues =>
            "attributes",
        Obstacle::ExtensionContent => "extensions",
        Obstacle::RequestNotRead
        | Obstacle::Algorithm
        | Obstacle::NotCrlSigner
        | Obstacle::NoPlace
        | Obstacle::Other => "",
    }
}

fn obstacle_text(obstacle: Obstacle) -> &'static str {
    match obstacle {
        Obstacle::NotRead =>
            "a name in it has several attributes in one part or an unsupported string type, or an extension can't be read",
        Obstacle::RequestNotRead => "it can't be read",
        Obstacle::NameType => "the request asks for an unsupported kind of alternative name",
        Obstacle::Text => "a text isn't ASCII, or has a character that its type lacks",
        Obstacle::AddressLength =>
            "the request asks for an IP address that has neither 4 nor 16 octets",
        Obstacle::Extension =>
            "an extension that the request asks for can't be read, so nothing can be taken from it",
        Obstacle::Algorithm => "its signature algorithm isn't supported",
        Obstacle::Time => "a time is outside the years 0 to 9999 in UTC",
        Obstacle::NoPlace => "a request can't have these extensions",
        Obstacle::NextUpdate => "must be later than this_update",
        Obstacle::NotCrlSigner => "its key usage lacks cRLSign, so it may not sign a CRL",
        Obstacle::EmptyPoint => "a distribution point has no URI",
        Obstacle::Identifier => "not a valid object identifier",
        Obstacle::RepeatedType =>
            "a type of attribute occurs twice, and only the last would remain: give it once, or use distinguished_name",
        Obstacle::NoSubtree =>
            "at least one subtree is required; omit the key to constrain no names",
        Obstacle::RepeatedPolicy => "a policy occurs twice (RFC 5280, 4.2.1.4)",
        Obstacle::NoAttributes => "at least one attribute is required",
        Obstacle::RepeatedAttribute => "two attributes have the same type",
        Obstacle::AttributeValues =>
            "the values of an attribute aren't the strict DER of a SET OF with at least one value",
        Obstacle::ExtensionContent => "a content isn't one element of strict DER, in hex",
        Obstacle::Other => "can't be issued",
    }
}

/// The obstacle, with the block or the keys that it may be of.
fn obstacle_complaint(context: Context<'_>, obstacle: Obstacle) -> Result<Vec<u8>, AllocError> {
    let what = obstacle_text(obstacle);
    match obstacle {
        Obstacle::RequestNotRead | Obstacle::Algorithm => context.at_block(Label::Request, what),
        Obstacle::NotCrlSigner => context.at_block(Label::Certificate, what),
        _ => {
            let kind = context.kind()?;
            context.at_key(obstacle_keys(kind, obstacle), what)
        }
    }
}

fn order_text(reason: Reason) -> &'static str {
    match reason {
        Reason::NotToml => "not a TOML document",
        Reason::UnknownKey => "a key is unknown",
        Reason::MissingKey => "a required key is missing",
        Reason::WrongType => "a value has another type than its key takes",
        Reason::WrongValue =>
            "a value is not one that its key takes, or two keys don't go together",
        Reason::NotHex => "a value is not hex",
        Reason::NotOneValue => "the input is not exactly one value",
    }
}

/// What is wrong with the order: all of it, by key, or where that isn't found the reason.
fn order_complaint(context: Context<'_>, reason: Reason) -> Result<Vec<u8>, AllocError> {
    if context.order.octets.trim_ascii().is_empty() {
        return context.of_order("the order is empty");
    }
    let lines = order_faults(context.alloc, context.form, context.order)?;
    if lines.are_empty() {
        context.of_order(order_text(reason))
    } else {
        Ok(lines.into_octets())
    }
}

/// The line of a block's text where the fault is, after the place of the block.
fn refused_place(alloc: Global, place: &BlockPlace<'_>, line: usize) -> Result<String, AllocError> {
    let text = place_text(alloc, place)?;
    if text.is_empty() {
        return format!(in alloc; "line {line}");
    }
    format!(in alloc; "{text}, line {line}")
}

/// What is wrong with a file's blocks, with the line of the file.
fn blocks_complaint(context: Context<'_>, refusal: &Refusal) -> Result<Vec<u8>, AllocError> {
    let alloc = context.alloc;
    let Some(mut place) = refused_block(alloc, context.files, refusal) else {
        let place = format!(in alloc; "block {}, line {}", refusal.block, refusal.line)?;
        let what = format!(in alloc; "{}", refusal.fault)?;
        return line(alloc, "", place.as_str(), what.as_str());
    };
    let mut advice = "";
    match place.begun {
        Some(begun) if begun.line < refusal.line => advice = label_advice(begun.label),
        _ => place.begun = None,
    }
    let text = refused_place(alloc, &place, refusal.line)?;
    let what = format!(in alloc; "{}{advice}", refusal.fault)?;
    line(alloc, place.file, text.as_str(), what.as_str())
}

/// The labels that are read.
fn read_labels(form: OrderForm) -> &'static str {
    match form {
        OrderForm::Issuing =>
            "an order accepts the blocks CERTIFICATE, CERTIFICATE REQUEST and PUBLIC KEY",
        OrderForm::Path => "a path accepts the blocks CERTIFICATE and X509 CRL",
    }
}

/// That the block of this number has a label that isn't read.
fn label_complaint(context: Context<'_>, number: usize) -> Result<Vec<u8>, AllocError> {
    let alloc = context.alloc;
    let Some(place) = block_of_number(context.files, number) else {
        let place = format!(in alloc; "block {number}")?;
        return line(alloc, "", place.as_str(), read_labels(context.form));
    };
    let advice = match place.begun {
        Some(begun) => label_advice(begun.label),
        None => "",
    };
    let what = format!(in alloc; "not accepted: {}{advice}", read_labels(context.form))?;
    if place.begun.is_none() {
        return context.at_unread(&place, what.as_str());
    }
    context.at_place(&place, what.as_str())
}

/// That the block of this number hasn't this label, or isn't what it says.
fn unread_complaint(
    context: Context<'_>,
    number: usize,
    label: &str,
    noun: &str,
) -> Result<Vec<u8>, AllocError> {
    let alloc = context.alloc;
    let Some(place) = block_of_number(context.files, number) else {
        let place = format!(in alloc; "block {number}")?;
        let what = format!(in alloc; "not a {label}")?;
        return line(alloc, "", place.as_str(), what.as_str());
    };
    match place.begun {
        Some(begun) if begun.label != label.as_bytes() => {
            let advice = label_advice(begun.label);
            let what = format!(in alloc; "not a {label}{advice}")?;
            context.at_place(&place, what.as_str())
        }
        _ => {
            let what = format!(in alloc; "not a valid {noun}")?;
            context.at_unread(&place, what.as_str())
        }
    }
}

/// The message about the second block with this label.
fn repeated_text(label: Label) -> &'static str {
    match label {
        Label::Certificate => "a second CERTIFICATE: give the issuer's alone, without its chain",
        Label::PublicKey => "a second PUBLIC KEY: give one",
        Label::Request => "a second CERTIFICATE REQUEST: give one",
    }
}

/// The subject key identifier, which a request of an authority asks for (RFC 5280, 4.2.1.2).
const SUBJECT_KEY_ID: &[u32] = &[2, 5, 29, 14];

/// That a request asks for what isn't known.
fn extension_complaint(context: Context<'_>, id: &ObjectIdentifier) -> Result<Vec<u8>, AllocError> {
    let alloc = context.alloc;
    if id.arcs() == SUBJECT_KEY_ID {
        return context.at_take(
            "the request asks for a subject key identifier (2.5.29.14): add \"key_id\" to take it, so that certificates that this key signed still find their issuer, or add 2.5.29.14 to ignored_extensions to leave it out",
        );
    }
    let id = dotted(alloc, id)?;
    let what = format!(in alloc;
        "the request asks for the unknown extension {id}: add it to ignored_extensions to leave it out"
    )?;
    context.at_take(what.as_str())
}

/// What the text of an alternative name begins with in an order.
fn form_text(form: NameForm) -> &'static str {
    match form {
        NameForm::Dns => "dns:",
        NameForm::Email => "email:",
        NameForm::Uri => "uri:",
        NameForm::Ip => "ip:",
        NameForm::Other => "other:",
    }
}

/// The text of an IP address.
fn address_text(alloc: Global, octets: &[u8]) -> Result<String, AllocError> {
    if let Some(octets) = octets.as_array::<4>() {
        let address = net::Ipv4Addr::from(*octets);
        return format!(in alloc; "{address}");
    }
    match octets.as_array::<16>() {
        Some(octets) => {
            let address = net::Ipv6Addr::from(*octets);
            format!(in alloc; "{address}")
        }
        None => Ok(String::new(alloc)),
    }
}

/// That a request asks for an alternative name that isn't allowed.
fn name_complaint(
    context: Context<'_>,
    form: NameForm,
    octets: &[u8],
) -> Result<Vec<u8>, AllocError> {
    let alloc = context.alloc;
    let mut name = String::from_str(alloc, form_text(form))?;
    match form {
        NameForm::Ip => {
            let address = address_text(alloc, octets)?;
            push_short(alloc, &mut name, address.as_str())?;
        }
        _ => push_short(alloc, &mut name, str::from_utf8(octets).unwrap_or(""))?,
    }
    let what = format!(in alloc;
        "the request asks for the alternative name {name}, which is in none of these subtrees"
    )?;
    context.at_key("allow", what.as_str())
}

/// That the subject of a request has a name that isn't allowed.
fn subject_complaint(context: Context<'_>, octets: &[u8]) -> Result<Vec<u8>, AllocError> {
    let alloc = context.alloc;
    if octets.is_empty() {
        return context.at_key(
            "allow",
            "the request's subject has a common name or an emailAddress that can't be compared with these subtrees: set subject instead of taking it",
        );
    }
    let mut text = String::new(alloc);
    push_short(alloc, &mut text, str::from_utf8(octets).unwrap_or(""))?;
    let what = format!(in alloc;
        "the request's subject has the common name or emailAddress {text}, which could be a mailbox or a host's name and is in none of these subtrees: set subject instead of taking it, or allow that name"
    )?;
    context.at_key("allow", what.as_str())
}

/// That the file of this number, from 1, is neither PEM nor DER.
fn no_block_complaint(context: Context<'_>, number: usize) -> Result<Vec<u8>, AllocError> {
    let what = "neither PEM nor DER of a supported type";
    match context.files.get(number.saturating_sub(1)) {
        Some(file) => match file_offence(context.alloc, file.octets)? {
            Some(offence) => line(context.alloc, file.name, "", offence.as_str()),
            None => line(context.alloc, file.name, "", what),
        },
        None => line(context.alloc, "", "", "no FILE has a PEM block"),
    }
}

/// What is wrong with a request, or with what is taken from it.
fn request_complaint(context: Context<'_>, fault: &Fault) -> Result<Vec<u8>, AllocError> {
    match fault {
        Fault::RequestNotRead => {
            context.at_unread_block(Label::Request, "not a certificate request")
        }
        Fault::RequestNotSigned => context.at_block(
            Label::Request,
            "its signature isn't valid for its own key",
        ),
        Fault::RequestUnchecked => context.at_block(
            Label::Request,
            "its signature can't be verified here (RSASSA-PSS, SHA-1, ML-DSA, another curve ..): verify it with another program, and set unchecked_request = true",
        ),
        Fault::RequestExtension(id) => extension_complaint(context, id),
        Fault::RequestAttributes => context.at_take(
            "the request asks for extensions in two attributes, or in Microsoft's 1.3.6.1.4.1.311.2.1.14: only one extensionRequest is read",
        ),
        Fault::RequestRepeats => {
            context.at_take("the request asks for an extension twice (RFC 5280, 4.2)")
        }
        Fault::RequestKeyId => context.at_take(
            "the request asks for no subject key identifier (2.5.29.14), or for one that can't be read: set key_id, or remove it from take",
        ),
        Fault::RequestNameForm => context.at_take(
            "the request asks for a malformed name: a DNS name has at most 253 octets and labels of 1 to 63 letters, digits, hyphens or underscores, no hyphen at either end, the last one not a number (*. may come first); a mailbox has a local part, @ and such a name; a URI has a scheme",
        ),
        Fault::RequestNotAllowed(form, octets) => {
            name_complaint(context, *form, octets.as_slice())
        }
        Fault::SubjectNotAllowed(text) => subject_complaint(context, text.as_slice()),
        Fault::CommonName => context.at_key(
            "copy_cn",
            "a common name of the subject isn't a host's name (an address or a URI isn't one), or there are more than 16",
        ),
        Fault::RequestName => context.at_take(
            "an alternative name of the request is empty, or has a space or a hidden or control character: verifiers would not read it as intended",
        ),
        Fault::RequestPurposes => context.at_take(
            "the request asks for no extended key usage, which would allow any: set extended_key_usages instead of taking them",
        ),
        Fault::RequestSubject => context.at_take(
            "a text of the request's subject has a hidden or control character (such as NUL, ESC or U+202E), and would be shown as another text",
        ),
        Fault::NameNotKept => context.at_take(
            "a value of the request's subject isn't a DirectoryString or an IA5String (RFC 5280, 4.1.2.4), so that its text isn't known",
        ),
        _ => context.at_take("nothing can be taken from the request"),
    }
}

/// What is wrong with the file of `--revoked`, or that there is one.
fn revoked_complaint(
    context: Context<'_>,
    revoked: Option<Named<'_>>,
    fault: &Fault,
) -> Result<Vec<u8>, AllocError> {
    let file = revoked.unwrap_or(Named {
        name: "--revoked",
        octets: &[],
    });
    match fault {
        Fault::RevokedLine(number, what) => {
            let is_delta = has_base(context.alloc, context.order.octets)?;
            line_complaint(context.alloc, file, *number, *what, is_delta)
        }
        Fault::RevokedText => text_complaint(context.alloc, file),
        _ => context.at_key(
            "kind",
            "--revoked is only for orders of CRLs (kind = \"list\")",
        ),
    }
}

/// What is wrong with an order and its files, or with files alone beside an order without a name and octets, a line for
/// each place. If the order isn't one, all its faults are reported; of the rest the first fault. The numbers of blocks
/// in a fault go over all files in their order.
pub fn complaint<'a>(
    alloc: Global,
    form: OrderForm,
    order: Named<'a>,
    revoked: Option<Named<'a>>,
    files: &'a [Named<'a>],
    fault: &Fault,
) -> Result<Vec<u8>, AllocError> {
    let context = Context {
        alloc,
        form,
        order,
        files,
    };
    match fault {
        Fault::OutOfMemory => line(alloc, "", "", "out of memory"),
        Fault::NoBlock => no_block_complaint(context, 1),
        Fault::NoBlockIn(number) => no_block_complaint(context, *number),
        Fault::NotCertificate(number) => {
            unread_complaint(context, *number, "CERTIFICATE", "certificate")
        }
        Fault::NotList(number) => unread_complaint(context, *number, "X509 CRL", "CRL"),
        Fault::Blocks(refusal) => blocks_complaint(context, refusal),
        Fault::OtherLabel(number) => label_complaint(context, *number),
        Fault::Repeated(label) => context.at_nth(*label, 2, repeated_text(*label)),
        Fault::Missing(label) => missing_complaint(context, *label),
        Fault::Unused(label) => {
            context.at_block(*label, "not used by this order: omit the file")
        }
        Fault::Order(reason) => order_complaint(context, *reason),
        Fault::RevokedUnused | Fault::RevokedText | Fault::RevokedLine(..) => {
            revoked_complaint(context, revoked, fault)
        }
        Fault::EndsFirst => context.at_key("not_after", "must not be before start"),
        Fault::Key(place, fault) => key_complaint(context, *place, fault),
        Fault::Issuer(IssuerFault::NotRead) => {
            context.at_unread_block(Label::Certificate, issuer_text(IssuerFault::NotRead))
        }
        Fault::Issuer(fault) => context.at_block(Label::Certificate, issuer_text(*fault)),
        Fault::Signature(fault) => line(alloc, "", "signature", signature_text(*fault)),
        Fault::Obstacle(obstacle) => obstacle_complaint(context, *obstacle),
        Fault::RequestNotRead
        | Fault::RequestNotSigned
        | Fault::RequestUnchecked
        | Fault::RequestExtension(_)
        | Fault::RequestAttributes
        | Fault::RequestRepeats
        | Fault::RequestKeyId
        | Fault::RequestNameForm
        | Fault::RequestNotAllowed(..)
        | Fault::SubjectNotAllowed(_)
        | Fault::CommonName
        | Fault::RequestName
        | Fault::RequestPurposes
        | Fault::RequestSubject
        | Fault::NameNotKept => request_complaint(context, fault),
    }
}
