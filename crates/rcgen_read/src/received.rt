//! A certification request as it is in the input (RFC 2986, 4).
ghost use Rattle.std.specs.Prelude.{◌≡◌, Some, find, option_map};
ghost use Rattle.std.specs.Option.{option_copied};
ghost use Rattle.der_tree.specs.Windows.{Decodes, Gives, shown};
ghost use Rattle.rcgen_read.specs.ReceivedRequests.{extensions_of, front_at, has_unused_bits, is_extension_request, requested_extensions};
ghost use Rattle.rcgen_read.specs.ReceivedRequests.{received_at, received_view, signed_octets, signed_view};

use der_tree::{Any, DecodeError, DerType, SequenceOf, Window, der, read_window};
use pkix_cert::{CertificationRequest, Extension};
use pkix_name::Attribute;
use std::alloc::Global;

/// extensionRequest (RFC 2985, 5.4.2).
const EXTENSION_REQUEST: &[u32] = &[1, 2, 840, 113549, 1, 9, 14];

/// The octets of the input that a request's signature is asked about, headers included.
#[derive(Clone, Copy)]
pub(crate) struct SignedOctets<'a> {
    pub(crate) info: &'a [u8],
    pub(crate) key_info: &'a [u8],
    pub(crate) algorithm: &'a [u8],
}

/// A request, what its signature is asked about, and the extensions that it asks for.
#[derive(Drop)]
pub(crate) struct ReceivedRequest<'a> {
    pub(crate) request: CertificationRequest,
    pub(crate) signed: SignedOctets<'a>,
    pub(crate) extensions: SequenceOf<Extension>,
}

/// The octets that the signature of the request is asked about (RFC 2986, 4.2).
#[tactic(auto, unfolding(crate::specs::ReceivedRequests::signed_octets))]
fn signed_octets(request: Window<'_>) -> Option<SignedOctets<'_>>
    ensures { option_map signed_view result ≡ signed_octets (shown request.entry) }
{
    let (info, rest) = request.fields()?.first()?;
    let (algorithm, _) = rest.first()?;
    let (_version, rest) = info.fields()?.first()?;
    let (_subject, rest) = rest.first()?;
    let (key_info, _) = rest.first()?;
    Some(SignedOctets {
        info: info.whole(),
        key_info: key_info.whole(),
        algorithm: algorithm.whole(),
    })
}

/// The extensions in the values of an attribute.
fn extensions_of(alloc: Global, values: &[Any]) -> Result<SequenceOf<Extension>, DecodeError>
    ensures { Decodes result (extensions_of values.now) }
{
    match values {
        [value] => der::decode_exact(alloc, value.as_bytes()),
        _ => Err(DecodeError::NotInGrammar),
    }
}

/// The first attribute that asks for extensions.
fn first_asking(attributes: &[Attribute]) -> Option<&Attribute>
    ensures { option_copied result ≡ find is_extension_request attributes.now }
{
    for attribute in attributes {
        if attribute.attr_type.arcs() == EXTENSION_REQUEST {
            return Some(attribute);
        }
    }
    None
}

/// The extensions that the attributes of a certification request (RFC 2986, 4.1) ask for: those of the
/// first extensionRequest among them (RFC 2985, 5.4.2), and none where no attribute is one.
/// `NotInGrammar` where that attribute hasn't one value alone, or its value isn't a list of extensions.
#[tactic(auto, unfolding(crate::specs::ReceivedRequests::requested_extensions))]
pub fn requested_extensions(
    alloc: Global,
    attributes: &[Attribute],
) -> Result<SequenceOf<Extension>, DecodeError>
    ensures { Decodes result (requested_extensions attributes.now) }
{
    match first_asking(attributes) {
        Some(attribute) => extensions_of(alloc, attribute.values.as_slice()),
        None => Ok(SequenceOf::new(alloc)),
    }
}

/// Whether bits at the end of the key or of the signature are unused.
pub fn has_unused_bits(request: &CertificationRequest) -> bool
    ensures { result ≡ has_unused_bits request.now }
{
    let key = &request.info.subject_public_key_info.subject_public_key;
    key.unused() != 0 || request.signature.unused() != 0
}

/// The element at the start of the bytes. `None` exactly where they don't begin with one.
fn front_window(bytes: &[u8]) -> Option<Window<'_>>
    ensures { option_map shown result ≡ front_at bytes.now }
{
    match read_window(bytes) {
        Ok((window, _)) => Some(window),
        Err(_) => None,
    }
}

/// The request at the front of the input. `NotInGrammar` where there is none, where bits of its key
/// or of its signature are unused, and where what it asks for isn't one list of extensions.
#[tactic(auto, unfolding(crate::specs::ReceivedRequests::received_at))]
pub(crate) fn received_at<'a>(
    alloc: Global,
    der: &'a [u8],
) -> Result<ReceivedRequest<'a>, DecodeError>
    ensures { Gives received_view result (received_at der.now) }
{
    let Some(window) = front_window(der) else {
        return Err(DecodeError::NotInGrammar);
    };
    let request = CertificationRequest::from_tree(alloc, window)?;
    let Some(signed) = signed_octets(window) else {
        return Err(DecodeError::NotInGrammar);
    };
    let extensions = requested_extensions(alloc, request.info.attributes.as_slice())?;
    if has_unused_bits(&request) {
        return Err(DecodeError::NotInGrammar);
    }
    Ok(ReceivedRequest {
        request,
        signed,
        extensions,
    })
}
