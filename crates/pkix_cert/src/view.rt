ghost use Rattle.std.specs.Prelude.{◌≡◌, ◌++◌, ◌↔◌, ℕ, List, Some, IsSome, IfSome, drop};
ghost use Rattle.std.specs.Option.{option_map};
ghost use Rattle.der_tree.specs.Element.{element_octets};
ghost use Rattle.der_tree.specs.Form.{IsDerOf};
ghost use Rattle.der_tree.specs.SetOf.{octets_in};
ghost use Rattle.der_tree.specs.Windows.{shown, whole_of};
ghost use Rattle.pkix_cert.specs.Certificates.{certificate};
ghost use Rattle.pkix_cert.specs.Held.{IsOfCertificate};
ghost use Rattle.pkix_cert.specs.Views.{CertificateParts, certificate_parts, content_in, extension_parts, has_tag, octets_at, parts_of, version_count};
ghost use Rattle.pkix_cert.specs.ViewsShown.{parts_shown};

use crate::certificate::Certificate;
use crate::elements::{Elements, element_in_front};
use crate::seen::Shown;
use asn1_core::Tag;
use der_tree::Window;
use std::marker::Model;

/// An extension of a certificate, as it is in the input.
#[derive(Clone, Copy, Debug)]
pub struct ExtensionView<'a> {
    pub whole: &'a [u8],
    /// The element of its identifier.
    pub id: &'a [u8],
    pub critical: bool,
    /// The contents of its OCTET STRING.
    pub contents: &'a [u8],
}

/// The octets of an element, where there is one.
fn octets<'a>(window: &Option<Window<'a>>) -> &'a [u8]
    requires { IfSome window.now (λ w. whole_of w ≡ element_octets (shown w)) }
    ensures { result.now ≡ octets_in (option_map shown window.now) }
{
    match window {
        None => &[],
        Some(window) => window.whole(),
    }
}

fn content<'a>(window: &Option<Window<'a>>) -> &'a [u8]
    ensures { result.now ≡ content_in (option_map shown window.now) }
{
    match window {
        None => &[],
        Some(window) => window.content(),
    }
}

fn has_tag(window: &Option<Window<'_>>, tag: Tag) -> bool
    ensures { result ≡ has_tag tag (option_map shown window.now) }
{
    match window {
        None => false,
        Some(window) => window.tag() == tag,
    }
}

/// The octets of the next element, which is taken.
fn next_octets<'a>(elements: &mut Elements<'a>) -> &'a [u8]
    ensures octets { result.now ≡ octets_at 0 elements.old.elements }
    ensures rest { elements.new.elements ≡ drop 1 elements.old.elements }
{
    octets(&elements.take())
}

impl<'a> ExtensionView<'a> {
    #[tactic(auto, using(crate::proofs::Viewing::lasts), unfolding(crate::specs::Views::extension_parts))]
    fn of(window: Window<'a>) -> ExtensionView<'a>
        requires { whole_of window ≡ element_octets (shown window) }
        ensures { parts_shown result ≡ extension_parts (shown window.entry) }
    {
        let mut parts = Elements::of(window.content());
        let id = parts.take();
        let second = parts.take();
        let id_octets = octets(&id);
        let critical = has_tag(&second, Tag::BOOL);
        let last = parts.last(second.or(id));
        ExtensionView {
            whole: window.whole(),
            id: id_octets,
            critical,
            contents: content(&last),
        }
    }
}

/// The extensions of a certificate, in order.
#[derive(Debug, Drop)]
pub struct ExtensionViews<'a> {
    left: Elements<'a>,
}

impl<'a> Model for ExtensionViews<'a> {
    ghost use Rattle.std.specs.Prelude.{List, map};
    ghost use Rattle.pkix_cert.specs.Views.{ExtensionParts, extension_parts};

    ghost Value = { List ExtensionParts };

    ghost view = { λ s. map extension_parts s.left.elements };
}

impl<'a> Iterator for ExtensionViews<'a> {
    ghost use Rattle.std.specs.Iterator.{YieldsFirstBy, item_count};
    ghost use Rattle.pkix_cert.specs.ViewsShown.{parts_shown};

    type Item = ExtensionView<'a>;

    ghost next_gives = { YieldsFirstBy parts_shown (λ parts. parts) };

    ghost remaining = { item_count (λ parts. parts) };

    fn next(&mut self) -> Option<ExtensionView<'a>> {
        let (window, rest) = self.left.first()?;
        self.left = rest;
        Some(ExtensionView::of(window))
    }
}

/// A certificate at the front of an input, and its parts there. It takes no memory.
#[derive(Debug, Drop)]
pub struct CertificateView<'a> {
    whole: &'a [u8],
    rest: &'a [u8],
    tbs: &'a [u8],
    serial_number: &'a [u8],
    tbs_signature: &'a [u8],
    issuer: &'a [u8],
    validity: &'a [u8],
    subject: &'a [u8],
    key_info: &'a [u8],
    signature_algorithm: &'a [u8],
    signature: &'a [u8],
    extensions: Option<Window<'a>>,
}

impl<'a> Model for CertificateView<'a> {
    ghost use Rattle.std.specs.Prelude.{map};
    ghost use Rattle.std.specs.Option.{option_map};
    ghost use Rattle.der_tree.specs.Windows.{shown};
    ghost use Rattle.pkix_cert.specs.Views.{CertificateParts, extension_parts, inside};

    ghost Value = { CertificateParts };

    ghost view = { λ s. record {
      whole = s.whole.now;
      after = s.rest.now;
      tbs = s.tbs.now;
      serial_number = s.serial_number.now;
      tbs_signature = s.tbs_signature.now;
      issuer = s.issuer.now;
      validity = s.validity.now;
      subject = s.subject.now;
      key_info = s.key_info.now;
      signature_algorithm = s.signature_algorithm.now;
      signature = s.signature.now;
      extensions = map extension_parts (inside (option_map shown s.extensions));
    } };
}

/// The elements after the version, where that is written.
fn behind_version<'a>(parts: Elements<'a>) -> Elements<'a>
    ensures { result.elements ≡ drop (version_count parts.entry.elements) parts.entry.elements }
{
    let Some((window, rest)) = parts.first() else {
        return parts;
    };
    if window.tag() == Tag::CONTEXT_0 {
        rest
    } else {
        parts
    }
}

impl<'a> CertificateView<'a> {
    #[tactic(auto, unfolding(crate::specs::Views::parts_of))]
    fn of(certificate: Window<'a>, rest: &'a [u8]) -> CertificateView<'a>
        requires { whole_of certificate ≡ element_octets (shown certificate) }
        ensures { result ≡ parts_of (shown certificate.entry) rest.now }
    {
        let mut three = Elements::of(certificate.content());
        let tbs = three.take();
        let parts = Elements::inside(&tbs);
        let third = parts.tagged(Tag::CONTEXT_3);
        let mut fields = behind_version(parts);
        CertificateView {
            whole: certificate.whole(),
            rest,
            tbs: octets(&tbs),
            serial_number: next_octets(&mut fields),
            tbs_signature: next_octets(&mut fields),
            issuer: next_octets(&mut fields),
            validity: next_octets(&mut fields),
            subject: next_octets(&mut fields),
            key_info: next_octets(&mut fields),
            signature_algorithm: next_octets(&mut three),
            signature: next_octets(&mut three),
            extensions: Elements::inside(&third).take(),
        }
    }

    #[tactic(auto, unfolding(crate::specs::Views::certificate_parts))]
    fn at(input: &'a [u8]) -> Option<CertificateView<'a>>
        ensures { result ≡ certificate_parts input.now }
    {
        let (certificate, rest) = element_in_front(input)?;
        if !Certificate::is_shown(certificate) {
            return None;
        }
        Some(CertificateView::of(certificate, rest))
    }

    /// The view of the certificate whose form is a front of the input. `None` exactly where no front
    /// is one.
    pub fn new(input: &'a [u8]) -> Option<CertificateView<'a>>
        ensures parts { result ≡ certificate_parts input.now }
        ensures exact { IsSome result ↔ ((c : Certificate) × (b rest : List ℕ) × IsDerOf certificate c b × (input.now ≡ b ++ rest)) }
    {
        CertificateView::at(input)
    }

    /// The certificate.
    pub fn whole(&self) -> &'a [u8]
        ensures { result.now ≡ self.now.whole }
    {
        self.whole
    }

    /// What follows the certificate.
    pub fn rest(&self) -> &'a [u8]
        ensures { result.now ≡ self.now.after }
    {
        self.rest
    }

    /// What is signed, header included.
    pub fn tbs(&self) -> &'a [u8]
        ensures { result.now ≡ self.now.tbs }
    {
        self.tbs
    }

    /// The element of the serial number.
    pub fn serial_number(&self) -> &'a [u8]
        ensures { result.now ≡ self.now.serial_number }
    {
        self.serial_number
    }

    /// The algorithm within what is signed.
    pub fn tbs_signature(&self) -> &'a [u8]
        ensures { result.now ≡ self.now.tbs_signature }
    {
        self.tbs_signature
    }

    /// The element of the issuer's name.
    pub fn issuer(&self) -> &'a [u8]
        ensures { result.now ≡ self.now.issuer }
    {
        self.issuer
    }

    /// The element of the validity.
    pub fn validity(&self) -> &'a [u8]
        ensures { result.now ≡ self.now.validity }
    {
        self.validity
    }

    /// The element of the subject's name.
    pub fn subject(&self) -> &'a [u8]
        ensures { result.now ≡ self.now.subject }
    {
        self.subject
    }

    /// The element of the key and its algorithm.
    pub fn key_info(&self) -> &'a [u8]
        ensures { result.now ≡ self.now.key_info }
    {
        self.key_info
    }

    /// The element of the algorithm after what is signed.
    pub fn signature_algorithm(&self) -> &'a [u8]
        ensures { result.now ≡ self.now.signature_algorithm }
    {
        self.signature_algorithm
    }

    /// The element of the signature, a BIT STRING.
    pub fn signature(&self) -> &'a [u8]
        ensures { result.now ≡ self.now.signature }
    {
        self.signature
    }

    /// The extensions in order; none where the certificate has no list of them.
    pub fn extensions(&self) -> ExtensionViews<'a>
        ensures { result ≡ self.now.extensions }
    {
        ExtensionViews {
            left: Elements::inside(&self.extensions),
        }
    }
}

/// The parts that a view has are the forms of a certificate's fields, header included, and what the
/// view is of and what follows it are the input.
pub fn parts_of_each_view()
    ensures { (input : List ℕ) (p : CertificateParts) → certificate_parts input ≡ Some p → (c : Certificate) × IsOfCertificate c p × (input ≡ p.whole ++ p.after) }
{}
