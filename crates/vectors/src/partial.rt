//! Values with arbitrary octets in place of one element of any type, made of the parts of what would be their forms.
use crate::parts::{any, identifier, integer, list_of, parts_of, window_of};
use crate::reading::{Reading, written};
use asn1_core::{Integer, OctetString};
use der_tree::{Any, InstanceOf, Window, read_window};
use pkix_alg::{CharacteristicTwo, Curve, EcParameters, EcpkParameters, FieldId};
use pkix_attr::{Issuer, IssuerSerial, SecurityCategory, Target, TargetCert, V2Form};
use pkix_cert::{AlgorithmIdentifier, DistributionPointName};
use pkix_name::{AttributeTypeAndValue, GeneralName, GeneralNames};
use pkix_trust::PolicyQualifierInfo;
use std::alloc::Global;

fn attribute(alloc: Global, contents: &[u8]) -> Option<AttributeTypeAndValue> {
    let (id, rest) = read_window(contents).ok()?;
    Some(AttributeTypeAndValue {
        attr_type: identifier(alloc, id)?,
        value: any(alloc, rest)?,
    })
}

fn qualifier(alloc: Global, contents: &[u8]) -> Option<PolicyQualifierInfo> {
    let (id, rest) = read_window(contents).ok()?;
    Some(PolicyQualifierInfo {
        id: identifier(alloc, id)?,
        qualifier: any(alloc, rest)?,
    })
}

fn algorithm(alloc: Global, contents: &[u8]) -> Option<AlgorithmIdentifier> {
    let (id, rest) = read_window(contents).ok()?;
    Some(AlgorithmIdentifier {
        algorithm: identifier(alloc, id)?,
        parameters: Some(any(alloc, rest)?),
    })
}

fn field(alloc: Global, contents: &[u8]) -> Option<FieldId> {
    let (id, rest) = read_window(contents).ok()?;
    let id = identifier(alloc, id)?;
    Some(FieldId::new(id, any(alloc, rest)?))
}

fn binary_field(alloc: Global, contents: &[u8]) -> Option<CharacteristicTwo> {
    let (number, rest) = read_window(contents).ok()?;
    let (id, rest) = read_window(rest).ok()?;
    let number = integer(alloc, number)?;
    let id = identifier(alloc, id)?;
    Some(CharacteristicTwo::new(number, id, any(alloc, rest)?))
}

fn category(alloc: Global, contents: &[u8]) -> Option<SecurityCategory> {
    let (id, rest) = read_window(contents).ok()?;
    let id = identifier(alloc, id)?;
    let value = any(alloc, window_of(rest)?.content())?;
    Some(SecurityCategory::new(id, value))
}

fn instance(alloc: Global, contents: &[u8]) -> Option<InstanceOf<Any>> {
    let (id, rest) = read_window(contents).ok()?;
    let type_id = identifier(alloc, id)?;
    let value = any(alloc, window_of(rest)?.content())?;
    Some(InstanceOf { type_id, value })
}

/// What the value of the type of this name has to do with the form.
pub fn write(alloc: Global, name: &str, form: &[u8]) -> Reading {
    let Some(window) = window_of(form) else {
        return Reading::Refused;
    };
    let contents = window.content();
    if name == "AttributeTypeAndValue" {
        return written(alloc, attribute(alloc, contents), form);
    }
    if name == "PolicyQualifierInfo" {
        return written(alloc, qualifier(alloc, contents), form);
    }
    if name == "AlgorithmIdentifier" {
        return written(alloc, algorithm(alloc, contents), form);
    }
    if name == "FieldId" {
        return written(alloc, field(alloc, contents), form);
    }
    if name == "CharacteristicTwo" {
        return written(alloc, binary_field(alloc, contents), form);
    }
    if name == "SecurityCategory" {
        return written(alloc, category(alloc, contents), form);
    }
    if name == "InstanceOf" {
        return written(alloc, instance(alloc, contents), form);
    }
    write_names(alloc, name, form)
}

// A name of another kind, of the element's contents.
fn other_name(alloc: Global, window: Window<'_>) -> Option<GeneralName> {
    Some(GeneralName::OtherName(instance(alloc, window.content())?))
}

// One such name, of the element within the other.
fn other_names(alloc: Global, window: Window<'_>) -> Option<GeneralNames> {
    list_of(alloc, other_name(alloc, window.children()?.next()?)?)
}

fn point(alloc: Global, window: Window<'_>) -> Option<DistributionPointName> {
    Some(DistributionPointName::FullName(other_names(alloc, window)?))
}

fn issuer(alloc: Global, form: &[u8]) -> Option<Issuer> {
    let window = window_of(form)?;
    if window.tag().number == 16 {
        return Some(Issuer::V1(other_names(alloc, window)?));
    }
    let names = window.children()?.next()?;
    Some(Issuer::V2(V2Form {
        issuer_name: Some(other_names(alloc, names)?),
        base_certificate_id: None,
        object_digest_info: None,
    }))
}

// A target that is another's certificate, of the number 1.
fn target_certificate(alloc: Global, form: &[u8]) -> Option<TargetCert> {
    let mut parts = parts_of(form)?.next()?.children()?;
    let issuer = other_names(alloc, parts.next()?)?;
    let serial = integer(alloc, parts.next()?)?;
    Some(TargetCert {
        target_certificate: IssuerSerial {
            issuer,
            serial,
            issuer_uid: None,
        },
        target_name: None,
        cert_digest_info: None,
    })
}

fn target(alloc: Global, form: &[u8]) -> Option<Target> {
    let window = window_of(form)?;
    if window.tag().number == 2 {
        return Some(Target::Cert(target_certificate(alloc, form)?));
    }
    let name = other_name(alloc, window.children()?.next()?)?;
    if window.tag().number == 0 {
        Some(Target::Name(name))
    } else {
        Some(Target::Group(name))
    }
}

fn no_octet(alloc: Global) -> OctetString {
    OctetString::new(Vec::new(alloc))
}

// A curve over the field, without octets.
fn curve_over(alloc: Global, field: FieldId) -> Option<EcpkParameters> {
    let version = Integer::from_u64(alloc, 1).ok()?;
    let order = Integer::from_u64(alloc, 29).ok()?;
    let curve = Curve::new(no_octet(alloc), no_octet(alloc), None);
    let base = no_octet(alloc);
    Some(EcpkParameters::EcParameters(EcParameters::new(version, field, curve, base, order, None)))
}

// Over the field of the second part.
fn curve(alloc: Global, form: &[u8]) -> Option<EcpkParameters> {
    let mut parts = parts_of(form)?;
    let _version = parts.next()?;
    curve_over(alloc, field(alloc, parts.next()?.content())?)
}

// What holds a name of another kind, and a curve.
fn write_names(alloc: Global, name: &str, form: &[u8]) -> Reading {
    let Some(window) = window_of(form) else {
        return Reading::Refused;
    };
    if name == "GeneralName" {
        return written(alloc, other_name(alloc, window), form);
    }
    if name == "DistributionPointName" {
        return written(alloc, point(alloc, window), form);
    }
    if name == "Issuer" {
        return written(alloc, issuer(alloc, form), form);
    }
    if name == "Target" {
        return written(alloc, target(alloc, form), form);
    }
    if name == "EcpkParameters" {
        return written(alloc, curve(alloc, form), form);
    }
    Reading::NoType
}
