//! A certificate under an issuer, with everything said.
use rcgen_issue::{
    BasicConstraints, Certificate, CertificateParams, DigestKey, DistinguishedName, Error, IsCa,
    Issuer, KeyUsagePurpose, SerialNumber, date_time_ymd,
};
use std::alloc::Global;

/// The certificate of a server, from a root that is made for it.
pub fn certificate(alloc: Global) -> Result<Certificate, Error> {
    let root_key = DigestKey::new(alloc, b"root")?;
    let mut root = CertificateParams::default(alloc)?;
    let root_name = "Example Root".to_string(alloc)?;
    root.distinguished_name = DistinguishedName::from_common_name(alloc, root_name)?;
    root.is_ca = IsCa::Ca(BasicConstraints::Unconstrained);
    root.key_usages = vec![in alloc; KeyUsagePurpose::KeyCertSign, KeyUsagePurpose::CrlSign]?;
    let issuer = Issuer::from_params(&root, &root_key);

    let key = DigestKey::new(alloc, b"server")?;
    let names = vec![in alloc; "www.example.org".to_string(alloc)?]?;
    let mut params = CertificateParams::new(alloc, names)?;
    let name = "www.example.org".to_string(alloc)?;
    params.distinguished_name = DistinguishedName::from_common_name(alloc, name)?;
    params.serial_number = Some(SerialNumber::from_u64(alloc, 1)?);
    params.not_before = date_time_ymd(2026, 1, 1)?;
    params.not_after = date_time_ymd(2027, 1, 1)?;
    params.signed_by(alloc, &key, &issuer)
}
