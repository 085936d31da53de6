//! What is signed is of one kind.
ghost use Rattle.std.specs.Prelude.{ℕ, List};
ghost use Rattle.der_tree.specs.Form.{IsDerOf};
ghost use Rattle.pkix_attr.specs.Certificates.{attribute_certificate_info};
ghost use Rattle.pkix_attr.specs.declared.certificate.AttributeCertificateInfo.{AttributeCertificateInfo};
ghost use Rattle.pkix_cert.specs.Certificates.{tbs_certificate};
ghost use Rattle.pkix_cert.specs.Requests.{certification_request_info};
ghost use Rattle.pkix_cert.specs.Revocations.{tbs_cert_list};
ghost use Rattle.pkix_cert.specs.declared.certificate.TbsCertificate.{TbsCertificate};
ghost use Rattle.pkix_cert.specs.declared.request.CertificationRequestInfo.{CertificationRequestInfo};
ghost use Rattle.pkix_cert.specs.declared.revocation.TbsCertList.{TbsCertList};

/// A law: no octets are the form of two of what is signed of a certificate, of a request, of a list
/// of revoked certificates, with or without a version, and of an attribute certificate (RFC 5280,
/// 4.1.2 and 5.1.2; RFC 2986, 4.1; RFC 5755, 4.1). So what was signed as one kind was never signed as
/// another.
pub fn tbs_types_disjoint()
    ensures certificate_and_request { (c : TbsCertificate) (r : CertificationRequestInfo) (b : List ℕ)
        → IsDerOf tbs_certificate c b → ¬ (IsDerOf certification_request_info r b) }
    ensures certificate_and_list { (c : TbsCertificate) (l : TbsCertList) (b : List ℕ) → IsDerOf tbs_certificate c b → ¬ (IsDerOf tbs_cert_list l b) }
    ensures certificate_and_attribute { (c : TbsCertificate) (a : AttributeCertificateInfo) (b : List ℕ)
        → IsDerOf tbs_certificate c b → ¬ (IsDerOf attribute_certificate_info a b) }
    ensures request_and_list { (r : CertificationRequestInfo) (l : TbsCertList) (b : List ℕ)
        → IsDerOf certification_request_info r b → ¬ (IsDerOf tbs_cert_list l b) }
    ensures request_and_attribute { (r : CertificationRequestInfo) (a : AttributeCertificateInfo) (b : List ℕ)
        → IsDerOf certification_request_info r b → ¬ (IsDerOf attribute_certificate_info a b) }
    ensures list_and_attribute { (l : TbsCertList) (a : AttributeCertificateInfo) (b : List ℕ)
        → IsDerOf tbs_cert_list l b → ¬ (IsDerOf attribute_certificate_info a b) }
{}
