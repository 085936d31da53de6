//! How long a certificate is valid.
use crate::halt::{Halt, refused};
use der_tree::der;
use pkix_cert::Certificate;
use std::alloc::Global;

/// How many seconds the certificate is valid.
pub(crate) fn seconds_of(alloc: Global, octets: &[u8], not_after: i64) -> Result<i64, Halt> {
    match der::value_of::<Certificate>(alloc, octets)? {
        Some(certificate) => {
            let start = certificate.tbs_certificate.validity.not_before.moment();
            Ok(not_after.saturating_sub(start.to_plain().to_second()))
        }
        None => Err(refused(alloc, "register: the certificate can't be read\n")),
    }
}
