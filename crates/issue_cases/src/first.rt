//! The first program that README.md shows: it issues a certificate for a host, and writes its DER in hex.
use rcgen_issue::{CertificateParams, DigestKey, Error};
use std::alloc::Global;
use std::io;

fn certificate(alloc: Global) -> Result<String, Error> {
    let key = DigestKey::new(alloc, b"a secret")?;
    let names = vec![in alloc; "www.example.org".to_string(alloc)?]?;
    let params = CertificateParams::new(alloc, names)?;
    let certificate = params.self_signed(alloc, &key)?;
    Ok(hex::encode(alloc, certificate.der())?)
}

pub fn main(rt: HostRuntime) -> io::Result<()> {
    match certificate(rt.alloc()) {
        Ok(text) => println!(rt; "{text}"),
        Err(error) => println!(rt; "refused: {error}"),
    }
}
