//! `register new`: the issuer's certificate.
use crate::halt::{Halt, bad_input_with};
use crate::told::shown_file;
use asn1_core::OctetString;
use issuer_check::issuer_checked;
use shelf_fault::Fault;
use shelf_input::{Blocks, blocks_in};
use std::alloc::Global;

fn not_issuer(alloc: Global, name: &str) -> Halt {
    let name = shown_file(name);
    bad_input_with(format!(in alloc;
        "{name}: it isn't the certificate of an issuer alone; shelf lint says more of it\n"
    ))
}

/// The certificate of the file, which may be an issuer's.
pub(crate) fn issuer_in(alloc: Global, name: &str, file: Vec<u8>) -> Result<OctetString, Halt> {
    let mut files = Vec::new(alloc);
    files.push(file)?;
    let blocks = match blocks_in(alloc, files.as_slice()) {
        Ok(blocks) => blocks,
        Err(Fault::OutOfMemory) => return Err(Halt::OutOfMemory),
        Err(_) => return Err(not_issuer(alloc, name)),
    };
    let Blocks {
        public_key,
        request,
        certificate,
    } = blocks;
    if public_key.is_some() || request.is_some() {
        return Err(not_issuer(alloc, name));
    }
    let Some(certificate) = certificate else {
        return Err(not_issuer(alloc, name));
    };
    match issuer_checked(alloc, certificate.as_slice()) {
        Ok(()) => Ok(certificate),
        Err(Fault::OutOfMemory) => Err(Halt::OutOfMemory),
        Err(_) => Err(not_issuer(alloc, name)),
    }
}
