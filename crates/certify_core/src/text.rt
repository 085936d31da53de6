//! What the program writes.
ghost use Rattle.std.specs.Prelude.{◌≡◌, IfOk};
ghost use Rattle.certify_core.specs.Command.{help_text};
ghost use Rattle.certify_core.specs.Lines.{hex_line, bad_profile_line, refused_line, version_text};

use crate::cause_name::CauseName;
use std::alloc::{AllocError, Global};
use toml_format::Reason;

/// The words, with a line on each, and the statuses with their numbers.
const HELP: &str = "\
certify            reads a profile, issues its certificate, and writes its hex and its listing\n\
certify issue      the same\n\
certify show       reads the hex of a certificate, and writes its listing\n\
certify request    reads a profile, and writes the hex of a request for its certificate\n\
certify accept     reads a request and who issues, issues its certificate, and writes its hex and its listing\n\
certify list       reads what a revocation list is to say and who issues it, and writes its hex\n\
certify restore    reads a certificate and its key's secret, and writes the issuer that is restored from them\n\
certify attribute  reads what an attribute certificate is to say and who issues it, and writes its hex\n\
certify authority  reads who issues and commands to it, and writes a line on what comes of each\n\
certify revoked    reads a revocation list and serial numbers, and writes of each whether the list has it, and where\n\
certify check      reads a certification path, and writes that it is valid, or where it isn't and why\n\
certify bulk N     makes a revocation list of N entries, and writes its length and its digest\n\
certify --help     writes this text\n\
certify --version  writes the name and the version\n\
\n\
It ends with the status\n\
0  where all was written\n\
1  where reading failed\n\
2  where writing failed\n\
3  where the input is longer than 1048576 bytes\n\
4  where the input is none that is asked for: `bad profile` and the number of the reason is written\n\
5  where what the input asks for can't be done: `refused` and the name of the cause is written\n\
6  where the words are none of these\n\
7  where memory was refused\n";

/// The name and the version.
const VERSION: &str = "certify 0.1.0\n";

/// The words and the statuses.
pub(crate) fn help_text(alloc: Global) -> Result<Vec<u8>, AllocError>
    ensures { IfOk result (λ text. text.items ≡ help_text) }
{
    HELP.as_bytes().to_vec(alloc)
}

/// The name and the version.
pub(crate) fn version_text(alloc: Global) -> Result<Vec<u8>, AllocError>
    ensures { IfOk result (λ text. text.items ≡ version_text) }
{
    VERSION.as_bytes().to_vec(alloc)
}

/// The bytes in hexadecimal digits, and the end of the line.
pub(crate) fn hex_line(alloc: Global, bytes: &[u8]) -> Result<Vec<u8>, AllocError>
    ensures { IfOk result (λ line. line.items ≡ hex_line bytes.now) }
{
    let mut line = hex::encode(alloc, bytes)?.into_bytes();
    line.push(b'\n')?;
    Ok(line)
}

/// The line of a reason.
pub(crate) fn bad_profile_line(alloc: Global, reason: Reason) -> Result<Vec<u8>, AllocError>
    ensures { IfOk result (λ line. line.items ≡ bad_profile_line reason) }
{
    let mut line = b"bad profile ".to_vec(alloc)?;
    line.push(b'0' + reason.number())?;
    line.push(b'\n')?;
    Ok(line)
}

/// The line of a cause.
pub(crate) fn refused_line(alloc: Global, name: &CauseName) -> Result<Vec<u8>, AllocError>
    ensures { IfOk result (λ line. line.items ≡ refused_line name.now) }
{
    let mut line = b"refused ".to_vec(alloc)?;
    line.extend_from_slice(name.as_bytes())?;
    line.push(b'\n')?;
    Ok(line)
}
