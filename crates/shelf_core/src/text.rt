//! What the program writes of itself.
ghost use Rattle.std.specs.Prelude.{◌≡◌, IfOk};
ghost use Rattle.shelf_core.specs.Texts.{help_text, version_text, word_help};

use shelf_command::Word;
use std::alloc::{AllocError, Global};

/// The subcommands and the statuses.
const HELP: &str = "\
A certificate authority whose key stays in OpenSSL or a security module.

  shelf tbs ORDER [FILE..]                    writes the bytes that the key has to sign
  shelf seal ORDER [FILE..] --signature FILE  writes the signed result, as PEM
  shelf lint [FILE..] [--order ORDER]         reports what is wrong with certificates and CRLs, or with an order
  shelf explain [FILE..]                      shows certificates, requests, CRLs and keys
  shelf path QUESTION [FILE..]                validates a certification path (RFC 5280, 6)
  shelf --version                             writes the name and the version

shelf SUBCOMMAND --help has the arguments and options of one.

An ORDER is a TOML file that says what to make. A FILE is PEM with any text around its blocks, or DER;
without one, standard input is read, whose name is -. No FILE is ever read as an order.
shelf has no key: openssl pkeyutl -sign -rawin, openssl dgst -sign or a security module signs.

Errors and warnings go to standard error. The exit status is
  0  done                                    4  an input isn't one that the subcommand accepts
  1  an input can't be read                  5  a rule is broken, the request can't be met, or the path is invalid
  2  writing failed                          6  wrong arguments
  3  an input is too long                    7  out of memory
";

/// The arguments and options of `tbs`.
const TBS: &str = "\
shelf tbs ORDER [FILE..] [--revoked FILE] [--strict] [--out FILE]

Writes the bytes that the signing key has to sign for the order, as DER: a TBSCertificate, a TBSCertList,
a CertificationRequestInfo or an AttributeCertificateInfo. shelf explain shows them.

  ORDER       a TOML file of at most 16 MiB
  FILE..      the subject's key or request, and the issuer's certificate: PEM or DER, at most 64 MiB each
              and 256 MiB in all; without one, standard input
  --revoked FILE
              more entries of a CRL, a line each, SERIAL TIME [REASON [INVALID]], written as in an order;
              - is no reason, and a line that begins with # is a comment
  --strict    treats a warning as an error: nothing is written, and the status is 5
  --out FILE  writes to FILE in place of standard output, all or nothing

Warnings go to standard error.
";

/// The arguments and options of `seal`.
const SEAL: &str = "\
shelf seal ORDER [FILE..] --signature FILE [--revoked FILE] [--der] [--strict] [--out FILE]

Takes the same ORDER and FILEs as shelf tbs, and the signature over its output. Verifies the
signature, and writes the signed result as PEM.

  --signature FILE  the signature: its bytes, base64 of them, or a PEM block SIGNATURE
  --revoked FILE    the same as for shelf tbs: entries of a CRL, a line each
  --der             writes DER
  --strict          treats a warning as an error: nothing is written, and the status is 5
  --out FILE        writes to FILE in place of standard output, all or nothing

Warnings are those of shelf tbs, and aren't repeated.
";

/// The arguments and options of `lint`.
const LINT: &str = "\
shelf lint [FILE..] [--json] [--order ORDER] [--revoked FILE] [--strict]

Writes what is wrong with certificates, requests, CRLs and attribute certificates, a line for each rule that
a block breaks, with the block's number. A FILE is PEM with any text around its blocks, or DER; without one,
standard input. The issuer's certificate is searched among the other blocks. No signature is verified. The
status is 5 where one of the lines is an error.

With --order it checks all that shelf tbs checks, and writes no output: errors and warnings go to standard error.

  --json          writes an array of JSON with an object for each finding
  --order ORDER   a TOML file of at most 16 MiB; the FILEs are those of shelf tbs
  --revoked FILE  with --order: the same as for shelf tbs, entries of a CRL, a line each
  --strict        treats a warning as an error: the status is 5
";

/// The arguments and options of `explain`.
const EXPLAIN: &str = "\
shelf explain [FILE..] [--json] [--out FILE]

Shows the content of files, for people: certificates, requests, CRLs, attribute certificates, public keys, and what
shelf tbs writes. A FILE is PEM with any text around its blocks, or DER; without one, standard input.
No signature is verified.

  --json      writes JSON: an array with an object for each block, with its label and its lines
  --out FILE  writes to FILE in place of standard output, all or nothing
";

/// The arguments and options of `path`.
const PATH: &str = "\
shelf path QUESTION [FILE..]

Validates a certification path (RFC 5280, 6.1), and writes valid N, or invalid and why, with status 5.

  QUESTION  a TOML file: at = a time, and perhaps policies, explicit_policy, inhibit_policy_mapping,
            inhibit_any_policy and revocation
  FILE..    certificates, each before its issuer's, the trust anchor's last; then, where revocation = true,
            CRLs: PEM or DER; without one, standard input
";

/// The name and the version.
const VERSION: &str = "shelf 0.1.0\n";

/// The subcommands and the statuses.
pub(crate) fn help_text(alloc: Global) -> Result<Vec<u8>, AllocError>
    ensures { IfOk result (λ text. text.items ≡ help_text) }
{
    HELP.as_bytes().to_vec(alloc)
}

/// A subcommand's arguments and options.
pub(crate) fn word_help(alloc: Global, word: Word) -> Result<Vec<u8>, AllocError>
    ensures { IfOk result (λ text. text.items ≡ word_help word) }
{
    match word {
        Word::Tbs => TBS.as_bytes().to_vec(alloc),
        Word::Seal => SEAL.as_bytes().to_vec(alloc),
        Word::Lint | Word::LintJson | Word::LintOrder => LINT.as_bytes().to_vec(alloc),
        Word::Explain | Word::ExplainJson => EXPLAIN.as_bytes().to_vec(alloc),
        Word::Path => PATH.as_bytes().to_vec(alloc),
    }
}

/// The name and the version.
pub(crate) fn version_text(alloc: Global) -> Result<Vec<u8>, AllocError>
    ensures { IfOk result (λ text. text.items ≡ version_text) }
{
    VERSION.as_bytes().to_vec(alloc)
}
