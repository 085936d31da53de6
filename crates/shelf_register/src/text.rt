//! What the subcommands say of themselves.
ghost use Rattle.std.specs.Prelude.{◌≡◌, map, string_bytes};
ghost use Rattle.shelf_register.specs.Texts.{added_help, help_with, more_help, word_help};

use crate::word::{Word, other_word};

/// The subcommands, after those of the filter.
const HELP: &str = "\
With a register, a SQLite file that keeps what an issuer reserved, issued, revoked and listed:

  shelf register new FILE ISSUER               makes the register of an issuer
  shelf register import FILE INPUT..           takes certificates, CRLs and revocations from elsewhere
  shelf register export FILE                   writes all events as JSON
  shelf register check FILE                    decodes and verifies all that it keeps
  shelf tbs ORDER [FILE..] --register FILE     draws and reserves the serial number
  shelf seal --register FILE --signature FILE  records what is signed
  shelf revoke --register FILE --serial S      records a revocation, or the end of a hold
  shelf list --register FILE --days N          writes the bytes to sign of the next CRL
  shelf find --register FILE                   writes a line for each certificate
  shelf renew --register FILE --serial S       writes the bytes to sign of a certificate like another
";

/// The arguments and options of `register`.
const REGISTER: &str = "\
shelf register new FILE ISSUER
shelf register import FILE INPUT..
shelf register export FILE [--out OUT]
shelf register check FILE

A register is a SQLite file that keeps what an issuer reserved, issued, revoked and listed. One run at a time
has it open.

  new     makes the register of the issuer whose certificate ISSUER is, PEM or DER
  import  takes certificates that the issuer signed before, PEM or DER; its last complete CRL, whose number the
          next one follows, with the revocations in it; and the revocations of an index.txt of openssl ca whose
          certificates are there
  export  writes all events, each as a line of JSON
  check   decodes and verifies all that the register keeps, and writes ok and counts
";

/// The arguments and options of `tbs` with a register.
const TBS: &str = "\
shelf tbs ORDER [FILE..] --register REGISTER [--strict] [--out FILE]

Writes the bytes to sign for the order as without a register, with the register's issuer. Their serial number is
reserved before the first byte is written, and goes to standard error. Where the order has no serial, one is drawn
at random; where it has no start, that is the clock's time less five minutes.

  --register REGISTER  the register of the issuer
";

/// The arguments and options of `seal` with a register.
const SEAL: &str = "\
shelf seal --register REGISTER --signature FILE [--serial SERIAL | --list] [--der] [--out FILE]

Verifies the signature over a message that the register keeps, records what it makes, and writes that as PEM. What is
sealed already is written again, and needs no signature.

  --register REGISTER  the register of the issuer
  --serial SERIAL      the message of this serial number; by default the only one that isn't sealed yet
  --list               the message of the last CRL
";

/// The arguments and options of `revoke`.
const REVOKE: &str = "\
shelf revoke --register REGISTER (--serial SERIAL | FILE) --reason REASON [--time TIME] [--invalidity-date TIME]

Records that a certificate is revoked. Of a certificate on hold, removeFromCRL ends the hold, and another reason
makes it final.

  --register REGISTER     the register of the issuer
  --serial SERIAL         the certificate's serial number
  --reason REASON         unspecified, keyCompromise, cACompromise, affiliationChanged, superseded,
                          cessationOfOperation, certificateHold, privilegeWithdrawn, aACompromise, removeFromCRL
  --time TIME             when, as 2026-01-31T12:00:00Z; by default the clock's time
  --invalidity-date TIME  since when the key is suspected
";

/// The arguments and options of `list`.
const LIST: &str = "\
shelf list --register REGISTER --days DAYS [--delta] [--time TIME] [--digest DIGEST]
           [--points URI [--scope SCOPE]] [--strict] [--out FILE]

Writes the bytes to sign of the next CRL: the next number, and every certificate that is revoked, up to one CRL
after its end. The number is reserved before the first byte is written, and goes to standard error.

  --register REGISTER  the register of the issuer
  --days DAYS          the next update is so many days later
  --delta              a delta CRL: what changed since the last complete CRL that is sealed
  --time TIME          this update; by default the clock's time
  --digest DIGEST      as the key of an order
  --points URI         as the key of an order
  --scope SCOPE        as the key of an order
  --strict             treats a warning as an error: nothing is written, and the status is 5
  --out FILE           writes to FILE in place of standard output, all or nothing
";

/// The arguments and options of `find`.
const FIND: &str = "\
shelf find --register REGISTER [--serial SERIAL] [--name TEXT] [--expires-within DAYS]
           [--revoked | --on-hold | --pending] [--json | --pem] [--out FILE]

Writes a line for each certificate that is asked for: serial number, end, status and subject, with tabs between them.
Where the subject is empty, the alternative names come in its place.

  --register REGISTER    the register of the issuer
  --serial SERIAL        the certificate with this serial number
  --name TEXT            its DER contains this text, as its names do; case counts
  --expires-within DAYS  it is issued, neither on hold nor revoked, and ends within so many days
  --revoked              it is revoked
  --on-hold              it is on hold
  --pending              it isn't sealed yet
  --json                 writes a line of JSON each
  --pem                  writes the certificates, as PEM
  --out FILE             writes to FILE in place of standard output, all or nothing
";

/// The arguments and options of `renew`.
const RENEW: &str = "\
shelf renew --register REGISTER (--serial SERIAL | FILE) [--days DAYS] [--out OUT]

Writes the bytes to sign of a certificate with the same subject, key, names and extensions as the one with this serial
number, or as the one in FILE, with its own serial number and times.

  --register REGISTER  the register of the issuer
  --serial SERIAL      the serial number of the certificate that is renewed
  --days DAYS          how long the new one is valid; else as long as the former one
  --out OUT            writes to OUT in place of standard output, all or nothing
";

/// Of the filter's subcommands those have more to say that take a register.
fn added_help(word: Word) -> &'static str
    ensures { result.now ≡ added_help word }
{
    match word {
        Word::Tbs => TBS,
        Word::Seal => SEAL,
        Word::New | Word::Import | Word::Export | Word::Check => "",
        Word::Revoke | Word::List | Word::Find | Word::Renew => "",
    }
}

fn help_with(word: Option<Word>) -> &'static str
    ensures { result.now ≡ help_with word }
{
    match word {
        Some(word) => added_help(word),
        None => "",
    }
}

/// What registers add to the help of the filter, where these words ask for it: the subcommands that need one, and
/// the options of the filter's own subcommands that take one.
pub fn more_help(words: &[String]) -> &'static str
    ensures { result.now ≡ more_help (map string_bytes words.now) }
{
    match words {
        [] => "",
        [first] => {
            if first.as_str() == "--help" {
                return HELP;
            }
            ""
        }
        [first, second, ..] => {
            if second.as_str() == "--help" {
                return help_with(other_word(first.as_str()));
            }
            ""
        }
    }
}

/// The arguments and options of a subcommand.
pub(crate) fn help_on(word: Word) -> &'static str
    ensures { result.now ≡ word_help word }
{
    match word {
        Word::New | Word::Import | Word::Export | Word::Check => REGISTER,
        Word::Tbs => TBS,
        Word::Seal => SEAL,
        Word::Revoke => REVOKE,
        Word::List => LIST,
        Word::Find => FIND,
        Word::Renew => RENEW,
    }
}
