ghost use Rattle.asn1_core.specs.Written.{IsWholeSecond, IsCarried, IsWrittenOnce};

use jiff::civil::DateTime;

/// The second in which a time lies: the time without its fraction, as RFC 5280 writes times
/// (4.1.2.5).
pub fn whole_seconds(at: DateTime) -> DateTime
    ensures { IsWholeSecond at result }
{
    let mut whole = at.to_plain();
    whole.time.subsec_nanosecond = 0;
    DateTime::from_plain(whole)
}

/// A law: the written time of each year from 0 to 9999 has contents octets.
pub fn written_is_carried()
    ensures { IsCarried }
{}

/// A law: at most one value is the written time.
pub fn written_once()
    ensures { IsWrittenOnce }
{}
