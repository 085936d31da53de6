//! Why an event may not follow.
use asn1_core::OutOfMemory;

/// Why a decision isn't an event.
#[derive(Clone, Copy, Debug)]
pub enum Refusal {
    /// The record has no issuer's certificate.
    NoIssuer,
    /// It isn't positive, or has more than 20 octets (RFC 5280, 4.1.2.2).
    NoSerialNumber,
    /// The serial number is reserved already.
    Taken,
    /// Nothing is recorded under this serial number.
    Unknown,
    /// No certificate is issued under this serial number yet.
    NotIssued,
    /// It is sealed already.
    AlreadySealed,
    /// The octets are not of the message that was reserved.
    OtherMessage,
    /// The certificate is revoked already.
    AlreadyRevoked,
    /// The certificate is on hold already.
    AlreadyOnHold,
    /// The certificate is not on hold.
    NotOnHold,
    /// The time lies ahead.
    Ahead,
    /// There is no further list number.
    Full,
    /// The last list has this number or a higher one.
    OldNumber,
    /// The list before is of this time or a later one.
    NotLater,
    /// The next update is not after this update.
    EndsBefore,
    /// No complete list is sealed yet.
    NoBase,
    /// Another list was reserved last.
    OtherList,
    /// An event came after the list was made.
    Stale,
}

/// Why there is no next list.
#[derive(Clone, Copy, Debug)]
pub enum ListError {
    Refused(Refusal),
    OutOfMemory,
}

impl From<OutOfMemory> for ListError {
    ghost use Rattle.std.specs.Prelude.{◌≡◌};
    ghost use Rattle.register_record.specs.declared.refusal.ListError.TheVariants.{OutOfMemory as NoMemory};

    ghost from_gives = { λ _ r. r ≡ NoMemory };

    fn from(_: OutOfMemory) -> ListError {
        ListError::OutOfMemory
    }
}
