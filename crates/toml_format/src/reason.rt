//! Why an input isn't one that its command takes: seven reasons, of which the least is reported.
ghost use Rattle.std.specs.Prelude.{◌≡◌};
ghost use Rattle.toml_format.specs.Reason.{reason_number, least};

/// Why an input isn't one that its command takes. Where several hold, the one with the least number is reported.
#[derive(Clone, Copy, Debug, PartialEq, Eq)]
pub enum Reason {
    /// The input isn't UTF-8, or isn't a TOML document.
    NotToml,
    /// A key isn't one of the profile's.
    UnknownKey,
    /// One of the profile's keys isn't there.
    MissingKey,
    /// A value has another TOML type than its key asks for.
    WrongType,
    /// A value has the type that its key asks for, but isn't one that the key takes.
    WrongValue,
    /// The input, or a value in it that is to be hex, isn't hex: an even number of digits of either case.
    NotHex,
    /// The input, or a value in it that is to be hex, is hex, but not of exactly one value of the type that the command takes.
    NotOneValue,
}

impl Reason {
    /// The number that represents the reason in what the program writes.
    pub fn number(self) -> u8
        ensures { result ≡ reason_number self }
    {
        match self {
            Reason::NotToml => 1,
            Reason::UnknownKey => 2,
            Reason::MissingKey => 3,
            Reason::WrongType => 4,
            Reason::WrongValue => 5,
            Reason::NotHex => 6,
            Reason::NotOneValue => 7,
        }
    }

    /// The one with the smaller number.
    #[tactic(auto, unfolding(crate::specs::Reason::least))]
    pub fn least(self, other: Reason) -> Reason
        ensures { result ≡ least self other }
    {
        if self.number() <= other.number() {
            self
        } else {
            other
        }
    }
}
