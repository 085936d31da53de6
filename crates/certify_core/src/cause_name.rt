//! The name of a cause.
use std::marker::Model;

/// The name of a cause, as the line of a refusal gives it.
pub(crate) struct CauseName {
    text: &'static [u8],
}

impl Model for CauseName {
    ghost use Rattle.std.specs.Prelude.{ℕ, List};

    ghost Value = { List ℕ };

    ghost view = { λ n. n.text.now };
}

impl Drop for CauseName {
    fn drop(self) {
        let CauseName { text: _ } = self;
    }
}

impl CauseName {
    ghost use Rattle.std.specs.Prelude.{◌≡◌};

    pub(crate) fn new(text: &'static [u8]) -> CauseName
        ensures { result ≡ text.now }
    {
        CauseName { text }
    }

    pub(crate) fn as_bytes(&self) -> &[u8]
        ensures { result.now ≡ self.now }
    {
        self.text
    }
}
