//! Times of lists and of their entries.
ghost use Rattle.std.specs.Prelude.{◌≡◌};
ghost use Rattle.path_revocation.specs.Times.{is_earlier};

use jiff::civil::DateTime;

pub(crate) fn is_earlier(a: DateTime, b: DateTime) -> bool
    ensures { result ≡ is_earlier a b }
{
    a < b
}
