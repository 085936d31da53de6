//! Texts of times.
ghost use Rattle.std.specs.Prelude.{◌≡◌, IfOk, true, string_bytes};
ghost use Rattle.register_lines.specs.Times.{IsTimeText, has_year};

use crate::time::civil_at;
use std::alloc::{AllocError, Global};

/// The date and the time of day in UTC, so many seconds after the start of 1970.
pub(crate) fn time_text(alloc: Global, seconds: i64) -> Result<String, AllocError>
    requires { has_year seconds ≡ true }
    ensures { IfOk result (λ text. IsTimeText seconds (string_bytes text)) }
{
    let at = civil_at(seconds);
    let text = format!(in alloc; "{at}Z")?;
    Ok(text)
}
