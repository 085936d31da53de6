//! Texts in the strings that take only some characters.
ghost use Rattle.std.specs.Prelude.{◌≡◌, ◌↔◌, IfOk, IsErr, Err};
ghost use Rattle.std.specs.Result.{result_ok};
ghost use Rattle.rcgen_text.specs.declared.error.Error.TheVariants.{OutOfMemory as NoMemory};
ghost use Rattle.toml_format.specs.Texts.{text_in_set, text_in_bmp};

use rcgen_text::Error;
use rcgen_text::string::{AsciiSet, AsciiString, BmpString};
use std::alloc::{AllocError, Global};

/// What was made, or `None` where the error isn't that of memory.
pub(crate) fn made<T: Drop>(answer: Result<T, Error>) -> Result<Option<T>, AllocError>
    ensures found { IfOk result (λ found. found ≡ result_ok answer) }
    ensures memory { IsErr result ↔ (answer ≡ Err NoMemory) }
{
    match answer {
        Ok(value) => Ok(Some(value)),
        Err(Error::OutOfMemory) => Err(AllocError),
        Err(_) => Ok(None),
    }
}

/// The text, where each character is in the set.
#[tactic(auto, unfolding(crate::specs::Texts::text_in_set), using(crate::proofs::MadeTexts::made_is))]
pub(crate) fn ascii_text<S: AsciiSet>(
    alloc: Global,
    text: &str,
) -> Result<Option<AsciiString<S>>, AllocError>
    ensures { IfOk result (λ found. found ≡ text_in_set S.is_character text.now) }
{
    made(AsciiString::try_from_str(alloc, text))
}

/// The text, where no character is above U+FFFE.
#[tactic(auto, unfolding(crate::specs::Texts::text_in_bmp), using(crate::proofs::MadeTexts::made_is))]
pub(crate) fn bmp_text(alloc: Global, text: &str) -> Result<Option<BmpString>, AllocError>
    ensures { IfOk result (λ found. found ≡ text_in_bmp text.now) }
{
    made(BmpString::try_from_str(alloc, text))
}
