//! What the program `shelf` answers, for callers in other languages: `include/shelf.h` declares the exports.
#![tactic(auto)]

ghost use Rattle.std.specs.Prelude.{◌+◌, false, [], ◌∷◌, length};
ghost use Rattle.shelf_c.specs.Outcome.{EndsSo};
ghost use Rattle.shelf_command.specs.declared.word.Word.TheVariants.{Explain, LintOrder, Path, Seal, Tbs};
ghost use Rattle.shelf_core.specs.Outcome.{Gives, IsAnswer};

mod buffer;
mod outcome;

use crate::buffer::{of_one, of_three, of_two};
pub use outcome::Outcome;
use shelf_command::Word;
use std::alloc::Global;

/// What the signing key is to sign for an order and files, as `shelf tbs` writes it.
#[unsafe(no_mangle)]
pub extern "C" fn shelf_tbs(alloc: Global, order: &[u8], files: &[u8], buffer: &mut [u8]) -> Outcome
    ensures { EndsSo (IsAnswer (Gives Tbs false false false (order.now ∷ files.now ∷ []))) (length order.now + length files.now) buffer.old buffer.new result }
{
    of_two(alloc, Word::Tbs, order, files, buffer)
}

/// What an order, files and the signature make, as `shelf seal` writes it: PEM.
#[unsafe(no_mangle)]
pub extern "C" fn shelf_seal(
    alloc: Global,
    order: &[u8],
    files: &[u8],
    signature: &[u8],
    buffer: &mut [u8],
) -> Outcome
    ensures { EndsSo (IsAnswer (Gives Seal false false false (order.now ∷ signature.now ∷ files.now ∷ [])))
        (length order.now + length signature.now + length files.now) buffer.old buffer.new result }
{
    of_three(alloc, Word::Seal, order, signature, files, buffer)
}

/// What is wrong with an order and files, as `shelf lint --order` says it.
#[unsafe(no_mangle)]
pub extern "C" fn shelf_lint(
    alloc: Global,
    order: &[u8],
    files: &[u8],
    buffer: &mut [u8],
) -> Outcome
    ensures { EndsSo (IsAnswer (Gives LintOrder false false false (order.now ∷ files.now ∷ []))) (length order.now + length files.now) buffer.old buffer.new result }
{
    of_two(alloc, Word::LintOrder, order, files, buffer)
}

/// What files hold, for people, as `shelf explain` writes it.
#[unsafe(no_mangle)]
pub extern "C" fn shelf_explain(alloc: Global, files: &[u8], buffer: &mut [u8]) -> Outcome
    ensures { EndsSo (IsAnswer (Gives Explain false false false (files.now ∷ []))) (length files.now) buffer.old buffer.new result }
{
    of_one(alloc, Word::Explain, files, buffer)
}

/// Whether a certification path is valid, as `shelf path` writes it.
#[unsafe(no_mangle)]
pub extern "C" fn shelf_path(
    alloc: Global,
    question: &[u8],
    files: &[u8],
    buffer: &mut [u8],
) -> Outcome
    ensures { EndsSo (IsAnswer (Gives Path false false false (question.now ∷ files.now ∷ []))) (length question.now + length files.now) buffer.old buffer.new result }
{
    of_two(alloc, Word::Path, question, files, buffer)
}
