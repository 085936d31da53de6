//! Lines that are too long for a terminal.
ghost use Rattle.std.specs.Prelude.{◌≡◌, ◌++◌, OnOk, IfOk};
ghost use Rattle.shelf_explain.specs.Folding.{fold_mark, folded, goes_on, is_wide, next_column, piece};

use std::alloc::{AllocError, Global};

/// How many characters a line has at most.
const WIDTH: u8 = 98;

/// What a line begins with that continues the one before.
#[tactic(auto, unfolding(crate::specs::Folding::fold_mark))]
fn fold_mark() -> &'static [u8]
    ensures { result.now ≡ fold_mark }
{
    b"\n                                | "
}

/// Whether the octet continues a character (RFC 3629, 3).
#[tactic(auto, unfolding(crate::specs::Folding::goes_on))]
fn goes_on(octet: u8) -> bool
    ensures { result ≡ goes_on octet }
{
    128 <= octet && octet < 192
}

/// Whether a character at the column is past the width of a line.
#[tactic(auto, unfolding(crate::specs::Folding::is_wide))]
fn is_wide(column: u8, octet: u8) -> bool
    ensures { result ≡ is_wide column octet }
{
    WIDTH <= column && octet != b'\n' && !goes_on(octet)
}

/// Pushes the octet that is at the column.
#[tactic(auto, unfolding(crate::specs::Folding::piece))]
fn push_piece(lines: &mut Vec<u8>, column: u8, octet: u8) -> Result<(), AllocError>
    ensures { OnOk result (lines.new.items ≡ lines.old.items ++ piece column octet) }
{
    if is_wide(column, octet) {
        lines.extend_from_slice(fold_mark())?;
    }
    lines.push(octet)?;
    Ok(())
}

/// The column after the octet.
#[tactic(auto, unfolding(crate::specs::Folding::next_column))]
fn next_column(column: u8, octet: u8) -> u8
    ensures { result ≡ next_column column octet }
{
    if octet == b'\n' {
        0
    } else if goes_on(octet) {
        column
    } else if column < WIDTH {
        column + 1
    } else {
        35
    }
}

/// The text in lines of at most 98 characters.
#[tactic(auto, using(crate::proofs::Folds::folding), unfolding(crate::specs::Folding::folded))]
pub(crate) fn folded(alloc: Global, text: &[u8]) -> Result<Vec<u8>, AllocError>
    ensures { IfOk result (λ lines. lines.items ≡ folded text.now) }
{
    let mut lines = Vec::with_capacity(alloc, text.len())?;
    let mut column = 0;
    for octet in text {
        push_piece(&mut lines, column, *octet)?;
        column = next_column(column, *octet);
    }
    Ok(lines)
}
