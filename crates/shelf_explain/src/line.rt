//! Lines: a key, and a value in the column of values.
ghost use Rattle.std.specs.Prelude.{◌≡◌, ◌++◌, drop, take, OnOk};
ghost use Rattle.shelf_explain.specs.Lines.{below_line, key_part, labelled, line, next_line, up_to_column};

use crate::show::ShowText;
use std::alloc::{AllocError, Global};

/// As many spaces as there are columns before the column of values.
const SPACES: &[u8] = b"                                ";

/// To the column of values on the next line.
#[tactic(auto, unfolding(crate::specs::Lines::next_line))]
pub(crate) fn next_line() -> &'static [u8]
    ensures { result.now ≡ next_line }
{
    b"\n                                  "
}

/// To what belongs to a value, on the next line.
#[tactic(auto, unfolding(crate::specs::Lines::below_line))]
pub(crate) fn below_line() -> &'static [u8]
    ensures { result.now ≡ below_line }
{
    b"\n                                    "
}

/// Pushes what a value is, and the value.
#[tactic(auto, unfolding(crate::specs::Lines::labelled))]
pub(crate) fn push_labelled<T: ShowText>(
    alloc: Global,
    lines: &mut Vec<u8>,
    label: &[u8],
    value: &T,
) -> Result<(), AllocError>
    ensures { OnOk result (lines.new.items ≡ lines.old.items ++ labelled label.now (T.text value.now)) }
{
    lines.extend_from_slice(label)?;
    value.push_onto(alloc, lines)
}

/// The spaces between an indented key and that column.
#[tactic(auto, unfolding(crate::specs::Lines::up_to_column))]
fn up_to_column(indent: &[u8], key: &[u8]) -> &'static [u8]
    ensures { result.now ≡ up_to_column indent.now key.now }
{
    after(after(SPACES, indent.len()), key.len())
}

/// The first `count` octets.
pub(crate) fn first(text: &[u8], count: usize) -> &[u8]
    ensures { result.now ≡ take count text.now }
{
    if count <= text.len() {
        &text[..count]
    } else {
        text
    }
}

/// The octets after the first `count`.
pub(crate) fn after(spaces: &[u8], count: usize) -> &[u8]
    ensures { result.now ≡ drop count spaces.now }
{
    if count <= spaces.len() {
        &spaces[count..]
    } else {
        &[]
    }
}

/// Pushes a key, indented, and what comes between it and its value.
#[tactic(auto, unfolding(crate::specs::Lines::key_part))]
pub(crate) fn push_key(lines: &mut Vec<u8>, indent: &[u8], key: &[u8]) -> Result<(), AllocError>
    ensures { OnOk result (lines.new.items ≡ lines.old.items ++ key_part indent.now key.now) }
{
    lines.extend_from_slice(indent)?;
    lines.extend_from_slice(key)?;
    lines.push(b':')?;
    lines.extend_from_slice(up_to_column(indent, key))?;
    lines.push(b' ')?;
    Ok(())
}

/// Pushes a line: a key and a value.
#[tactic(auto, unfolding(crate::specs::Lines::line))]
pub(crate) fn push_line<T: ShowText>(
    alloc: Global,
    lines: &mut Vec<u8>,
    indent: &[u8],
    key: &[u8],
    value: &T,
) -> Result<(), AllocError>
    ensures { OnOk result (lines.new.items ≡ lines.old.items ++ line indent.now key.now (T.text value.now)) }
{
    push_key(lines, indent, key)?;
    value.push_onto(alloc, lines)?;
    lines.push(b'\n')?;
    Ok(())
}
