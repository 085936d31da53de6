//! An explanation of `shelf_explain` as JSON (RFC 8259), for programs.
#![tactic(auto)]

ghost use Rattle.std.specs.Prelude.{◌≡◌, ◌++◌, ◌∷◌, [], codes, IfOk, OnOk};
ghost use Rattle.explain_json.specs.Json.{after_at, after_gap, after_name, after_new, after_start, after_title, after_value, at_title, closing, ending, escaped, gap_piece, json_from, json_of, level_at, name_piece, new_piece, next_column, opened, opening, piece_at, start_piece, title_piece, value_piece};

use std::alloc::{AllocError, Global};

/// What an octet of the text is part of.
#[derive(Clone, Copy, Debug)]
pub(crate) enum Place {
    /// The label of a block.
    Title,
    /// The spaces at the start of a line.
    Start,
    Name,
    /// The spaces between a name and its value.
    Gap,
    Value,
}

/// Where in the text an octet is.
#[derive(Clone, Copy, Debug)]
pub(crate) struct State {
    pub(crate) place: Place,
    /// The column of the octet, at most 33.
    pub(crate) column: u8,
    /// How many lines are open: that of the octet and those that it is below.
    pub(crate) depth: u8,
}

/// Pushes an octet of a text.
#[tactic(auto, unfolding(crate::specs::Json::escaped))]
fn push_escaped(alloc: Global, json: &mut Vec<u8>, octet: u8) -> Result<(), AllocError>
    ensures { OnOk result (json.new.items ≡ json.old.items ++ escaped octet) }
{
    if octet == b'"' || octet == b'\\' {
        json.push(b'\\')?;
        json.push(octet)?;
        return Ok(());
    }
    if octet < 32 {
        json.extend_from_slice(b"\\u00")?;
        json.extend_from_slice(hex::encode(alloc, [octet].as_slice())?.as_bytes())?;
        return Ok(());
    }
    json.push(octet)?;
    Ok(())
}

/// The ends of so many lines.
#[tactic(auto, unfolding(crate::specs::Json::closing))]
fn closing(count: u8) -> &'static [u8]
    ensures { result.now ≡ closing count }
{
    if count == 0 {
        b""
    } else if count == 1 {
        b"]}"
    } else if count == 2 {
        b"]}]}"
    } else {
        b"]}]}]}"
    }
}

/// How many lines a line is below, by its indent.
#[tactic(auto, unfolding(crate::specs::Json::level_at))]
fn level_at(column: u8) -> u8
    ensures { result ≡ level_at column }
{
    if column < 4 {
        0
    } else if column < 6 {
        1
    } else {
        2
    }
}

/// Pushes what comes before a line.
#[tactic(auto, unfolding(crate::specs::Json::opening))]
fn push_opening(json: &mut Vec<u8>, depth: u8, level: u8) -> Result<(), AllocError>
    ensures { OnOk result (json.new.items ≡ json.old.items ++ opening depth level) }
{
    if depth == 0 {
        return Ok(());
    }
    if depth <= level {
        return json.extend_from_slice(b"],\"below\":[");
    }
    json.extend_from_slice(closing(depth - level))?;
    json.push(b',')?;
    Ok(())
}

/// How many lines are open with a line of this indent, where so many were.
#[tactic(auto, unfolding(crate::specs::Json::opened))]
fn opened(depth: u8, column: u8) -> u8
    ensures { result ≡ opened depth column }
{
    if depth == 0 || column < 4 {
        1
    } else if depth == 1 || column < 6 {
        2
    } else {
        3
    }
}

/// The next column, of which the 34th is the last.
#[tactic(auto, unfolding(crate::specs::Json::next_column))]
fn next_column(column: u8) -> u8
    ensures { result ≡ next_column column }
{
    if column < 33 { column + 1 } else { 33 }
}

#[tactic(auto, unfolding(crate::specs::Json::title_piece))]
fn push_title(alloc: Global, json: &mut Vec<u8>, octet: u8) -> Result<(), AllocError>
    ensures { OnOk result (json.new.items ≡ json.old.items ++ title_piece octet) }
{
    if octet == b'\n' {
        json.extend_from_slice(b"\",\"lines\":[")
    } else {
        push_escaped(alloc, json, octet)
    }
}

#[tactic(auto, unfolding(crate::specs::Json::after_title))]
fn after_title(state: State, octet: u8) -> State
    ensures { result ≡ after_title state octet }
{
    if octet == b'\n' {
        State {
            place: Place::Start,
            column: 0,
            depth: 0,
        }
    } else {
        state
    }
}

/// Pushes the end of a block, or the start of a line.
#[tactic(auto, unfolding(crate::specs::Json::new_piece))]
fn push_new(alloc: Global, json: &mut Vec<u8>, state: State, octet: u8) -> Result<(), AllocError>
    ensures { OnOk result (json.new.items ≡ json.old.items ++ new_piece state octet) }
{
    if octet == b'\n' {
        json.extend_from_slice(closing(state.depth))?;
        return json.extend_from_slice(b"]},{\"label\":\"");
    }
    push_opening(json, state.depth, level_at(state.column))?;
    json.extend_from_slice(b"{\"name\":\"")?;
    push_escaped(alloc, json, octet)
}

#[tactic(auto, unfolding(crate::specs::Json::start_piece))]
fn push_start(alloc: Global, json: &mut Vec<u8>, state: State, octet: u8) -> Result<(), AllocError>
    ensures { OnOk result (json.new.items ≡ json.old.items ++ start_piece state octet) }
{
    if octet != b' ' {
        return push_new(alloc, json, state, octet);
    }
    if state.column < 33 {
        Ok(())
    } else {
        json.extend_from_slice(b",\"")
    }
}

#[tactic(auto, unfolding(crate::specs::Json::after_new))]
fn after_new(state: State, octet: u8) -> State
    ensures { result ≡ after_new state octet }
{
    if octet == b'\n' {
        State {
            place: Place::Title,
            column: 0,
            depth: 0,
        }
    } else {
        State {
            place: Place::Name,
            column: next_column(state.column),
            depth: opened(state.depth, state.column),
        }
    }
}

#[tactic(auto, unfolding(crate::specs::Json::after_start))]
fn after_start(state: State, octet: u8) -> State
    ensures { result ≡ after_start state octet }
{
    if octet != b' ' {
        return after_new(state, octet);
    }
    if state.column < 33 {
        State {
            place: Place::Start,
            column: next_column(state.column),
            depth: state.depth,
        }
    } else {
        State {
            place: Place::Value,
            column: 0,
            depth: state.depth,
        }
    }
}

#[tactic(auto, unfolding(crate::specs::Json::name_piece))]
fn push_name(alloc: Global, json: &mut Vec<u8>, octet: u8) -> Result<(), AllocError>
    ensures { OnOk result (json.new.items ≡ json.old.items ++ name_piece octet) }
{
    if octet == b':' || octet == b'\n' {
        json.extend_from_slice(b"\",\"value\":[")
    } else {
        push_escaped(alloc, json, octet)
    }
}

#[tactic(auto, unfolding(crate::specs::Json::after_name))]
fn after_name(state: State, octet: u8) -> State
    ensures { result ≡ after_name state octet }
{
    let depth = state.depth;
    if octet == b':' {
        State {
            place: Place::Gap,
            column: next_column(state.column),
            depth,
        }
    } else if octet == b'\n' {
        State {
            place: Place::Start,
            column: 0,
            depth,
        }
    } else {
        State {
            place: Place::Name,
            column: next_column(state.column),
            depth,
        }
    }
}

#[tactic(auto, unfolding(crate::specs::Json::gap_piece))]
fn push_gap(json: &mut Vec<u8>, state: State, octet: u8) -> Result<(), AllocError>
    ensures { OnOk result (json.new.items ≡ json.old.items ++ gap_piece state octet) }
{
    if octet == b'\n' {
        return Ok(());
    }
    if state.column < 33 {
        return Ok(());
    }
    json.push(b'"')?;
    Ok(())
}

#[tactic(auto, unfolding(crate::specs::Json::after_gap))]
fn after_gap(state: State, octet: u8) -> State
    ensures { result ≡ after_gap state octet }
{
    let depth = state.depth;
    if octet == b'\n' {
        State {
            place: Place::Start,
            column: 0,
            depth,
        }
    } else if state.column < 33 {
        State {
            place: Place::Gap,
            column: next_column(state.column),
            depth,
        }
    } else {
        State {
            place: Place::Value,
            column: 0,
            depth,
        }
    }
}

#[tactic(auto, unfolding(crate::specs::Json::value_piece))]
fn push_value(alloc: Global, json: &mut Vec<u8>, octet: u8) -> Result<(), AllocError>
    ensures { OnOk result (json.new.items ≡ json.old.items ++ value_piece octet) }
{
    if octet == b'\n' {
        json.push(b'"')?;
        Ok(())
    } else {
        push_escaped(alloc, json, octet)
    }
}

#[tactic(auto, unfolding(crate::specs::Json::after_value))]
fn after_value(state: State, octet: u8) -> State
    ensures { result ≡ after_value state octet }
{
    if octet == b'\n' {
        State {
            place: Place::Start,
            column: 0,
            depth: state.depth,
        }
    } else {
        state
    }
}

/// Pushes what an octet of the text is in JSON.
#[tactic(auto, unfolding(crate::specs::Json::piece_at))]
fn push_piece(alloc: Global, json: &mut Vec<u8>, state: State, octet: u8) -> Result<(), AllocError>
    ensures { OnOk result (json.new.items ≡ json.old.items ++ piece_at state.place state octet) }
{
    match state.place {
        Place::Title => push_title(alloc, json, octet),
        Place::Start => push_start(alloc, json, state, octet),
        Place::Name => push_name(alloc, json, octet),
        Place::Gap => push_gap(json, state, octet),
        Place::Value => push_value(alloc, json, octet),
    }
}

/// Where the next octet is.
#[tactic(auto, unfolding(crate::specs::Json::after_at))]
fn after_octet(state: State, octet: u8) -> State
    ensures { result ≡ after_at state.place state octet }
{
    match state.place {
        Place::Title => after_title(state, octet),
        Place::Start => after_start(state, octet),
        Place::Name => after_name(state, octet),
        Place::Gap => after_gap(state, octet),
        Place::Value => after_value(state, octet),
    }
}

/// Pushes the end of the lines, the block and the array.
#[tactic(auto, unfolding(crate::specs::Json::ending))]
fn push_ending(json: &mut Vec<u8>, state: State) -> Result<(), AllocError>
    ensures { OnOk result (json.new.items ≡ json.old.items ++ ending state) }
{
    json.extend_from_slice(closing(state.depth))?;
    json.extend_from_slice(b"]}]")
}

/// Pushes the blocks of a text.
#[tactic(auto, using(crate::proofs::JsonSteps::stepping))]
fn push_blocks(alloc: Global, json: &mut Vec<u8>, text: &[u8]) -> Result<(), AllocError>
    ensures { OnOk result (json.new.items ≡ json.old.items ++ json_from at_title text.now) }
{
    let mut state = State {
        place: Place::Title,
        column: 0,
        depth: 0,
    };
    for octet in text {
        push_piece(alloc, json, state, *octet)?;
        state = after_octet(state, *octet);
    }
    push_ending(json, state)?;
    Ok(())
}

/// The blocks of an explanation, or of several with an empty line between two, as JSON: an array with an object for each block. `label` is
/// the label, and `lines` are the lines: of each, `name`, `value` as an array with a text for each of its lines, and `below`, where lines
/// belong to it, these. In a text that begins with two spaces is what belongs to the text before.
#[tactic(auto, unfolding(crate::specs::Json::json_of))]
pub fn json_of(alloc: Global, text: &[u8]) -> Result<Vec<u8>, AllocError>
    ensures { IfOk result (λ json. json.items ≡ json_of text.now) }
{
    let mut json = Vec::new(alloc);
    json.extend_from_slice(b"[{\"label\":\"")?;
    push_blocks(alloc, &mut json, text)?;
    json.push(b'\n')?;
    Ok(json)
}
