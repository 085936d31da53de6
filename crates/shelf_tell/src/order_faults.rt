//! What is wrong with an order, a line for each place.
//!
//! It goes over the document a second time; `toml_format` reads what an order is, and that this isn't one.
use crate::guesses::{has_key, is_guessed, unknown_key};
use crate::lines::{Lines, SHOWN, push_short};
use crate::named::Named;
use crate::order_keys::{
    Key, OrderForm, attribute_keys, extension_keys, holder_keys, order_keys, path_keys,
    revoked_keys,
};
use crate::value_kind::{Single, ValueKind, misfit, type_of};
use shelf_profile::{OrderKind, is_less, is_number};
use std::alloc::{AllocError, Global};
use std::str;
use toml::{Table, Value};
use toml_format::{FromValue, HexBytes};

/// Whether a name is short, or one that orders or other programs have for a key.
fn is_word(alloc: Global, name: &str) -> Result<bool, AllocError> {
    Ok(name.len() <= SHOWN || is_guessed(alloc, name)?)
}

/// A place within another.
fn within(alloc: Global, place: &str, name: &str) -> Result<String, AllocError> {
    let mut text = String::from_str(alloc, place)?;
    if !place.is_empty() {
        text.push_str(".")?;
    }
    text.push_str(name)?;
    Ok(text)
}

/// The place of a key that isn't known, within another.
fn unknown_within(alloc: Global, place: &str, name: &str) -> Result<String, AllocError> {
    if is_word(alloc, name)? {
        return within(alloc, place, name);
    }
    let mut text = within(alloc, place, "")?;
    push_short(alloc, &mut text, name)?;
    Ok(text)
}

/// The place of a value of an array, counted from 1.
fn at(alloc: Global, place: &str, number: usize) -> Result<String, AllocError> {
    format!(in alloc; "{place}[{number}]")
}

/// Reports a value of another kind than its key takes.
fn look_at_single(
    alloc: Global,
    lines: &mut Lines,
    place: &str,
    single: Single,
    value: &Value,
) -> Result<(), AllocError> {
    if lines.are_full() || single.takes(alloc, value)? {
        return Ok(());
    }
    let what = misfit(alloc, single, value)?;
    lines.say(place, what.as_str())
}

/// Reports a value of another type.
fn say_other_type(
    alloc: Global,
    lines: &mut Lines,
    place: &str,
    value: &Value,
    wanted: &str,
) -> Result<(), AllocError> {
    let what = format!(in alloc; "{wanted} is required, not {}", type_of(value))?;
    lines.say(place, what.as_str())
}

/// Reports the values of an array that aren't what the key takes.
fn look_at_array(
    alloc: Global,
    lines: &mut Lines,
    place: &str,
    single: Single,
    value: &Value,
) -> Result<(), AllocError> {
    let Some(values) = value.as_array() else {
        return say_other_type(alloc, lines, place, value, "an array [..]");
    };
    let mut number = 0usize;
    for value in values {
        number = number.saturating_add(1);
        let here = at(alloc, place, number)?;
        look_at_single(alloc, lines, here.as_str(), single, value)?;
    }
    Ok(())
}

/// Reports on the arrays of an array.
fn look_at_arrays(
    alloc: Global,
    lines: &mut Lines,
    place: &str,
    single: Single,
    value: &Value,
) -> Result<(), AllocError> {
    let Some(values) = value.as_array() else {
        return say_other_type(alloc, lines, place, value, "an array of arrays [[..]]");
    };
    let mut number = 0usize;
    for value in values {
        number = number.saturating_add(1);
        let here = at(alloc, place, number)?;
        look_at_array(alloc, lines, here.as_str(), single, value)?;
    }
    Ok(())
}

/// Reports the keys of a table that are missing.
fn look_for_required(
    alloc: Global,
    lines: &mut Lines,
    place: &str,
    keys: &[Key],
    table: &Table,
) -> Result<(), AllocError> {
    for key in keys {
        if key.is_required && table.get(key.name).is_none() {
            let here = within(alloc, place, key.name)?;
            lines.say(here.as_str(), "required")?;
        }
    }
    Ok(())
}

/// The message about an unknown key.
fn unknown_text(alloc: Global, name: &str, keys: &[Key]) -> Result<String, AllocError> {
    if name == "signature" && has_key(keys, "kind") {
        return String::from_str(alloc, "not a key of an order: use --signature FILE");
    }
    unknown_key(alloc, name, keys)
}

/// Adds the names of keys.
fn push_names(text: &mut String, keys: &[Key]) -> Result<(), AllocError> {
    let mut is_first = true;
    for key in keys {
        if !is_first {
            text.push_str(", ")?;
        }
        text.push_str(key.name)?;
        is_first = false;
    }
    Ok(())
}

/// Reports the keys in a table that it can't have, and after them the keys that it can have.
fn look_for_unknown(
    alloc: Global,
    lines: &mut Lines,
    place: &str,
    keys: &[Key],
    owner: &str,
    table: &Table,
) -> Result<(), AllocError> {
    let mut are_known = true;
    for entry in table.iter() {
        let name = entry.0.as_str();
        if !has_key(keys, name) && !lines.are_full() {
            let here = unknown_within(alloc, place, name)?;
            let what = unknown_text(alloc, name, keys)?;
            lines.say(here.as_str(), what.as_str())?;
            are_known = false;
        }
    }
    if are_known {
        return Ok(());
    }
    let mut what = format!(in alloc; "the keys of {owner} are ")?;
    push_names(&mut what, keys)?;
    lines.say(place, what.as_str())
}

/// Reports on a value of a table whose keys take single values and arrays of them.
fn look_at_plain_key(
    alloc: Global,
    lines: &mut Lines,
    place: &str,
    key: &Key,
    value: &Value,
) -> Result<(), AllocError> {
    let here = within(alloc, place, key.name)?;
    match key.kind {
        ValueKind::One(single) => look_at_single(alloc, lines, here.as_str(), single, value),
        ValueKind::Many(single) => look_at_array(alloc, lines, here.as_str(), single, value),
        _ => Ok(()),
    }
}

/// Reports on a table whose keys take single values and arrays of them.
fn look_at_plain_table(
    alloc: Global,
    lines: &mut Lines,
    place: &str,
    keys: &[Key],
    owner: &str,
    value: &Value,
) -> Result<(), AllocError> {
    let Some(table) = value.as_table() else {
        return say_other_type(alloc, lines, place, value, "a table {..}");
    };
    look_for_required(alloc, lines, place, keys, table)?;
    look_for_unknown(alloc, lines, place, keys, owner, table)?;
    for key in keys {
        if let Some(value) = table.get(key.name) {
            look_at_plain_key(alloc, lines, place, key, value)?;
        }
    }
    Ok(())
}

/// Reports on the table of who holds attributes.
fn look_at_holder(
    alloc: Global,
    lines: &mut Lines,
    place: &str,
    value: &Value,
) -> Result<(), AllocError> {
    let keys = holder_keys(alloc)?;
    look_at_plain_table(alloc, lines, place, &keys, "a holder", value)?;
    match value.as_table() {
        Some(table) => {
            let here = within(alloc, place, "subject")?;
            look_at_one_name(lines, here.as_str(), table)
        }
        None => Ok(()),
    }
}

/// Reports on the tables of an array.
fn look_at_tables(
    alloc: Global,
    lines: &mut Lines,
    place: &str,
    keys: &[Key],
    owner: &str,
    value: &Value,
) -> Result<(), AllocError> {
    let Some(values) = value.as_array() else {
        return say_other_type(alloc, lines, place, value, "an array of tables [{..}]");
    };
    let mut number = 0usize;
    for value in values {
        number = number.saturating_add(1);
        let here = at(alloc, place, number)?;
        look_at_plain_table(alloc, lines, here.as_str(), keys, owner, value)?;
    }
    Ok(())
}

/// Reports on what a key has.
fn look_at_key(
    alloc: Global,
    lines: &mut Lines,
    key: &Key,
    value: &Value,
) -> Result<(), AllocError> {
    let name = key.name;
    match key.kind {
        ValueKind::One(single) => look_at_single(alloc, lines, name, single, value),
        ValueKind::Many(single) => look_at_array(alloc, lines, name, single, value),
        ValueKind::Lists(single) => look_at_arrays(alloc, lines, name, single, value),
        ValueKind::Extensions => {
            let keys = extension_keys(alloc)?;
            look_at_tables(alloc, lines, name, &keys, "an extension", value)
        }
        ValueKind::Holder => look_at_holder(alloc, lines, name, value),
        ValueKind::Attributes => {
            let keys = attribute_keys(alloc)?;
            look_at_tables(alloc, lines, name, &keys, "an attribute", value)
        }
        ValueKind::Revoked(reason) => {
            let keys = revoked_keys(alloc, reason)?;
            look_at_tables(alloc, lines, name, &keys, "a revoked certificate", value)
        }
    }
}

fn has(table: &Table, key: &str) -> bool {
    table.get(key).is_some()
}

/// Reports two names, of which one may be there.
fn look_at_two_names(lines: &mut Lines, place: &str, table: &Table) -> Result<(), AllocError> {
    if has(table, "common_name") && has(table, "subject") {
        lines.say(place, "give either `common_name` or `subject`, not both")?;
    }
    Ok(())
}

/// Reports no name, and two.
fn look_at_one_name(lines: &mut Lines, place: &str, table: &Table) -> Result<(), AllocError> {
    if !has(table, "common_name") && !has(table, "subject") {
        lines.say(place, "required, or `common_name`")?;
    }
    look_at_two_names(lines, place, table)
}

/// Reports no end, and two.
fn look_at_end(lines: &mut Lines, table: &Table) -> Result<(), AllocError> {
    if has(table, "days") == has(table, "not_after") {
        lines.say("not_after", "give either `days` or `not_after`")?;
    }
    Ok(())
}

/// Whether a part is taken from the request.
fn takes(table: &Table, part: &str) -> bool {
    match table.get("take").and_then(|value| value.as_array()) {
        Some(parts) => parts.iter().any(|value| value.as_str() == Some(part)),
        None => false,
    }
}

/// Reports parts of a name beside another name, and an empty array of them.
fn look_at_parts(lines: &mut Lines, table: &Table) -> Result<(), AllocError> {
    let Some(value) = table.get("distinguished_name") else {
        return Ok(());
    };
    for name in &["common_name", "subject"] {
        if has(table, name) {
            lines.say(name, "not allowed beside `distinguished_name`")?;
        }
    }
    match value.as_array() {
        Some(parts) if parts.is_empty() => lines.say(
            "distinguished_name",
            "at least one part is required; an empty name is subject = []",
        ),
        _ => Ok(()),
    }
}

/// Whether one of the keys for the subject's name is there.
fn has_name(table: &Table) -> bool {
    has(table, "common_name") || has(table, "subject") || has(table, "distinguished_name")
}

/// Reports what is given though it is taken from the request.
fn look_at_taken(lines: &mut Lines, table: &Table) -> Result<(), AllocError> {
    let what = "not allowed, since `take` copies it from the request";
    if takes(table, "subject") {
        for name in &["common_name", "subject", "distinguished_name"] {
            if has(table, name) {
                lines.say(name, what)?;
            }
        }
    } else if !has_name(table) {
        lines.say(
            "subject",
            "required, or `common_name`, or `distinguished_name`, or \"subject\" in `take`",
        )?;
    }
    for name in &["alt_names", "extended_key_usages"] {
        if takes(table, name) && has(table, name) {
            lines.say(name, what)?;
        }
    }
    Ok(())
}

/// Reports no name of a request's subject.
fn look_for_name(lines: &mut Lines, table: &Table) -> Result<(), AllocError> {
    if !has_name(table) {
        lines.say(
            "subject",
            "required, or `common_name`, or `distinguished_name`",
        )?;
    }
    Ok(())
}

/// The octets of a number of a revocation list at a key, where they are there.
fn list_number(alloc: Global, table: &Table, key: &str) -> Result<Option<HexBytes>, AllocError> {
    let Some(value) = table.get(key) else {
        return Ok(None);
    };
    match HexBytes::from_value(alloc, value)? {
        Ok(octets) if is_number(octets.as_slice()) => Ok(Some(octets)),
        _ => Ok(None),
    }
}

/// Reports a base that isn't the number of an earlier list.
fn look_at_base(alloc: Global, lines: &mut Lines, table: &Table) -> Result<(), AllocError> {
    let Some(base) = list_number(alloc, table, "base")? else {
        return Ok(());
    };
    match list_number(alloc, table, "number")? {
        Some(number) if !is_less(base.as_slice(), number.as_slice()) => lines.say(
            "base",
            "must be less than `number`: a delta CRL is based on an earlier CRL (RFC 5280, 5.2.4)",
        ),
        _ => Ok(()),
    }
}

/// Reports keys that don't go together.
fn look_at_order(
    alloc: Global,
    lines: &mut Lines,
    kind: OrderKind,
    table: &Table,
) -> Result<(), AllocError> {
    match kind {
        OrderKind::Certificate => {
            look_at_two_names(lines, "subject", table)?;
            look_at_parts(lines, table)?;
            look_at_end(lines, table)?;
            look_at_taken(lines, table)
        }
        OrderKind::Request => {
            look_at_two_names(lines, "subject", table)?;
            look_at_parts(lines, table)?;
            look_for_name(lines, table)
        }
        OrderKind::Attribute => look_at_end(lines, table),
        OrderKind::List => {
            if has(table, "scope") && !has(table, "points") {
                lines.say("scope", "allowed only with `points`")?;
            }
            look_at_base(alloc, lines, table)
        }
    }
}

/// Reports on the keys of a table, and on what they have.
fn look_at_keys(
    alloc: Global,
    lines: &mut Lines,
    keys: &[Key],
    owner: &str,
    table: &Table,
) -> Result<(), AllocError> {
    look_for_required(alloc, lines, "", keys, table)?;
    look_for_unknown(alloc, lines, "", keys, owner, table)?;
    for key in keys {
        if let Some(value) = table.get(key.name) {
            look_at_key(alloc, lines, key, value)?;
        }
    }
    Ok(())
}

/// What has the keys of an order of this kind.
fn owner_of(kind: OrderKind) -> &'static str {
    match kind {
        OrderKind::Certificate => "an order of kind certificate",
        OrderKind::Request => "an order of kind request",
        OrderKind::List => "an order of kind list",
        OrderKind::Attribute => "an order of kind attribute",
    }
}

/// Reports on an order of what is issued.
fn look_at_table(alloc: Global, lines: &mut Lines, table: &Table) -> Result<(), AllocError> {
    let Some(value) = table.get("kind") else {
        return lines.say(
            "kind",
            "required: one of certificate, request, list, attribute",
        );
    };
    let Ok(kind) = OrderKind::from_value(alloc, value)? else {
        return look_at_single(alloc, lines, "kind", Single::Kind, value);
    };
    let keys = order_keys(alloc, kind, has(table, "base"))?;
    look_at_keys(alloc, lines, &keys, owner_of(kind), table)?;
    look_at_order(alloc, lines, kind, table)
}

/// What is ordered, where an order says it.
pub(crate) fn kind_in(alloc: Global, order: &[u8]) -> Result<Option<OrderKind>, AllocError> {
    match toml::table_from_slice(alloc, order) {
        Ok(table) => match table.get("kind") {
            Some(value) => Ok(OrderKind::from_value(alloc, value)?.ok()),
            None => Ok(None),
        },
        Err(error) if error.is_memory() => Err(AllocError),
        Err(_) => Ok(None),
    }
}

/// Whether an order has a base, as that of a delta list has.
pub(crate) fn has_base(alloc: Global, order: &[u8]) -> Result<bool, AllocError> {
    match toml::table_from_slice(alloc, order) {
        Ok(table) => Ok(has(&table, "base")),
        Err(error) if error.is_memory() => Err(AllocError),
        Err(_) => Ok(false),
    }
}

/// Reports on a document.
fn look_at_document(
    alloc: Global,
    lines: &mut Lines,
    form: OrderForm,
    table: &Table,
) -> Result<(), AllocError> {
    match form {
        OrderForm::Issuing => look_at_table(alloc, lines, table),
        OrderForm::Path => {
            let keys = path_keys(alloc)?;
            look_at_keys(alloc, lines, &keys, "a question", table)
        }
    }
}

/// The line, counted from 1, that has the byte of this index.
fn line_at(input: &[u8], index: usize) -> usize {
    let mut line = 1usize;
    for byte in input.iter().take(index) {
        if *byte == b'\n' {
            line = line.saturating_add(1);
        }
    }
    line
}

/// The line, counted from 1, that begins a PEM block first.
fn first_block_line(order: &[u8]) -> Option<usize> {
    let mut line = 1usize;
    let mut starts_line = true;
    for at in 0..order.len() {
        let (_front, rest) = order.split_at(at);
        if starts_line && rest.starts_with(b"-----BEGIN") {
            return Some(line);
        }
        starts_line = rest.starts_with(b"\n");
        if starts_line {
            line = line.saturating_add(1);
        }
    }
    None
}

/// Whether a line is before another one, or there is no other.
fn is_before(line: usize, other: Option<usize>) -> bool {
    match other {
        Some(other) => line < other,
        None => true,
    }
}

/// Reports a text that isn't TOML from this index on.
fn look_at_text(
    alloc: Global,
    lines: &mut Lines,
    order: &[u8],
    index: usize,
    message: &str,
) -> Result<(), AllocError> {
    if str::from_utf8(order).is_err() {
        return lines.say(
            "",
            "not UTF-8, so not TOML: a DER file comes after the order, as a FILE",
        );
    }
    let line = line_at(order, index);
    let block_line = first_block_line(order);
    if is_before(line, block_line) {
        let place = format!(in alloc; "line {line}")?;
        lines.say(place.as_str(), message)?;
    }
    match block_line {
        Some(begun) => {
            let what = format!(in alloc;
                "line {begun} begins a PEM block: PEM files come after the order, as FILEs"
            )?;
            lines.say("", what.as_str())
        }
        None => Ok(()),
    }
}

/// What is wrong with an order, a line for each place.
pub(crate) fn order_faults(
    alloc: Global,
    form: OrderForm,
    order: Named<'_>,
) -> Result<Lines, AllocError> {
    let mut lines = Lines::new(alloc, order.name)?;
    match toml::table_from_slice(alloc, order.octets) {
        Ok(table) => look_at_document(alloc, &mut lines, form, &table)?,
        Err(error) if error.is_memory() => return Err(AllocError),
        Err(error) => {
            let index = match error.span() {
                Some(span) => span.start,
                None => 0,
            };
            look_at_text(alloc, &mut lines, order.octets, index, error.message())?;
        }
    }
    Ok(lines)
}
