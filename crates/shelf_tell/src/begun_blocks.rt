//! Where the blocks of files begin, and with which labels, for messages about them.
use crate::named::Named;
use pem::{PemError, Refusal};
use shelf_fault::Label;
use std::alloc::{AllocError, Global};

/// How many octets of a label are shown.
const SHOWN: usize = 40;

/// How a line begins that begins a block (RFC 7468, 2).
const BEGIN: &[u8] = b"-----BEGIN";

/// How a line begins that ends one.
const END: &[u8] = b"-----END";

/// Where a block begins.
#[derive(Clone, Copy, Debug)]
pub(crate) struct BegunBlock<'a> {
    /// Its number in the file, from 1.
    pub(crate) number: usize,
    /// The line of the file, from 1.
    pub(crate) line: usize,
    /// What is there as its label.
    pub(crate) label: &'a [u8],
}

/// Which block is looked for: the one with a number, or of those with a label the one with a number, each from 1.
#[derive(Clone, Copy, Debug)]
pub(crate) enum Wanted {
    Number(usize),
    Label(Label, usize),
}

/// What a file has of what is looked for.
#[derive(Clone, Copy, Debug)]
struct Search<'a> {
    wanted: Wanted,
    /// How many blocks begin, and how many lines end a block that hasn't begun.
    count: usize,
    /// How many blocks have the label.
    matching: usize,
    found: Option<BegunBlock<'a>>,
}

/// Where a block is.
#[derive(Clone, Copy, Debug)]
pub(crate) struct BlockPlace<'a> {
    /// The name of the file.
    pub(crate) file: &'a str,
    /// What the file has in it.
    pub(crate) octets: &'a [u8],
    /// The number of the block in the file, from 1; of a file without blocks, which is DER, none.
    pub(crate) number: Option<usize>,
    /// Where it begins, if it does.
    pub(crate) begun: Option<BegunBlock<'a>>,
}

/// What is there as a label after `-----BEGIN`.
fn label_behind(begun: &[u8]) -> &[u8] {
    let text = begun.strip_prefix(b" ".as_slice()).unwrap_or(begun);
    for at in 0..text.len() {
        let (label, rest) = text.split_at(at);
        if rest.starts_with(b"-----") || rest.starts_with(b"\n") || rest.starts_with(b"\r") {
            return label;
        }
    }
    text
}

/// Whether a block's label is this one.
fn is_labelled(label: &[u8], wanted: Label) -> bool {
    match wanted {
        Label::PublicKey => label == b"PUBLIC KEY".as_slice(),
        Label::Request => label == b"CERTIFICATE REQUEST".as_slice()
            || label == b"NEW CERTIFICATE REQUEST".as_slice(),
        Label::Certificate => label == b"CERTIFICATE".as_slice(),
    }
}

/// Goes on past a line that begins a block, which has this after `-----BEGIN`.
fn past_begin<'a>(search: Search<'a>, line: usize, behind: &'a [u8]) -> Search<'a> {
    let number = search.count.saturating_add(1);
    let label = label_behind(behind);
    let (matching, is_wanted) = match search.wanted {
        Wanted::Number(wanted) => (0, number == wanted),
        Wanted::Label(wanted, nth) if is_labelled(label, wanted) => {
            let matching = search.matching.saturating_add(1);
            (matching, matching == nth)
        }
        Wanted::Label(..) => (search.matching, false),
    };
    let found = if is_wanted {
        Some(BegunBlock {
            number,
            line,
            label,
        })
    } else {
        search.found
    };
    Search {
        wanted: search.wanted,
        count: number,
        matching,
        found,
    }
}

/// Goes through a file, whose lines CRLF, CR or LF end.
fn search_of(text: &[u8], wanted: Wanted) -> Search<'_> {
    let mut search = Search {
        wanted,
        count: 0,
        matching: 0,
        found: None,
    };
    let mut line = 1usize;
    let mut starts_line = true;
    let mut is_open = false;
    for at in 0..text.len() {
        let (_front, rest) = text.split_at(at);
        if starts_line && let Some(behind) = rest.strip_prefix(BEGIN) {
            search = past_begin(search, line, behind);
            is_open = true;
        } else if starts_line && rest.starts_with(END) {
            if !is_open {
                search.count = search.count.saturating_add(1);
            }
            is_open = false;
        }
        starts_line = rest.starts_with(b"\n") || rest.starts_with(b"\r");
        if starts_line && !rest.starts_with(b"\r\n") {
            line = line.saturating_add(1);
        }
    }
    search
}

/// Where the block with this number is, counted over the blocks of all files in their order. A file without blocks is DER, and one block.
pub(crate) fn block_of_number<'a>(files: &'a [Named<'a>], number: usize) -> Option<BlockPlace<'a>> {
    let mut left = number;
    for file in files {
        let search = search_of(file.octets, Wanted::Number(left));
        let is_der = search.count == 0;
        let count = search.count.max(1);
        if left <= count {
            return Some(BlockPlace {
                file: file.name,
                octets: file.octets,
                number: if is_der { None } else { Some(left) },
                begun: search.found,
            });
        }
        left = left.saturating_sub(count);
    }
    None
}

/// Whether a text is refused so.
fn is_refused(alloc: Global, text: &[u8], refusal: &Refusal) -> bool {
    match pem::blocks(alloc, text) {
        Err(PemError::Refused(found)) => found == *refusal,
        _ => false,
    }
}

/// Where the block is, in the first file that is refused so.
pub(crate) fn refused_block<'a>(
    alloc: Global,
    files: &'a [Named<'a>],
    refusal: &Refusal,
) -> Option<BlockPlace<'a>> {
    for file in files {
        if is_refused(alloc, file.octets, refusal) {
            return Some(BlockPlace {
                file: file.name,
                octets: file.octets,
                number: Some(refusal.block),
                begun: search_of(file.octets, Wanted::Number(refusal.block)).found,
            });
        }
    }
    None
}

/// The only file without blocks.
fn only_der<'a>(files: &'a [Named<'a>]) -> Option<BlockPlace<'a>> {
    let mut only = None;
    for file in files {
        if search_of(file.octets, Wanted::Number(0)).count == 0 {
            if only.is_some() {
                return None;
            }
            only = Some(BlockPlace {
                file: file.name,
                octets: file.octets,
                number: None,
                begun: None,
            });
        }
    }
    only
}

/// Where the block is that is the nth with this label, in a file of blocks, or else in the only file that is DER.
pub(crate) fn block_with_label<'a>(
    files: &'a [Named<'a>],
    label: Label,
    nth: usize,
) -> Option<BlockPlace<'a>> {
    let mut left = nth;
    for file in files {
        let search = search_of(file.octets, Wanted::Label(label, left));
        if let Some(begun) = search.found {
            return Some(BlockPlace {
                file: file.name,
                octets: file.octets,
                number: Some(begun.number),
                begun: Some(begun),
            });
        }
        left = left.saturating_sub(search.matching);
    }
    only_der(files)
}

/// A label, of a long one the front; an octet that isn't a printable character of ASCII as `?`.
pub(crate) fn shown_label(alloc: Global, label: &[u8]) -> Result<String, AllocError> {
    let mut text = String::new(alloc);
    for byte in label.iter().take(SHOWN) {
        if byte.is_ascii_graphic() || *byte == b' ' {
            text.push(char::from(*byte))?;
        } else {
            text.push('?')?;
        }
    }
    if label.len() > SHOWN {
        text.push_str("..")?;
    }
    Ok(text)
}

/// How a block is made that is read from one with this label, where that is known.
pub(crate) fn label_advice(label: &[u8]) -> &'static str {
    if label.ends_with(b"PRIVATE KEY") {
        return "; shelf reads no private keys: use `openssl pkey -in FILE -pubout`";
    }
    if label == b"X509 CERTIFICATE".as_slice() || label == b"TRUSTED CERTIFICATE".as_slice() {
        return "; convert it with `openssl x509 -in FILE`";
    }
    if label == b"RSA PUBLIC KEY".as_slice() {
        return "; convert it with `openssl rsa -RSAPublicKey_in -in FILE -pubout`";
    }
    if label == b"SIGNATURE".as_slice() {
        return "; use --signature FILE";
    }
    ""
}
