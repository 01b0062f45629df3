//! Texts that are told by what is changed in others. In them `%XX` is the byte of that number.

use percent_encoding::percent_decode;
use std::alloc::{AllocError, Global};

/// Bytes that others were changed to, if they could be.
pub(crate) type Changed = Result<Option<Vec<u8>>, AllocError>;

/// The first word of a line, and the rest behind the space.
pub(crate) fn split(line: &str) -> (&str, &str) {
    line.split_once(' ').unwrap_or((line, ""))
}

/// The bytes that a text says.
pub(crate) fn bytes_of(alloc: Global, text: &str) -> Result<Vec<u8>, AllocError> {
    let mut bytes = Vec::new(alloc);
    percent_decode(text.as_bytes()).append_to(&mut bytes)?;
    Ok(bytes)
}

// Bytes with one text replaced by another. Nothing where it isn't there.
fn replaced(alloc: Global, bytes: &[u8], from: &str, to: &str) -> Changed {
    let from = bytes_of(alloc, from)?;
    let to = bytes_of(alloc, to)?;
    let (Ok(text), Ok(from), Ok(to)) = (
        std::str::from_utf8(bytes),
        std::str::from_utf8(from.as_slice()),
        std::str::from_utf8(to.as_slice()),
    ) else {
        return Ok(None);
    };
    if !text.contains(from) {
        return Ok(None);
    }
    let text = String::from_str(alloc, text)?.replace(alloc, from, to)?;
    Ok(Some(Vec::from_slice(alloc, text.as_bytes())?))
}

/// Bytes with one text replaced by another, as `FROM => TO` says, or `FROM =>` by none. Nothing where that isn't said, or the text
/// isn't there.
pub(crate) fn changed(alloc: Global, bytes: &[u8], change: &str) -> Changed {
    match change.split_once(" =>") {
        Some((from, to)) => replaced(alloc, bytes, from, to.strip_prefix(' ').unwrap_or(to)),
        None => Ok(None),
    }
}

// So many of a text with commas between, in which `#` is the number of each, from 1.
fn list(alloc: Global, count: u32, text: &str) -> Result<String, AllocError> {
    let mut entries = String::new(alloc);
    for before in 0..count {
        if before > 0 {
            entries.push_str(",")?;
        }
        let number = format!(in alloc; "{}", before + 1)?;
        let entry = String::from_str(alloc, text)?.replace(alloc, "#", number.as_str())?;
        entries.push_str(entry.as_str())?;
    }
    Ok(entries)
}

/// Bytes with one text replaced by a list, as `NUMBER FROM => ENTRY` says.
pub(crate) fn with_list(alloc: Global, bytes: &[u8], change: &str) -> Changed {
    let (count, change) = split(change);
    match (count.parse::<u32>(), change.split_once(" => ")) {
        (Ok(count), Some((from, entry))) => {
            let entries = list(alloc, count, entry)?;
            replaced(alloc, bytes, from, entries.as_str())
        }
        _ => Ok(None),
    }
}

/// The lines of a text with another one in place of that of a number, as `NUMBER LINE` says.
pub(crate) fn with_line(alloc: Global, bytes: &[u8], change: &str) -> Changed {
    let (number, line) = split(change);
    let (Ok(number), Ok(text)) = (number.parse::<usize>(), std::str::from_utf8(bytes)) else {
        return Ok(None);
    };
    let mut changed = Vec::new(alloc);
    for (before, standing) in text.lines().enumerate() {
        if number.checked_sub(1) == Some(before) {
            changed.extend_from_slice(bytes_of(alloc, line)?.as_slice())?;
        } else {
            changed.extend_from_slice(standing.as_bytes())?;
        }
        changed.push(b'\n')?;
    }
    Ok(Some(changed))
}

/// Bytes with a text so often behind them, as `NUMBER TEXT` says.
pub(crate) fn with_more(alloc: Global, bytes: &[u8], more: &str) -> Changed {
    let (count, text) = split(more);
    let Ok(count) = count.parse::<u32>() else {
        return Ok(None);
    };
    let text = bytes_of(alloc, text)?;
    let mut longer = Vec::from_slice(alloc, bytes)?;
    for _ in 0..count {
        longer.extend_from_slice(text.as_slice())?;
    }
    Ok(Some(longer))
}
