//! The text of a system, an instance in JSON.

use std::alloc::{AllocError, Global};

/// The text with another in the place of one wherever it stands, as `FROM => TO` says; nothing where it stands nowhere.
pub(crate) fn changed(
    alloc: Global,
    text: &str,
    change: &str,
) -> Result<Option<String>, AllocError> {
    match change.split_once(" => ") {
        Some((from, to)) if text.contains(from) => {
            Ok(Some(String::from_str(alloc, text)?.replace(alloc, from, to)?))
        }
        _ => Ok(None),
    }
}

/// The text with another in the place of one where it first stands behind the name of a unit, as `NAME FROM => TO` says.
pub(crate) fn unit_changed(
    alloc: Global,
    text: &str,
    change: &str,
) -> Result<Option<String>, AllocError> {
    let Some((name, change)) = change.split_once(' ') else {
        return Ok(None);
    };
    let Some((from, to)) = change.split_once(" => ") else {
        return Ok(None);
    };
    let Some((before, unit)) = text.split_once(name) else {
        return Ok(None);
    };
    let Some((front, back)) = unit.split_once(from) else {
        return Ok(None);
    };
    Ok(Some(format!(in alloc; "{before}{name}{front}{to}{back}")?))
}
