//! Words and numbers in a row.

use crate::Answer;
use std::alloc::{AllocError, Global};
use uc_model::NoMemory;

/// The first word, and what comes behind it.
pub(crate) fn first(words: &str) -> (&str, &str) {
    words.split_once(' ').unwrap_or((words, ""))
}

/// The words as an answer.
pub(crate) fn told(alloc: Global, words: &str) -> Answer {
    Ok(String::from_str(alloc, words)?)
}

/// The text as an answer, if all was put into it.
pub(crate) fn whole(put: Result<(), AllocError>, text: String) -> Answer {
    match put {
        Ok(()) => Ok(text),
        Err(_) => Err(NoMemory),
    }
}

/// Numbers, each behind a blank.
pub(crate) fn put_each(text: &mut String, numbers: &[i64]) -> Result<(), AllocError> {
    for number in numbers {
        write!(text, " {number}")?;
    }
    Ok(())
}

/// Numbers behind a word.
pub(crate) fn put_row(text: &mut String, word: &str, numbers: &[i64]) -> Result<(), AllocError> {
    text.push_str(word)?;
    put_each(text, numbers)
}

/// A line of numbers behind a word.
pub(crate) fn put_line(text: &mut String, word: &str, numbers: &[i64]) -> Result<(), AllocError> {
    put_row(text, word, numbers)?;
    text.push_str("\n")
}

/// A line of large numbers behind a word.
pub(crate) fn put_large(text: &mut String, word: &str, numbers: &[i128]) -> Result<(), AllocError> {
    text.push_str(word)?;
    for number in numbers {
        write!(text, " {number}")?;
    }
    text.push_str("\n")
}

/// Such a line as an answer.
pub(crate) fn large_line(alloc: Global, word: &str, numbers: &[i128]) -> Answer {
    let mut text = String::new(alloc);
    let put = put_large(&mut text, word, numbers);
    whole(put, text)
}
