//! Commitments, as a word of digits for each unit: 1 where it is on in a period, from the first one on.

use std::alloc::{AllocError, Global};
use uc_model::Pattern;
use uc_model::limits::MAX_PERIODS;

/// The patterns of the words.
pub(crate) fn patterns(alloc: Global, words: &str) -> Result<Vec<Pattern>, AllocError> {
    let mut patterns = Vec::new(alloc);
    for word in words.split(' ') {
        if !word.is_empty() {
            patterns.push(pattern(word))?;
        }
    }
    Ok(patterns)
}

/// The pattern of a word.
pub(crate) fn pattern(word: &str) -> Pattern {
    let mut pattern = Pattern::all_off();
    for t in 0..MAX_PERIODS {
        if word.as_bytes().get(t as usize) == Some(&b'1') {
            pattern.switch_on(t);
        }
    }
    pattern
}
