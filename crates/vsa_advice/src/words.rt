//! The words of a command line.

/// Whether a word stands among the words.
pub fn has_word(words: &[String], word: &str) -> bool {
    words.iter().any(|own| own.as_str() == word)
}

/// Whether one of the words begins so.
pub fn begins_word(words: &[String], front: &str) -> bool {
    words.iter().any(|own| own.as_str().starts_with(front))
}
