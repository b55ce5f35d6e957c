//! What a text or the rest of a line gives: words, numbers and bytes.

use std::alloc::{AllocError, Global};

/// The first word of a line, and what stands behind the space that follows it.
pub fn first_word(line: &str) -> (&str, &str) {
    line.split_once(' ').unwrap_or((line, ""))
}

/// A text without its last line feed.
pub fn cut(text: &str) -> &str {
    text.strip_suffix('\n').unwrap_or(text)
}

/// The bytes that stand in a text as hexadecimal digits, two and two. It fails where a word is no such number.
pub fn bytes_of(alloc: Global, text: &str) -> anyhow::Result<Vec<u8>> {
    let mut bytes = Vec::new(alloc);
    for digits in text.split_ascii_whitespace() {
        bytes.push(u8::from_str_radix(digits, 16)?)?;
    }
    Ok(bytes)
}

/// The numbers in a text. It fails where a word is no such number.
pub fn numbers_of(alloc: Global, text: &str) -> anyhow::Result<Vec<u64>> {
    let mut numbers = Vec::new(alloc);
    for digits in text.split_ascii_whitespace() {
        numbers.push(digits.parse::<u64>()?)?;
    }
    Ok(numbers)
}

/// The words of a line, of which single spaces part each two. A line without characters has none.
pub fn words_of(alloc: Global, line: &str) -> Result<Vec<String>, AllocError> {
    let mut words = Vec::new(alloc);
    if line.is_empty() {
        return Ok(words);
    }
    for word in line.split(' ') {
        words.push(String::from_str(alloc, word)?)?;
    }
    Ok(words)
}
