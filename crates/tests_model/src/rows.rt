//! Words of rows.

/// The word at this place of a row, or nothing.
pub fn word(row: &str, place: usize) -> &str {
    row.split(' ').nth(place).unwrap_or("")
}

/// The value that the word says.
pub fn value(word: &str) -> i32 {
    word.parse::<i32>().unwrap_or(0)
}

/// The number that the word says.
pub fn number(word: &str) -> u32 {
    word.parse::<u32>().unwrap_or(0)
}
