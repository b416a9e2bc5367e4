// Bytes as hex digits, two each, lower case, or `-` for none.
use lines::digits;

/// The bytes that are written as hex digits go to the front of a row. How many there are, or `None` where the text is of another kind or
/// the row has no room for them; the row's front may have changed then.
pub fn read(text: &[u8], row: &mut [u8]) -> Option<usize> {
    if matches!(text, b"-") {
        return Some(0);
    }
    let len = text.len() / 2;
    if text.is_empty() | (text.len() % 2 != 0) | (row.len() < len) {
        return None;
    }
    for i in 0..len {
        row[i] = u8::try_from(digits::hex(&text[2 * i..2 * i + 2], 2, 2)?).ok()?;
    }
    Some(len)
}
