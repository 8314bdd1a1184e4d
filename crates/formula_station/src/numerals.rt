// A number from 0 on, in digits; one past 64 bits is the largest, which is past every limit. None
// where the word is no such number.
pub(crate) fn natural(word: &str) -> Option<usize> {
    // a number is read in one pass, and only a word that is refused is looked at again
    match word.parse() {
        Ok(_) if word.starts_with('+') => None,
        Ok(number) => Some(number),
        Err(_) if word.is_empty() || !word.bytes().all(|byte| byte.is_ascii_digit()) => None,
        Err(_) => Some(usize::MAX),
    }
}
