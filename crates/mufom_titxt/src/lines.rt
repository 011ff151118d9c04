//! Lines and words of a text.

ghost use Rattle.std.specs.Prelude.{◌≡◌, ◌∷◌, ◌<◌, ◌≤◌, ◌==◌, [], false, length, MatchOption, IfSome, option_map};
ghost use Rattle.std.specs.List.{position_or_len};
ghost use Rattle.mufom_titxt.specs.Lines.{without_return, lines_of, words_of};
ghost use Rattle.mufom_titxt.specs.Scans.{lines_later, begins_with_space};

use memchr::memchr;

// The number of bytes before the first space. Words are short, so a loop is faster here than a vectorized
// search.
fn word_length(text: &[u8]) -> usize
    ensures count { result ≡ position_or_len (λ b. b == 32) text.now }
    ensures within { result ≤ length text.now }
{
    for (count, byte) in text.iter().enumerate() {
        if *byte == b' ' {
            return count;
        }
    }
    text.len()
}

// A line without the carriage return at its end, if it has one.
fn without_return(line: &[u8]) -> &[u8]
    ensures { result.now ≡ without_return line.now }
{
    if line.is_empty() {
        return line;
    }
    if line[line.len() - 1] != b'\r' {
        return line;
    }
    &line[..line.len() - 1]
}

/// Returns the first line of a text, and the text after the line feed that ends it.
pub(crate) fn next_line(text: &[u8]) -> (&[u8], Option<&[u8]>)
    ensures line { lines_of text.now ≡ result.0.now ∷ lines_later (option_map (λ rest. rest.now) result.1) }
    ensures rest { IfSome result.1 (λ rest. length rest.now < length text.now) }
{
    match memchr(b'\n', text) {
        Some(count) => (without_return(&text[..count]), Some(&text[count + 1..])),
        None => (text, None),
    }
}

// The line without the spaces at its beginning.
fn without_spaces(line: &[u8]) -> &[u8]
    ensures words { words_of result.now ≡ words_of line.now }
    ensures first { begins_with_space result.now ≡ false }
    ensures within { length result.now ≤ length line.now }
{
    let mut rest = line;
    while let [b' ', after @ ..] = rest {
        rest = after;
    }
    rest
}

/// Returns the first word of a line, and the rest of the line.
pub(crate) fn next_word(line: &[u8]) -> Option<(&[u8], &[u8])>
    ensures { MatchOption result (words_of line.now ≡ [])
        (λ r. (words_of line.now ≡ r.0.now ∷ words_of r.1.now) × (length r.1.now < length line.now)) }
{
    let rest = without_spaces(line);
    if rest.is_empty() {
        return None;
    }
    Some(rest.split_at(word_length(rest)))
}
