//! The lines of a text, and what stands round the first space of a line.
ghost use Rattle.std.specs.Prelude.{◌≡◌, ◌<◌, ◌∷◌, [], length, MatchOption};
ghost use Rattle.std.specs.List.{before_first, after_first};
ghost use Rattle.image_text.specs.Text.{is_space, lines};

use memchr::memchr;

/// The first line of the text, and the text after it.
pub fn next_line(text: &[u8]) -> Option<(&[u8], &[u8])>
    ensures { MatchOption result (lines text.now ≡ []) (λ found. (lines text.now ≡ found.0.now ∷ lines found.1.now) × (length found.1.now < length text.now)) }
{
    if text.is_empty() {
        return None;
    }
    match memchr(b'\n', text) {
        None => Some((text, &[])),
        Some(end) => Some((&text[..end], &text[end + 1..])),
    }
}

/// What stands before the first space, and what stands after it.
pub fn round_space(line: &[u8]) -> (&[u8], &[u8])
    ensures before { result.0.now ≡ before_first is_space line.now }
    ensures after { result.1.now ≡ after_first is_space line.now }
{
    match memchr(b' ', line) {
        None => (line, &[]),
        Some(end) => (&line[..end], &line[end + 1..]),
    }
}
