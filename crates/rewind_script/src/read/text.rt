//! Lines, words and numbers.

ghost use Rattle.std.specs.Prelude.{◌≡◌, ◌<◌, [], ◌∷◌, ◌++◌, length, map, MatchOption, IfOk, IsTrue};
ghost use Rattle.std.specs.Str.Lines.{lines, strip_carriage_return};
ghost use Rattle.std.specs.List.{list_all, position};
ghost use Rattle.std.specs.Char.{is_ascii_digit};
ghost use Rattle.rewind_script.specs.Text.{is_blank, words, unless_empty, number, is_numeral, fitting, spelled};

use memchr::memchr;
use std::alloc::{AllocError, Global};

const MAX_DIGITS: usize = 20;

/// The first line of the text, and the text after it.
pub fn next_line(text: &[u8]) -> Option<(&[u8], &[u8])>
    ensures { MatchOption result (lines text.now ≡ []) (λ found. (lines text.now ≡ found.0.now ∷ lines found.1.now) × (length found.1.now < length text.now)) }
{
    if text.is_empty() {
        return None;
    }
    match memchr(b'\n', text) {
        None => Some((text, &[])),
        Some(end) => {
            let (line, rest) = text.split_at(end);
            Some((without_return(line), &rest[1..]))
        }
    }
}

/// The line without a carriage return at its end.
fn without_return(line: &[u8]) -> &[u8]
    ensures { result.now ≡ strip_carriage_return line.now }
{
    match line {
        [front @ .., b'\r'] => front,
        _ => line,
    }
}

/// The words of the line.
pub fn words_of(alloc: Global, line: &[u8]) -> Result<Vec<&[u8]>, AllocError>
    ensures { IfOk result (λ found. map (λ word. word.now) found.items ≡ words line.now) }
{
    let mut words = Vec::new(alloc);
    let mut rest = line;
    while !rest.is_empty() {
        let (word, after) = split_word(rest);
        if !word.is_empty() {
            words.push(word)?;
        }
        rest = after;
    }
    Ok(words)
}

/// What stands before the first blank, and what stands after it.
fn split_word(line: &[u8]) -> (&[u8], &[u8])
    requires { 0 < length line.now }
    ensures parts { words line.now ≡ unless_empty result.0.now ++ words result.1.now }
    ensures shorter { length result.1.now < length line.now }
{
    match find_blank(line) {
        None => (line, &[]),
        Some(end) => (&line[..end], &line[end + 1..]),
    }
}

fn find_blank(line: &[u8]) -> Option<usize>
    ensures { result ≡ position is_blank line.now }
{
    line.iter().position(|byte| *byte == b' ' || *byte == b'\t')
}

fn is_word_of_digits(word: &[u8]) -> bool
    ensures { result ≡ is_numeral word.now }
{
    !word.is_empty() && word.len() <= MAX_DIGITS && is_all_digits(word)
}

fn is_all_digits(word: &[u8]) -> bool
    ensures { result ≡ list_all is_ascii_digit word.now }
{
    word.iter().all(|byte| byte.is_ascii_digit())
}

/// What the digits spell, if it fits.
fn value_of(digits: &[u8]) -> Option<u64>
    requires { IsTrue (list_all is_ascii_digit digits.now) }
    ensures { result ≡ fitting (spelled 0 digits.now) }
{
    let mut number: u64 = 0;
    for digit in digits {
        number = number
            .checked_mul(10)?
            .checked_add(u64::from(*digit - b'0'))?;
    }
    Some(number)
}

/// The number that a word spells, of 1 to 20 decimal digits and at most 2^64-1; else None.
#[tactic(auto, unfolding(crate::specs::Text::number))]
pub fn number_of(word: &[u8]) -> Option<u64>
    ensures { result ≡ number word.now }
{
    if is_word_of_digits(word) {
        value_of(word)
    } else {
        None
    }
}
