//! Numbers in decimal, and values in hexadecimal.
ghost use Rattle.std.specs.Prelude.{◌≡◌, ◌≤◌, length};
ghost use Rattle.image_text.specs.Text.{spelled, is_short, number_of as number_of_word, value_of as value_of_word};

const MAX_DIGITS: usize = 7;

const VALUE_DIGITS: usize = 16;

/// The number that a word spells in decimal.
pub fn number_of(word: &[u8]) -> Option<u64>
    ensures { result ≡ number_of_word word.now }
{
    if is_short_word(word) {
        spelled_by(10, word)
    } else {
        None
    }
}

/// The value that a word of 16 hexadecimal digits spells.
pub fn value_of(word: &[u8]) -> Option<u64>
    ensures { result ≡ value_of_word word.now }
{
    if word.len() == VALUE_DIGITS {
        spelled_by(16, word)
    } else {
        None
    }
}

fn is_short_word(word: &[u8]) -> bool
    ensures { result ≡ is_short word.now }
{
    match word {
        [] => false,
        [_] => true,
        [first, ..] => word.len() <= MAX_DIGITS && *first != b'0',
    }
}

/// The number that digits of this base spell.
fn spelled_by(base: u32, word: &[u8]) -> Option<u64>
    requires least { 2 ≤ base }
    requires most { base ≤ 16 }
    requires short { length word.now ≤ 16 }
    ensures { result ≡ spelled base 0 word.now }
{
    let mut number: u64 = 0;
    for byte in word {
        let digit = char::from(*byte).to_digit(base)?;
        number = number * u64::from(base) + u64::from(digit);
    }
    Some(number)
}
