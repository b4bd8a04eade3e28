//! Reads the whole input.
ghost use Rattle.std.specs.Prelude.{◌≡◌, ◌≢◌, ◌+◌, ◌<◌, ◌≤◌, ℕ, List, Option, length, vec_len, IfOk, OnOk, Ok, Err};
ghost use Rattle.lane_traits.specs.Stream.{HasRisen};
ghost use Rattle.rewind.specs.Call.{Took, TookAll};
ghost use Rattle.rewind.specs.Words.{IMAGE_LIMIT as image_limit};

use lane_traits::{Failed, Source};
use std::alloc::{AllocError, Global};

/// The most bytes of a script.
pub const SCRIPT_LIMIT: usize = 1_048_576;

/// The most bytes of an image text.
pub const IMAGE_LIMIT: usize = 33_554_432;

/// How many bytes are asked for at once.
const CHUNK: usize = 4096;

/// Why an input isn't read to its end.
#[derive(Clone, Copy, Debug, PartialEq, Eq)]
pub enum Unread {
    Failed,
    TooLong,
    NoMemory,
}

impl From<AllocError> for Unread {
    ghost use Rattle.rewind.specs.declared.input.Unread.TheVariants.{NoMemory};
    ghost use Rattle.std.specs.Prelude.{◌≡◌};

    ghost from_gives = { λ _ e. e ≡ NoMemory };

    fn from(_: AllocError) -> Unread {
        Unread::NoMemory
    }
}

/// The bytes up to the end of the source, where they are no more than the limit.
pub fn read_input<S: Source>(alloc: Global, source: &mut S, limit: usize) -> Result<Vec<u8>, Unread>
    requires { limit ≤ image_limit }
    ensures whole { IfOk result (λ text. TookAll (S.left source.old) text.items (S.left source.new)) }
    ensures short { IfOk result (λ text. length text.items ≤ limit) }
    ensures failed { result ≡ Err Unread.Failed → HasRisen (S.faults source.old) (S.faults source.new) }
    ensures part { result ≡ Err Unread.Failed → (text : List ℕ) × Took (S.left source.old) text (S.left source.new) × (length text ≤ limit) }
    ensures too_long { result ≡ Err Unread.TooLong → (text : List ℕ) × Took (S.left source.old) text (S.left source.new) × (limit < length text) }
{
    let mut text = Vec::new(alloc);
    let mut chunk = vec![in alloc; 0; CHUNK]?;
    while text.len() <= limit {
        match read_chunk(source, &mut chunk, &mut text) {
            Err(unread) => return Err(unread),
            Ok(0) => return Ok(text),
            Ok(_) => {}
        }
    }
    Err(Unread::TooLong)
}

/// Appends the next bytes to the text, and answers how many they are: 0 is the end of the source.
fn read_chunk<S: Source>(
    source: &mut S,
    chunk: &mut [u8],
    text: &mut Vec<u8>,
) -> Result<usize, Unread>
    requires { 0 < length chunk.old }
    ensures more { OnOk result ((before : Option (List ℕ)) → Took before text.old.items (S.left source.old) → Took before text.new.items (S.left source.new)) }
    ensures whole { result ≡ Ok 0 → (before : Option (List ℕ)) → Took before text.old.items (S.left source.old) → TookAll before text.new.items (S.left source.new) }
    ensures longer { IfOk result (λ n. vec_len text.new ≡ vec_len text.old + n) }
    ensures fits { IfOk result (λ n. n ≤ length chunk.old) }
    ensures never_falls { S.faults source.old ≤ S.faults source.new }
    ensures failed { result ≡ Err Unread.Failed → HasRisen (S.faults source.old) (S.faults source.new) }
    ensures kept { result ≡ Err Unread.Failed → S.left source.new ≡ S.left source.old }
    ensures not_too_long { result ≢ Err Unread.TooLong }
{
    let count = match source.read(chunk) {
        Ok(count) => count,
        Err(Failed) => return Err(Unread::Failed),
    };
    text.extend_from_slice(&chunk[..count])?;
    Ok(count)
}
