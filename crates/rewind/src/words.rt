//! The words that the program is called with.
ghost use Rattle.std.specs.Prelude.{◌≡◌, ◌↔◌, [], ◌∷◌, ℕ, List, IsTrue, IfSome, IfNone, codes, map, string_bytes};
ghost use Rattle.rewind.specs.Words.{AreWordsOf, AreWordsOfStop, IsWordOfPick, IsMixOf, limit_of};

use crate::input::{IMAGE_LIMIT, SCRIPT_LIMIT};
use image_runner::{Stop, Wanted};
use persist_model::Pick;
use rewind_script::number_of;

/// The most digits of the number of a `mix`.
const MIX_DIGITS: usize = 10;

/// What the program is asked to do.
#[derive(Clone, Copy, Debug, PartialEq, Eq)]
pub enum Job {
    /// To run a script.
    Run,
    /// To recover the image of a text.
    Recover(Wanted),
    /// To migrate the image of a text: to the end, or up to a stop with a restart.
    Migrate(Option<Stop>),
}

impl Job {
    /// The most bytes of its input.
    pub fn limit(self) -> usize
        ensures { result ≡ limit_of self }
    {
        match self {
            Job::Run => SCRIPT_LIMIT,
            Job::Recover(_) => IMAGE_LIMIT,
            Job::Migrate(_) => IMAGE_LIMIT,
        }
    }
}

/// The job that the words name.
pub fn job_of(words: &[String]) -> Option<Job>
    ensures named { IfSome result (λ job. AreWordsOf job (map string_bytes words.now)) }
    ensures unknown { IfNone result ((job : Job) → AreWordsOf job (map string_bytes words.now) → ⊥) }
{
    match words {
        [word] => job_of_word(word.as_str()),
        [first, second] => job_of_two(first.as_str(), second.as_str()),
        [first, second, third] => job_of_three(first.as_str(), second.as_str(), third.as_str()),
        _ => None,
    }
}

fn job_of_word(word: &str) -> Option<Job>
    ensures named { IfSome result (λ job. AreWordsOf job (word.now ∷ [])) }
    ensures unknown { IfNone result ((job : Job) → AreWordsOf job (word.now ∷ []) → ⊥) }
{
    if is_run(word) {
        return Some(Job::Run);
    }
    if is_recover(word) {
        return Some(Job::Recover(Wanted::Report));
    }
    if is_migrate(word) {
        return Some(Job::Migrate(None));
    }
    None
}

fn job_of_two(first: &str, second: &str) -> Option<Job>
    ensures named { IfSome result (λ job. AreWordsOf job (first.now ∷ second.now ∷ [])) }
    ensures unknown { IfNone result ((job : Job) → AreWordsOf job (first.now ∷ second.now ∷ []) → ⊥) }
{
    if !is_recover(first) {
        return None;
    }
    if !is_image(second) {
        return None;
    }
    Some(Job::Recover(Wanted::Image))
}

fn job_of_three(first: &str, second: &str, third: &str) -> Option<Job>
    ensures named { IfSome result (λ job. AreWordsOf job (first.now ∷ second.now ∷ third.now ∷ [])) }
    ensures unknown { IfNone result ((job : Job) → AreWordsOf job (first.now ∷ second.now ∷ third.now ∷ []) → ⊥) }
{
    if !is_migrate(first) {
        return None;
    }
    match stop_of(second, third) {
        None => None,
        Some(stop) => Some(Job::Migrate(Some(stop))),
    }
}

/// The stop that two words name.
fn stop_of(events: &str, pick: &str) -> Option<Stop>
    ensures named { IfSome result (λ stop. AreWordsOfStop stop events.now pick.now) }
    ensures unknown { IfNone result ((stop : Stop) → AreWordsOfStop stop events.now pick.now → ⊥) }
{
    match number_of(events.as_bytes()) {
        None => None,
        Some(events) => match pick_of(pick) {
            None => None,
            Some(pick) => Some(Stop { events, pick }),
        },
    }
}

/// The pick that a word names.
fn pick_of(word: &str) -> Option<Pick>
    ensures named { IfSome result (λ pick. IsWordOfPick pick word.now) }
    ensures unknown { IfNone result ((pick : Pick) → IsWordOfPick pick word.now → ⊥) }
{
    if is_old(word) {
        return Some(Pick::Old);
    }
    if is_new(word) {
        return Some(Pick::New);
    }
    match word.as_bytes().strip_prefix(b"mix") {
        None => None,
        Some(digits) => match mix_of(digits) {
            None => None,
            Some(number) => Some(Pick::Mix(number)),
        },
    }
}

/// The number of a `mix` that digits spell.
fn mix_of(digits: &[u8]) -> Option<u32>
    ensures named { IfSome result (λ number. IsMixOf number digits.now) }
    ensures unknown { IfNone result ((number : ℕ) → IsMixOf number digits.now → ⊥) }
{
    if digits.len() > MIX_DIGITS {
        return None;
    }
    match number_of(digits) {
        None => None,
        Some(number) => {
            if number > u64::from(u32::MAX) {
                None
            } else {
                Some(number as u32)
            }
        }
    }
}

fn is_run(word: &str) -> bool
    ensures { IsTrue result ↔ (word.now ≡ codes "run") }
{
    word == "run"
}

fn is_recover(word: &str) -> bool
    ensures { IsTrue result ↔ (word.now ≡ codes "recover") }
{
    word == "recover"
}

fn is_image(word: &str) -> bool
    ensures { IsTrue result ↔ (word.now ≡ codes "image") }
{
    word == "image"
}

fn is_migrate(word: &str) -> bool
    ensures { IsTrue result ↔ (word.now ≡ codes "migrate") }
{
    word == "migrate"
}

fn is_old(word: &str) -> bool
    ensures { IsTrue result ↔ (word.now ≡ codes "old") }
{
    word == "old"
}

fn is_new(word: &str) -> bool
    ensures { IsTrue result ↔ (word.now ≡ codes "new") }
{
    word == "new"
}
