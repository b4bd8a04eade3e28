//! Whether the kinds of structures fit the words of a region.
ghost use Rattle.std.specs.Prelude.{◌≡◌, ◌≤◌, ℕ, length, slice_index, IfSome, IfNone};
ghost use Rattle.persist_model.specs.ImageRules.{rule_number};
ghost use Rattle.persist_model.specs.Shape.{SECOND_MAGIC as second_magic};
ghost use Rattle.migration.specs.Fits.{Fit, IsLineFault};

use persist_model::format::{FIRST_KIND, SECOND_MAGIC, STRUCTURES};
use persist_model::{ImageRule, Look};
use region_layout::{ImageFault, Kind, number_of_kind};

/// The fault of kinds that don't fit the words.
pub fn wrong_line<W: Look>(words: &W, kinds: &[Kind]) -> Option<ImageFault>
    requires long { 32 ≤ length (W.words words.now) }
    requires few { length kinds.now ≤ 8 }
    ensures fault { IfSome result (λ found. IsLineFault (slice_index (W.words words.now)) kinds.now (rule_number found.rule) found.address) }
    ensures fit { IfNone result (Fit (slice_index (W.words words.now)) kinds.now) }
{
    if kinds.len() as u64 != words.word(STRUCTURES) {
        return Some(ImageFault {
            rule: ImageRule::Sizes,
            address: STRUCTURES,
        });
    }
    if words.word(0) != SECOND_MAGIC {
        return None;
    }
    wrong_kind(words, kinds)
}

/// The word of the first structure that has another kind than its own.
fn wrong_kind<W: Look>(words: &W, kinds: &[Kind]) -> Option<ImageFault>
    requires long { 32 ≤ length (W.words words.now) }
    requires few { length kinds.now ≤ 8 }
    requires count { length kinds.now ≡ slice_index (W.words words.now) 5 }
    requires second { slice_index (W.words words.now) 0 ≡ second_magic }
    ensures fault { IfSome result (λ found. IsLineFault (slice_index (W.words words.now)) kinds.now (rule_number found.rule) found.address) }
    ensures fit { IfNone result (Fit (slice_index (W.words words.now)) kinds.now) }
{
    for (s, kind) in kinds.iter().enumerate() {
        let address = FIRST_KIND + s as u32;
        if words.word(address) != number_of_kind(*kind) {
            return Some(ImageFault {
                rule: ImageRule::Sizes,
                address,
            });
        }
    }
    None
}
