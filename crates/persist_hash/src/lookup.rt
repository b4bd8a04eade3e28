ghost use Rattle.std.specs.Prelude.{◌≡◌};
ghost use Rattle.lane_traits.specs.Space.{Space};
ghost use Rattle.region_layout.specs.FiniteMap.{FiniteMap, lookup};
ghost use Rattle.persist_hash.specs.Calls.{Holds, HasMap, needed};

use crate::fields::field;
use crate::search::place_of;
use lane_traits::Words;

/// The value of a key.
pub fn get<W: Words>(words: &mut W, root: u32, key: u64) -> Option<u64>
    requires { HasMap (W.space words.old) root }
    ensures value { (contents : FiniteMap) → Holds (W.space words.old) root contents → result ≡ lookup key contents }
    ensures same { W.space words.new ≡ W.space words.old }
{
    let place = place_of(words, root, key);
    if place.node == 0 {
        return None;
    }
    Some(field(words, place.node, 2))
}

/// How many blocks a put of the key takes.
pub fn needs<W: Words>(words: &mut W, root: u32, key: u64) -> u32
    requires { HasMap (W.space words.old) root }
    ensures blocks { (contents : FiniteMap) → Holds (W.space words.old) root contents
        → result ≡ needed (W.space words.old).word root key contents }
    ensures same { W.space words.new ≡ W.space words.old }
{
    let place = place_of(words, root, key);
    if place.node != 0 {
        return 0;
    }
    if place.directory == 0 { 2 } else { 1 }
}
