ghost use Rattle.std.specs.Prelude.{◌≡◌};
ghost use Rattle.lane_traits.specs.Stream.{is_to_fail};

use persist_model::List;

/// Whether the call with this number is to fail.
pub fn is_listed(fail: &List<u64>, call: u64) -> bool
    ensures { result ≡ is_to_fail fail.now call }
{
    call < u64::MAX && fail.as_slice().contains(&call)
}
