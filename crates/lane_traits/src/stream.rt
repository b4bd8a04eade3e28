ghost use Rattle.std.specs.Prelude.{◌≡◌, ℕ, ◌<◌, ◌≤◌, ◌++◌, List, Option, Some, length, IfOk, IfSome, OnOk, OnErr};
ghost use Rattle.lane_traits.specs.Stream.{Gives, TakesPart, HasRisen};

/// A read or a write failed.
#[derive(Clone, Copy, Debug, PartialEq, Eq)]
pub struct Failed;

/// Bytes that can be read, once, in order.
///
/// A source tells the bytes that are left, or says nothing of them.
pub trait Source {
    /// The bytes that are left, where the source tells them.
    ghost left: { Self → Option (List ℕ) };

    /// How many faults it has met.
    ghost faults: { Self → ℕ };

    /// Puts the next bytes in front of `buf` and answers how many they are; 0 is the end of input.
    ///
    /// What stands in `buf` behind them, or after `Failed`, isn't said.
    fn read(&mut self, buf: &mut [u8]) -> Result<usize, Failed>
        requires { 0 < length buf.old }
        ensures fits { IfOk result (λ n. n ≤ length buf.old) }
        ensures given { IfOk result (λ n. IfSome (left self.old) (λ bytes. Gives n bytes buf.new (left self.new))) }
        ensures kept { OnErr result (left self.new ≡ left self.old) }
        ensures never_falls { faults self.old ≤ faults self.new }
        ensures failed { OnErr result (HasRisen (faults self.old) (faults self.new)) };
}

/// Something that bytes can be written to, in order.
///
/// A sink tells the bytes that were written, or says nothing of them.
pub trait Sink {
    /// The bytes that were written, where the sink tells them.
    ghost written: { Self → Option (List ℕ) };

    /// How many faults it has met.
    ghost faults: { Self → ℕ };

    /// Appends all the bytes, or after `Failed` a prefix of them.
    fn write(&mut self, bytes: &[u8]) -> Result<(), Failed>
        ensures appended { OnOk result (IfSome (written self.old) (λ before. written self.new ≡ Some (before ++ bytes.now))) }
        ensures part { OnErr result (IfSome (written self.old) (λ before. TakesPart before bytes.now (written self.new))) }
        ensures never_falls { faults self.old ≤ faults self.new }
        ensures failed { OnErr result (HasRisen (faults self.old) (faults self.new)) };
}
