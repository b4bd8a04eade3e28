ghost use Rattle.std.specs.Prelude.{◌≡◌, ℕ, ◌<◌, ◌≤◌, [], drop, length, Some, IfOk, IfSome, OnErr, IsTrue, is_err, ◌↔◌};
ghost use Rattle.lane_traits.specs.Stream.{Gives, HasRisen, failed_calls, is_to_fail};
ghost use Rattle.lane_traits.specs.Device.{counted};

use crate::fail_list::is_listed;
use crate::stream::{Failed, Source};
use persist_model::List;
use std::marker::Model;

/// A source over a text in memory, for tests: chosen reads of it fail.
#[derive(Drop)]
pub struct TextSource {
    text: List<u8>,
    at: usize,
    fail: List<u64>,
    calls: u64,
}

impl Model for TextSource {
    ghost use Rattle.std.specs.Prelude.{◌≤◌, length, drop};
    ghost use Rattle.lane_traits.specs.Stream.{SourceState};

    ghost Value = { SourceState };

    ghost view = { λ s. record { left = drop s.at s.text; fail = s.fail; calls = s.calls } };

    ghost invariant = { λ s. s.at ≤ length s.text };
}

impl TextSource {
    /// A source of this text. The reads whose numbers, from 0, are in `fail` fail.
    pub fn new(text: List<u8>, fail: List<u64>) -> TextSource
        ensures { result ≡ record { left = text; fail = fail; calls = 0 } }
    {
        TextSource {
            text,
            at: 0,
            fail,
            calls: 0,
        }
    }
}

impl Source for TextSource {
    ghost left = { λ s. Some s.left };

    ghost faults = { λ s. failed_calls s.fail s.calls };

    #[tactic(auto, using(crate::proofs::Streams::counting))]
    /// A read gives as many bytes as fit. One that fails gives none.
    fn read(&mut self, buf: &mut [u8]) -> Result<usize, Failed>
        requires { 0 < length buf.old }
        ensures fits { IfOk result (λ n. n ≤ length buf.old) }
        ensures given { IfOk result (λ n. Gives n self.old.left buf.new (Some self.new.left)) }
        ensures kept { OnErr result (self.new.left ≡ self.old.left) }
        ensures never_falls { failed_calls self.old.fail self.old.calls ≤ failed_calls self.new.fail self.new.calls }
        ensures failed { OnErr result (HasRisen (failed_calls self.old.fail self.old.calls) (failed_calls self.new.fail self.new.calls)) }
        ensures fails { is_err result ≡ is_to_fail self.old.fail self.old.calls }
        ensures calls { self.new.calls ≡ counted self.old.calls }
        ensures list { self.new.fail ≡ self.old.fail }
    {
        let failing = is_listed(&self.fail, self.calls);
        self.calls = self.calls.saturating_add(1);
        if failing {
            return Err(Failed);
        }
        let (_, left) = self.text.as_slice().split_at(self.at);
        let count = buf.len().min(left.len());
        let (given, _) = left.split_at(count);
        buf[..count].copy_from_slice(given);
        self.at += count;
        Ok(count)
    }
}
