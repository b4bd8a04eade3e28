ghost use Rattle.std.specs.Prelude.{◌≡◌, ◌⊎◌, ℕ, ◌+◌, ◌<◌, ◌≤◌, [], ◌++◌, length, Some, IfOk, OnOk, OnErr, IsErr, ◌↔◌, IsTrue, if◌then◌else◌};
ghost use Rattle.lane_traits.specs.Stream.{sink_faults, is_to_fail, passes_room, HasRisen};
ghost use Rattle.lane_traits.specs.Device.{counted};

use crate::fail_list::is_listed;
use crate::stream::{Failed, Sink};
use persist_model::{List, NoMemory};
use std::alloc::Global;
use std::marker::Model;

/// A sink that keeps a text in memory, for tests: chosen writes fail, and those that would pass its room.
///
/// All memory is taken at the making.
#[derive(Drop)]
pub struct TextSink {
    text: Vec<u8>,
    room: u64,
    fail: List<u64>,
    calls: u64,
    passed: u64,
}

impl Model for TextSink {
    ghost use Rattle.std.specs.Prelude.{◌≤◌, length, vec_capacity};
    ghost use Rattle.lane_traits.specs.Stream.{SinkState};

    ghost Value = { SinkState };

    ghost view = { λ s. record { text = s.text.items; room = s.room; fail = s.fail; calls = s.calls; passed = s.passed } };

    ghost invariant = { λ s. (s.room ≤ vec_capacity s.text) × (length s.text.items ≤ s.room) };
}

impl TextSink {
    /// A sink with room for so many bytes. The writes whose numbers, from 0, are in `fail` fail.
    pub fn new(alloc: Global, room: u64, fail: List<u64>) -> Result<TextSink, NoMemory>
        ensures { IfOk result (λ sink. sink ≡ record { text = []; room = room; fail = fail; calls = 0; passed = 0 }) }
    {
        let text = Vec::with_capacity(alloc, room as usize)?;
        Ok(TextSink {
            text,
            room,
            fail,
            calls: 0,
            passed: 0,
        })
    }

    /// What was written.
    pub fn text(&self) -> &[u8]
        ensures { result.now ≡ self.now.text }
    {
        self.text.as_slice()
    }
}

impl Sink for TextSink {
    ghost written = { λ s. Some s.text };

    ghost faults = { λ s. sink_faults s };

    #[tactic(auto, using(crate::proofs::Streams::counting))]
    /// A write that fails appends nothing.
    fn write(&mut self, bytes: &[u8]) -> Result<(), Failed>
        ensures appended { OnOk result (self.new.text ≡ self.old.text ++ bytes.now) }
        ensures kept { OnErr result (self.new.text ≡ self.old.text) }
        ensures never_falls { sink_faults self.old ≤ sink_faults self.new }
        ensures failed { OnErr result (HasRisen (sink_faults self.old) (sink_faults self.new)) }
        ensures fails { IsErr result ↔ (IsTrue (is_to_fail self.old.fail self.old.calls) ⊎ IsTrue (passes_room self.old (length bytes.now))) }
        ensures calls { self.new.calls ≡ counted self.old.calls }
        ensures list { self.new.fail ≡ self.old.fail }
        ensures room { self.new.room ≡ self.old.room }
        ensures passed { self.new.passed ≡ (if passes_room self.old (length bytes.now) then counted self.old.passed else self.old.passed) }
    {
        let failing = is_listed(&self.fail, self.calls);
        self.calls = self.calls.saturating_add(1);
        if failing {
            return Err(Failed);
        }
        let room = self.room as usize - self.text.len();
        if room < bytes.len() {
            self.passed = self.passed.saturating_add(1);
            return Err(Failed);
        }
        let _ = self.text.extend_from_slice(bytes);
        Ok(())
    }
}
