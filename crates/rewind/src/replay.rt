//! Replays the script of an input.
ghost use Rattle.std.specs.Prelude.{◌≡◌, map, string_bytes, IfOk};
ghost use Rattle.rewind.specs.Call.{IsCauseOf, IsTextOutcome, IsJobOutcome, AreLimitsOf, IsAnswerTo, status_of, status_of_end, text_of, text_of_end};
ghost use Rattle.rewind.specs.Answered.{HasAnswered};

use crate::image_report::end_text;
use crate::input::{Unread, read_input};
use crate::report::{report_text, stop_text, wrong_text};
use crate::run::{Ran, run_script};
use crate::script::Script;
use crate::served::{Refusal, Wrong, read_served};
use crate::status::Status;
use crate::words::{Job, job_of};
use image_runner::{Ended, migrate_text, recover_text};
use lane_traits::{Device, Failed, Sink, Source};
use persist_model::NoMemory;
use std::alloc::Global;

/// What a call came to.
#[derive(Drop)]
pub enum Outcome {
    Usage,
    ReadFault,
    TooLong,
    /// The text is no script, or none that is run so far.
    Wrong(Wrong),
    NoMemory,
    /// The fences of so many transactions were made.
    Stopped { commits: u64 },
    Done(Script),
    /// What the recovery of an image came to.
    Recovery(Ended),
    /// What the migration of an image came to.
    Migration(Ended),
}

/// The status of an end.
fn status_of_end(end: &Ended) -> Status
    ensures { result ≡ status_of_end end.now }
{
    match end {
        Ended::Misread(_) => Status::Script,
        Ended::Unsound(_) => Status::Unsound,
        Ended::Stopped => Status::Stopped,
        Ended::Broken(_) => Status::Unsound,
        Ended::NoMemory => Status::NoMemory,
        Ended::Done(_) => Status::Done,
    }
}

impl Outcome {
    /// The status that it ends with.
    fn status(&self) -> Status
        ensures { result ≡ status_of self.now }
    {
        match self {
            Outcome::Usage => Status::Usage,
            Outcome::ReadFault => Status::ReadFault,
            Outcome::TooLong => Status::TooLong,
            Outcome::Wrong(_) => Status::Script,
            Outcome::NoMemory => Status::NoMemory,
            Outcome::Stopped { .. } => Status::Stopped,
            Outcome::Done(_) => Status::Done,
            Outcome::Recovery(end) => status_of_end(end),
            Outcome::Migration(end) => status_of_end(end),
        }
    }

    /// What is to be written.
    fn text(&self, alloc: Global) -> Result<Vec<u8>, NoMemory>
        requires { AreLimitsOf self.now }
        ensures { IfOk result (λ text. text.items ≡ text_of self.now) }
    {
        match self {
            Outcome::Usage => Ok(Vec::from_slice(alloc, b"usage\n")?),
            Outcome::TooLong => Ok(Vec::from_slice(alloc, b"toolong\n")?),
            Outcome::Wrong(wrong) => Ok(wrong_text(alloc, *wrong)?),
            Outcome::ReadFault => Ok(Vec::new(alloc)),
            Outcome::NoMemory => Ok(Vec::new(alloc)),
            Outcome::Stopped { commits } => Ok(stop_text(alloc, *commits)?),
            Outcome::Done(script) => report_text(alloc, script.transactions.as_slice()),
            Outcome::Recovery(end) => end_text(alloc, end),
            Outcome::Migration(end) => end_text(alloc, end),
        }
    }
}

/// Runs the script that the source has on the region, or recovers or migrates the image that it has, and writes what came of it.
///
/// The words are those that the program is called with: `run`, `recover`, `recover image`, `migrate` and `migrate STOP PICK` are known.
/// Nothing is written before the job's end, and the device comes back as it is then.
pub fn rewind_replay<S: Source, K: Sink, D: Device>(
    alloc: Global,
    words: &[String],
    script: &mut S,
    region: D,
    out: &mut K,
) -> (Status, D)
    ensures { HasAnswered
        (record {
          words = map string_bytes words.now;
          left = S.left script.old;
          left_after = S.left script.new;
          faults = S.faults script.old;
          faults_after = S.faults script.new;
          region = D.cells region;
          region_after = D.cells result.1;
          counts = D.counts region;
          counts_after = D.counts result.1;
        })
        result.0
        (record {
          before = K.written out.old;
          later = K.written out.new;
          faults = K.faults out.old;
          faults_after = K.faults out.new;
        }) }
{
    let (outcome, region) = replay(alloc, words, script, region);
    let status = write_outcome(alloc, &outcome, out);
    (status, region)
}

/// Writes what is to be written, and answers how the call ends.
fn write_outcome<K: Sink>(alloc: Global, outcome: &Outcome, out: &mut K) -> Status
    requires { AreLimitsOf outcome.now }
    ensures { IsAnswerTo outcome.now result (record {
      before = K.written out.old;
      later = K.written out.new;
      faults = K.faults out.old;
      faults_after = K.faults out.new;
    }) }
{
    let Ok(text) = outcome.text(alloc) else {
        return Status::NoMemory;
    };
    if text.is_empty() {
        return outcome.status();
    }
    match out.write(&text) {
        Ok(()) => outcome.status(),
        Err(Failed) => Status::WriteFault,
    }
}

/// Reads the input and does the job with it on the region.
fn replay<S: Source, D: Device>(
    alloc: Global,
    words: &[String],
    source: &mut S,
    region: D,
) -> (Outcome, D)
    ensures limits { AreLimitsOf result.0 }
    ensures cause { IsCauseOf result.0 (record {
      words = map string_bytes words.now;
      left = S.left source.old;
      left_after = S.left source.new;
      faults = S.faults source.old;
      faults_after = S.faults source.new;
      region = D.cells region;
      region_after = D.cells result.1;
      counts = D.counts region;
      counts_after = D.counts result.1;
    }) }
{
    match job_of(words) {
        None => (Outcome::Usage, region),
        Some(job) => match read_input(alloc, source, job.limit()) {
            Err(Unread::Failed) => (Outcome::ReadFault, region),
            Err(Unread::TooLong) => (Outcome::TooLong, region),
            Err(Unread::NoMemory) => (Outcome::NoMemory, region),
            Ok(text) => do_job(alloc, job, &text, region),
        },
    }
}

/// Does the job with the text of its whole input.
fn do_job<D: Device>(alloc: Global, job: Job, text: &[u8], mut region: D) -> (Outcome, D)
    ensures limits { AreLimitsOf result.0 }
    ensures cause { IsJobOutcome job text.now (D.cells region) (D.counts region) (D.cells result.1) (D.counts result.1) result.0 }
{
    match job {
        Job::Run => {
            let outcome = run_text(alloc, text, &mut region);
            (outcome, region)
        }
        Job::Recover(wanted) => {
            let end = recover_text(alloc, text, wanted, &mut region);
            (Outcome::Recovery(end), region)
        }
        Job::Migrate(stop) => {
            let (end, region) = migrate_text(alloc, text, stop, region);
            (Outcome::Migration(end), region)
        }
    }
}

/// Makes the events of the script that the text says.
fn run_text<D: Device>(alloc: Global, text: &[u8], region: &mut D) -> Outcome
    ensures limits { AreLimitsOf result }
    ensures cause { IsTextOutcome text.now (D.cells region.old) (D.counts region.old) (D.cells region.new) (D.counts region.new) result }
{
    match read_served(alloc, text) {
        Err(Refusal::Wrong(wrong)) => Outcome::Wrong(wrong),
        Err(Refusal::NoMemory) => Outcome::NoMemory,
        Ok(script) => match run_script(alloc, &script, region) {
            Err(_) => Outcome::NoMemory,
            Ok(Ran::Stopped { commits }) => Outcome::Stopped { commits },
            Ok(Ran::Whole) => Outcome::Done(script),
        },
    }
}
