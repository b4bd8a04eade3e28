//! `rewind` runs a script on a region of words and writes a report, or recovers or migrates the image of a region.
#![tactic(auto)]

mod image_report;
mod input;
mod laws;
mod replay;
mod report;
mod run;
mod script;
mod served;
mod status;
mod streams;
mod table;
#[cfg(test)]
mod tests;
#[cfg(test)]
mod tests_migrate;
#[cfg(test)]
mod tests_recover;
mod words;

use pooled_region::Cells;
use replay::rewind_replay;
use status::Status;
use std::env;
use std::process::ExitCode;
use streams::{StdSink, StdSource};

fn main(rt: HostRuntime) -> ExitCode {
    let alloc = rt.alloc();
    let Ok(arguments) = env::args(&rt) else {
        return ExitCode::from(Status::NoMemory as u8);
    };
    let Ok(words) = arguments.skip(1).collect::<Vec<String>>(alloc) else {
        return ExitCode::from(Status::NoMemory as u8);
    };
    let mut script = StdSource::new(rt.stdin());
    let mut out = StdSink::new(rt.stdout());
    let region = Cells::new(alloc, u64::MAX);
    let (status, _) = rewind_replay(alloc, &words, &mut script, region, &mut out);
    ExitCode::from(status as u8)
}
