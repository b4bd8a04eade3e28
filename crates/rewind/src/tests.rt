use crate::replay::rewind_replay;
use crate::status::Status;
use lane_traits::{TextSink, TextSource};
use persist_model::List;
use std::alloc::{AllocError, Global};
use std::process::Abort;
use std::test::Fail;
use word_region::PlainCells;

const FIRST: &[u8] =
    b"region force 4 16\nlog simple\nmap cells\nlane\nbegin 0\nput 0 3 7\ncommit\n";

const TWO: &[u8] =
    b"region force 4 16\nlog simple\nmap cells\nlane\nbegin 0\nput 0 3 7\nput 0 0 1\ncommit\nbegin 0 0\nput 0 3 09\ncommit\n";

/// A call, and what it is to answer.
#[derive(Drop)]
pub struct Case<'a> {
    pub words: &'a [&'a str],
    pub script: &'a [u8],
    pub failing_reads: &'a [u64],
    pub failing_writes: &'a [u64],
    pub budget: u64,
    pub status: Status,
    pub text: &'a [u8],
}

/// The words `run`, with nothing that fails or stops.
fn run<'a>(script: &'a [u8], status: Status, text: &'a [u8]) -> Case<'a> {
    Case {
        words: &["run"],
        script,
        failing_reads: &[],
        failing_writes: &[],
        budget: u64::MAX,
        status,
        text,
    }
}

/// The words `recover`.
pub fn recover<'a>(image: &'a [u8], status: Status, text: &'a [u8]) -> Case<'a> {
    Case {
        words: &["recover"],
        ..run(image, status, text)
    }
}

/// The words `recover image`.
pub fn recover_image<'a>(image: &'a [u8], status: Status, text: &'a [u8]) -> Case<'a> {
    Case {
        words: &["recover", "image"],
        ..run(image, status, text)
    }
}

/// The words `migrate`.
pub fn migrate<'a>(image: &'a [u8], status: Status, text: &'a [u8]) -> Case<'a> {
    Case {
        words: &["migrate"],
        ..run(image, status, text)
    }
}

fn list<T: Copy + Drop>(alloc: Global, items: &[T]) -> Result<List<T>, AllocError> {
    let mut list = List::new(alloc);
    for item in items {
        if list.push(*item).is_err() {
            return Err(AllocError);
        }
    }
    Ok(list)
}

fn strings(alloc: Global, words: &[&str]) -> Result<Vec<String>, AllocError> {
    let mut strings = Vec::new(alloc);
    for word in words {
        strings.push(String::from_str(alloc, *word)?)?;
    }
    Ok(strings)
}

pub fn check(rt: &(impl Abort + AllocGlobal), case: Case<'_>) -> Result<(), AllocError> {
    let alloc = rt.alloc();
    let words = strings(alloc, case.words)?;
    let mut script = TextSource::new(list(alloc, case.script)?, list(alloc, case.failing_reads)?);
    let Ok(mut out) = TextSink::new(alloc, 1000, list(alloc, case.failing_writes)?) else {
        return Err(AllocError);
    };
    let region = PlainCells::new(alloc, case.budget);
    let (status, _) = rewind_replay(alloc, &words, &mut script, region, &mut out);
    assert_eq!(rt; status, case.status);
    assert_eq!(rt; out.text(), case.text);
    Ok(())
}

/// What the words write of an input.
pub fn told(
    rt: &(impl Abort + AllocGlobal),
    words: &[&str],
    input: &[u8],
) -> Result<List<u8>, AllocError> {
    let alloc = rt.alloc();
    let words = strings(alloc, words)?;
    let mut source = TextSource::new(list(alloc, input)?, List::new(alloc));
    let Ok(mut out) = TextSink::new(alloc, 1000, List::new(alloc)) else {
        return Err(AllocError);
    };
    let region = PlainCells::new(alloc, u64::MAX);
    let _ = rewind_replay(alloc, &words, &mut source, region, &mut out);
    list(alloc, out.text())
}

/// The text isn't run.
fn refused(rt: &(impl Abort + AllocGlobal), script: &[u8], text: &[u8]) -> Result<(), AllocError> {
    check(rt, run(script, Status::Script, text))
}

/// The words aren't known.
pub fn misused(rt: &(impl Abort + AllocGlobal), words: &[&str]) -> Result<(), AllocError> {
    check(
        rt,
        Case {
            words,
            ..run(FIRST, Status::Usage, b"usage\n")
        },
    )
}

#[test]
fn scripts_run_and_report(rt: HostRuntime) -> Result<(), Fail> {
    check(
        &rt,
        run(FIRST, Status::Done, b"commit 0 0\nmap 0\n3 7\nend\n"),
    )?;
    let no_lanes = b"region force 4 16\nlog simple\nmap cells\n";
    check(&rt, run(no_lanes, Status::Done, b"map 0\nend\n"))?;
    let two = b"commit 0 0\ncommit 0 1\nmap 0\n0 1\n3 9\nend\n";
    check(&rt, run(TWO, Status::Done, two))?;
    Ok(())
}

#[test]
fn a_device_stops_a_run(rt: HostRuntime) -> Result<(), Fail> {
    let none = b"stopped\n".as_slice();
    let one = b"commit 0 0\nstopped\n".as_slice();
    for (budget, text) in [(0, none), (2, none), (3, one), (4, one)] {
        check(
            &rt,
            Case {
                budget,
                ..run(TWO, Status::Stopped, text)
            },
        )?;
    }
    let two = b"commit 0 0\ncommit 0 1\nmap 0\n0 1\n3 9\nend\n";
    check(
        &rt,
        Case {
            budget: 5,
            ..run(TWO, Status::Done, two)
        },
    )?;
    Ok(())
}

#[test]
fn faults_and_wrong_words_have_their_status(rt: HostRuntime) -> Result<(), Fail> {
    check(
        &rt,
        Case {
            failing_reads: &[0],
            ..run(FIRST, Status::ReadFault, b"")
        },
    )?;
    check(
        &rt,
        Case {
            failing_reads: &[1],
            ..run(FIRST, Status::ReadFault, b"")
        },
    )?;
    check(
        &rt,
        Case {
            failing_writes: &[0],
            ..run(FIRST, Status::WriteFault, b"")
        },
    )?;
    misused(&rt, &[])?;
    misused(&rt, &["walk"])?;
    misused(&rt, &["run", "run"])?;
    misused(&rt, &["recover", "run"])?;
    misused(&rt, &["image", "recover"])?;
    misused(&rt, &["recover", "image", "image"])?;
    Ok(())
}

#[test]
fn wrong_texts_name_their_line_and_kind(rt: HostRuntime) -> Result<(), Fail> {
    refused(&rt, b"", b"script 1 unfinished\n")?;
    refused(
        &rt,
        b"region force 4 16\nlog simple\n",
        b"script 3 unfinished\n",
    )?;
    refused(
        &rt,
        b"region force 3 16\nlog simple\nmap cells\n",
        b"script 1 range\n",
    )?;
    refused(
        &rt,
        b"region force 4 16\nlog simple\nmaps\n",
        b"script 3 word\n",
    )?;
    refused(
        &rt,
        b"region force 4 16\nlog simple\nmap cells\nlane\nbegin 0\n",
        b"script 6 unfinished\n",
    )?;
    refused(
        &rt,
        b"region force 4 16\nlog simple\nmap cells\nlane\nbegin 0\nput 0 12 1\ncommit\n",
        b"script 6 key\n",
    )?;
    refused(
        &rt,
        b"region force 4 16\nlog simple\nmap cells\nlane\nbegin 0\nput 0 0 0\ncommit\n",
        b"script 6 value\n",
    )?;
    Ok(())
}

#[test]
fn scripts_that_want_more_are_refused(rt: HostRuntime) -> Result<(), Fail> {
    let form = b"script 0 form\n".as_slice();
    refused(&rt, b"region noforce 4 16\nlog simple\nmap cells\n", form)?;
    refused(&rt, b"region force 4 16\nlog bucket\nmap cells\n", form)?;
    refused(&rt, b"region force 4 16\nlog simple\nmap tree\n", form)?;
    refused(
        &rt,
        b"region force 4 16\nlog simple\nmap cells\nlane\nlane\n",
        form,
    )?;
    refused(
        &rt,
        b"region force 4 16\nlog simple\nmap cells\nlane\nbegin 0\nabort\n",
        form,
    )?;
    Ok(())
}

#[test]
fn blanks_and_comments_are_passed_over(rt: HostRuntime) -> Result<(), Fail> {
    let script =
        b"# a map\r\n\r\nregion  force 4 16\r\nlog simple\nmap cells\nlane\nbegin 0\n\tput 0 3 7 \ncommit";
    check(
        &rt,
        run(script, Status::Done, b"commit 0 0\nmap 0\n3 7\nend\n"),
    )?;
    Ok(())
}

#[test]
fn a_long_text_is_refused(rt: HostRuntime) -> Result<(), Fail> {
    let long = vec![in rt.alloc(); b'\n'; 1_048_577]?;
    check(&rt, run(&long, Status::TooLong, b"toolong\n"))?;
    Ok(())
}

#[test]
fn a_long_image_text_is_refused(rt: HostRuntime) -> Result<(), Fail> {
    let long = vec![in rt.alloc(); b'\n'; 33_554_433]?;
    check(&rt, recover(&long, Status::TooLong, b"toolong\n"))?;
    Ok(())
}

#[test]
fn texts_that_are_no_image_name_their_line(rt: HostRuntime) -> Result<(), Fail> {
    check(&rt, recover(b"", Status::Script, b"script 1 image\n"))?;
    check(
        &rt,
        recover_image(b"image 4\nmap cells\n", Status::Script, b"script 3 image\n"),
    )?;
    check(&rt, recover(FIRST, Status::Script, b"script 1 image\n"))?;
    Ok(())
}

#[test]
fn a_text_that_was_cut_names_the_line_behind_it(rt: HostRuntime) -> Result<(), Fail> {
    let image =
        b"image 352\nmap cells\n0 52574e4400000001\n1 0000000000000001\n2 0000000000000001\n3 0000000000000004\n4 0000000000000010\n5 0000000000000001\n8 0000000000000020\n9 0000000000000020\n";
    check(&rt, recover(image, Status::Script, b"script 11 image\n"))?;
    Ok(())
}

#[test]
fn reads_and_writes_of_an_image_may_fail(rt: HostRuntime) -> Result<(), Fail> {
    check(
        &rt,
        Case {
            failing_reads: &[0],
            ..recover(b"image 4\n", Status::ReadFault, b"")
        },
    )?;
    check(
        &rt,
        Case {
            failing_writes: &[0],
            ..recover(b"image 4\n", Status::WriteFault, b"")
        },
    )?;
    Ok(())
}

#[test]
fn a_region_without_its_magic(rt: HostRuntime) -> Result<(), Fail> {
    let image =
        b"image 352\nmap cells\n1 0000000000000001\n2 0000000000000001\n3 0000000000000004\n4 0000000000000010\n5 0000000000000001\n8 0000000000000020\n9 0000000000000020\n40 0000000000000001\n41 0000000000000001\n42 0000000000000001\n43 0000000000000067\n45 0000000000000007\n96 0000000000000001\n103 0000000000000007\nend\n";
    check(&rt, recover(image, Status::Unsound, b"unsound 1 0\n"))?;
    Ok(())
}

#[test]
fn a_policy_that_is_none(rt: HostRuntime) -> Result<(), Fail> {
    let image =
        b"image 352\nmap cells\n0 52574e4400000002\n1 0000000000000003\n2 0000000000000001\n3 0000000000000004\n4 0000000000000010\n5 0000000000000001\n6 0000000000000001\n8 0000000000000020\n9 0000000000000020\n13 0000000000000001\n40 0000000000000001\n41 0000000000000001\n42 0000000000000001\n43 0000000000000067\n45 0000000000000007\n96 0000000000000001\n103 0000000000000007\nend\n";
    check(&rt, recover(image, Status::Unsound, b"unsound 2 1\n"))?;
    Ok(())
}

#[test]
fn a_bucket_of_two_cells(rt: HostRuntime) -> Result<(), Fail> {
    let image =
        b"image 352\nmap cells\n0 52574e4400000002\n1 0000000000000001\n2 0000000000000002\n3 0000000000000004\n4 0000000000000010\n5 0000000000000001\n6 0000000000000001\n8 0000000000000020\n9 0000000000000020\n13 0000000000000001\n40 0000000000000001\n41 0000000000000001\n42 0000000000000001\n43 0000000000000067\n45 0000000000000007\n96 0000000000000001\n103 0000000000000007\nend\n";
    check(&rt, recover(image, Status::Unsound, b"unsound 3 2\n"))?;
    Ok(())
}

#[test]
fn too_few_buckets(rt: HostRuntime) -> Result<(), Fail> {
    let image =
        b"image 352\nmap cells\n0 52574e4400000002\n1 0000000000000001\n2 0000000000000001\n3 0000000000000003\n4 0000000000000010\n5 0000000000000001\n6 0000000000000001\n8 0000000000000020\n9 0000000000000020\n13 0000000000000001\n40 0000000000000001\n41 0000000000000001\n42 0000000000000001\n43 0000000000000067\n45 0000000000000007\n96 0000000000000001\n103 0000000000000007\nend\n";
    check(&rt, recover(image, Status::Unsound, b"unsound 4 3\n"))?;
    Ok(())
}

#[test]
fn a_word_too_many(rt: HostRuntime) -> Result<(), Fail> {
    let image =
        b"image 353\nmap cells\n0 52574e4400000002\n1 0000000000000001\n2 0000000000000001\n3 0000000000000004\n4 0000000000000010\n5 0000000000000001\n6 0000000000000001\n8 0000000000000020\n9 0000000000000020\n13 0000000000000001\n40 0000000000000001\n41 0000000000000001\n42 0000000000000001\n43 0000000000000067\n45 0000000000000007\n96 0000000000000001\n103 0000000000000007\nend\n";
    check(&rt, recover(image, Status::Unsound, b"unsound 4 0\n"))?;
    Ok(())
}

#[test]
fn too_many_partitions(rt: HostRuntime) -> Result<(), Fail> {
    let image =
        b"image 352\nmap cells\n0 52574e4400000002\n1 0000000000000001\n2 0000000000000001\n3 0000000000000004\n4 0000000000000010\n5 0000000000000001\n6 0000000000000004\n8 0000000000000020\n9 0000000000000020\n13 0000000000000001\n40 0000000000000001\n41 0000000000000001\n42 0000000000000001\n43 0000000000000067\n45 0000000000000007\n96 0000000000000001\n103 0000000000000007\nend\n";
    check(&rt, recover(image, Status::Unsound, b"unsound 4 6\n"))?;
    Ok(())
}

#[test]
fn a_kind_that_is_none(rt: HostRuntime) -> Result<(), Fail> {
    let image =
        b"image 352\nmap cells\n0 52574e4400000002\n1 0000000000000001\n2 0000000000000001\n3 0000000000000004\n4 0000000000000010\n5 0000000000000001\n6 0000000000000001\n8 0000000000000020\n9 0000000000000020\n13 0000000000000004\n40 0000000000000001\n41 0000000000000001\n42 0000000000000001\n43 0000000000000067\n45 0000000000000007\n96 0000000000000001\n103 0000000000000007\nend\n";
    check(&rt, recover(image, Status::Unsound, b"unsound 4 13\n"))?;
    Ok(())
}
