//! The traits at the library's edges: where bytes come from and go to, the device that holds a region,
//! and the words of a structure.
#![tactic(auto)]

mod counters;
mod device;
mod draft;
mod fail_list;
mod stream;
mod text_sink;
mod text_source;
mod words;

pub use counters::Counters;
pub use device::{Device, Done};
pub use draft::{Draft, Drafted, WordWrite};
pub use stream::{Failed, Sink, Source};
pub use text_sink::TextSink;
pub use text_source::TextSource;
pub use words::{Pair, Reads, Words, WordsRefusal};

#[cfg(test)]
mod draft_tests;

#[cfg(test)]
mod tests {
    use super::*;
    use persist_model::List;
    use std::alloc::Global;
    use std::test::Fail;

    fn numbers(alloc: Global, list: &[u64]) -> Option<List<u64>> {
        let mut numbers = List::new(alloc);
        for number in list {
            numbers.push(*number).ok()?;
        }
        Some(numbers)
    }

    fn text(alloc: Global, bytes: &[u8]) -> Option<List<u8>> {
        let mut text = List::new(alloc);
        for byte in bytes {
            text.push(*byte).ok()?;
        }
        Some(text)
    }

    #[test]
    fn a_source_fails_where_it_is_told_to(rt: HostRuntime) -> Result<(), Fail> {
        let alloc = rt.alloc();
        let (Some(text), Some(fail)) = (text(alloc, b"hello"), numbers(alloc, &[1])) else {
            assert!(rt; false);
            return Ok(());
        };
        let mut source = TextSource::new(text, fail);
        let mut buf = [0u8; 3];
        assert_eq!(rt; source.read(&mut buf), Ok(3));
        assert_eq!(rt; &buf, b"hel");
        assert_eq!(rt; source.read(&mut buf), Err(Failed));
        assert_eq!(rt; source.read(&mut buf), Ok(2));
        assert_eq!(rt; &buf, b"lol");
        assert_eq!(rt; source.read(&mut buf), Ok(0));
        Ok(())
    }

    #[test]
    fn a_sink_fails_where_it_is_told_to_and_past_its_room(rt: HostRuntime) -> Result<(), Fail> {
        let alloc = rt.alloc();
        let Some(fail) = numbers(alloc, &[1]) else {
            assert!(rt; false);
            return Ok(());
        };
        let Ok(mut sink) = TextSink::new(alloc, 6, fail) else {
            assert!(rt; false);
            return Ok(());
        };
        assert_eq!(rt; sink.write(b"abc"), Ok(()));
        assert_eq!(rt; sink.write(b"x"), Err(Failed));
        assert_eq!(rt; sink.write(b"defg"), Err(Failed));
        assert_eq!(rt; sink.write(b"def"), Ok(()));
        assert_eq!(rt; sink.text(), b"abcdef".as_slice());
        Ok(())
    }
}
