//! Worked texts.
use crate::{TextFault, read_image, write_image};
use region_layout::Kind;
use std::test::Fail;
use test_regions::Row;

/// A region with one cells map, into which the put of 7 at key 3 has come as far as its word.
const HALF_PUT: &[u8] =
    b"image 352\nmap cells\n0 52574e4400000002\n1 0000000000000001\n2 0000000000000001\n3 0000000000000004\n4 0000000000000010\n5 0000000000000001\n6 0000000000000001\n8 0000000000000020\n9 0000000000000020\n13 0000000000000001\n40 0000000000000001\n41 0000000000000001\n42 0000000000000001\n43 0000000000000067\n45 0000000000000007\n96 0000000000000001\n103 0000000000000007\nend\n";

#[test]
fn an_image_is_written_as_it_was_read(rt: HostRuntime) -> Result<(), Fail> {
    let image = read_image(rt.alloc(), HALF_PUT)?;
    assert_eq!(rt; image.kinds.get(0).copied(), Some(Kind::Cells));
    assert_eq!(rt; image.kinds.len(), 1);
    assert_eq!(rt; image.words.get(3).copied(), Some(4));
    assert_eq!(rt; image.words.get(103).copied(), Some(7));
    assert_eq!(rt; image.words.get(104).copied(), Some(0));
    let words = Vec::from_slice(rt.alloc(), image.words.as_slice())?;
    assert!(rt; words.len() < 1000);
    assert_eq!(rt; words.len(), 352);
    let text = write_image(rt.alloc(), &Row::new(words), image.kinds.as_slice())?;
    assert_eq!(rt; text.as_slice(), HALF_PUT);
    Ok(())
}

#[test]
fn digits_are_read_in_either_case_and_written_in_one(rt: HostRuntime) -> Result<(), Fail> {
    let image = read_image(
        rt.alloc(),
        b"image 11\nmap tree\nmap hash\n0 0000000000000000\n10 00fFaA0123456789\nend",
    )?;
    let words = Vec::from_slice(rt.alloc(), image.words.as_slice())?;
    assert!(rt; words.len() < 1000);
    let text = write_image(rt.alloc(), &Row::new(words), image.kinds.as_slice())?;
    assert_eq!(rt;
        text.as_slice(),
        b"image 11\nmap tree\nmap hash\n10 00ffaa0123456789\nend\n".as_slice()
    );
    Ok(())
}

#[test]
fn the_first_wrong_line_is_named(rt: HostRuntime) -> Result<(), Fail> {
    let cases: [(&[u8], u64); 27] = [
        (b"", 1),
        (b"\n", 1),
        (b"image\n", 1),
        (b"image 1187873\n", 1),
        (b"image 01\n", 1),
        (b"image 4 \n", 1),
        (b"image  4\n", 1),
        (b"image 4\r\n", 1),
        (b"image 4", 2),
        (b"image 4\nend\n", 2),
        (b"image 4\nmap heap\n", 2),
        (b"image 4\nmap cells\n", 3),
        (b"image 4\nmap cells\nimage 4\n", 3),
        (b"image 4\nmap cells\n4 0000000000000001\n", 3),
        (b"image 4\nmap cells\n00 0000000000000001\n", 3),
        (b"image 4\nmap cells\n0 000000000000001\n", 3),
        (b"image 4\nmap cells\n0 00000000000000001\n", 3),
        (b"image 4\nmap cells\n0 000000000000000g\n", 3),
        (
            b"image 4\nmap cells\n2 0000000000000001\n2 0000000000000001\n",
            4,
        ),
        (
            b"image 4\nmap cells\n2 0000000000000001\n1 0000000000000001\n",
            4,
        ),
        (b"image 4\nmap cells\n2 0000000000000001\nmap cells\n", 4),
        (b"image 4\nmap cells\n2 0000000000000001\n", 4),
        (b"image 4\nmap cells\nend\n\n", 4),
        (b"image 4\nmap cells\nend\nend\n", 4),
        (b"image 4\nmap cells\nEnd\n", 3),
        // the text of the half put, cut after its tenth line
        (
            b"image 352\nmap cells\n0 52574e4400000002\n1 0000000000000001\n2 0000000000000001\n3 0000000000000004\n\
            4 0000000000000010\n5 0000000000000001\n6 0000000000000001\n8 0000000000000020\n",
            11,
        ),
        (
            b"image 4\nmap cells\nmap cells\nmap cells\nmap cells\nmap cells\nmap cells\nmap cells\nmap cells\nmap cells\nend\n",
            10,
        ),
    ];
    for (text, line) in cases {
        assert!(rt;
            read_image(rt.alloc(), text).err() == Some(TextFault::Line(line)),
            "at {line}"
        );
    }
    Ok(())
}
