// A whole case, and every fault at its line.
use casetext::{ReadError, read};
use std::alloc::{AllocError, Global};
use std::test::Fail;

// Two components in parallel.
const LINES: [&str; 9] = [
    "components=2",
    "levels=1",
    "tops=1,1",
    "tags=7,4294967295",
    "table=0111",
    "up=900000000",
    "down=100000000",
    "up=1000000000",
    "down=0",
];

// These lines with another in the place of one of them.
fn changed(heap: Global, place: usize, other: &str) -> Result<Vec<u8>, AllocError> {
    let mut text = Vec::new(heap);
    for (number, line) in (1..=LINES.len()).zip(LINES) {
        let line = if number == place { other } else { line };
        text.extend_from_slice(line.as_bytes())?;
        text.push(b'\n')?;
    }
    Ok(text)
}

// The number and the line of the fault; none where a case was read.
fn outcome(heap: Global, text: &[u8]) -> Result<Option<(u8, usize)>, Fail> {
    match read(heap, text) {
        Ok(_) => Ok(None),
        Err(ReadError::Fault(fault)) => Ok(Some((fault.refusal.number(), fault.line))),
        Err(ReadError::Memory(error)) => Err(Fail::from(error)),
    }
}

#[test]
fn reads_a_case(rt: HostRuntime) -> Result<(), Fail> {
    let text = changed(rt.alloc(), 0, "")?;
    let case = read(rt.alloc(), &text)?;
    assert!(rt; case.tops.as_slice() == [1, 1].as_slice());
    assert_eq!(rt; case.best, 1);
    assert!(rt; case.tags.as_slice() == [7, 4294967295].as_slice());
    assert!(rt; case.levels.as_slice() == [0, 1, 1, 1].as_slice());
    assert!(rt; case.rows.len() == 2);
    assert!(rt;
        case.rows[0].up.as_slice() == [900000000].as_slice()
            && case.rows[0].down.as_slice() == [100000000].as_slice()
    );
    assert!(rt;
        case.rows[1].up.as_slice() == [1000000000].as_slice()
            && case.rows[1].down.as_slice() == [0].as_slice()
    );
    Ok(())
}

#[test]
fn one_line_changed(rt: HostRuntime) -> Result<(), Fail> {
    let table = [
        (1, "components=0", 10, 1),
        (1, "components=13", 10, 1),
        (1, "components=12", 11, 3),
        (1, "components=4294967295", 10, 1),
        (1, "components=4294967296", 41, 1),
        (1, "components=02", 41, 1),
        (1, "components=2\r", 41, 1),
        (1, "components=", 41, 1),
        (1, "components", 40, 1),
        (1, " components=2", 40, 1),
        (2, "levels=0", 13, 2),
        (2, "levels=8", 13, 2),
        (2, "levels=7", 17, 5),
        (3, "tops=1", 11, 3),
        (3, "tops=1,1,0", 11, 3),
        (3, "tops=0,1", 12, 3),
        (3, "tops=1,8", 12, 3),
        (3, "tops=1,7", 15, 5),
        (3, "tops=", 41, 3),
        (3, "tops=,1", 41, 3),
        (3, "tops=1,", 41, 3),
        (3, "tops=1,,1", 41, 3),
        (4, "tags=7", 11, 4),
        (4, "tags=7,4294967296", 41, 4),
        (5, "table=", 15, 5),
        (5, "table=01111", 15, 5),
        (5, "table=8", 41, 5),
        (5, "table=0112", 16, 5),
        (5, "table=0110", 17, 5),
        (5, "table=1111", 17, 5),
        (6, "down=1", 40, 6),
        (6, "up=1,", 41, 6),
        (6, "up=1,1", 21, 7),
        (6, "up=1000000001", 22, 7),
        (6, "up=900000001", 24, 7),
        (7, "down=-1", 41, 7),
        (7, "down=1000000001\nanother", 22, 7),
        (8, "up=0,1", 21, 9),
        (9, "down=1", 24, 9),
        (9, "down=0\n", 42, 10),
        (9, "down=0\nmore", 42, 10),
    ];
    for (place, other, number, line) in table {
        let text = changed(rt.alloc(), place, other)?;
        assert_eq!(rt;
            outcome(rt.alloc(), &text)?,
            Some((number, line)),
            "{}",
            other
        );
    }
    Ok(())
}

#[test]
fn whole_texts(rt: HostRuntime) -> Result<(), Fail> {
    let table = [
        ("", Some((40, 1))),
        ("\0\u{7f}\n", Some((40, 1))),
        ("components=2\r\nlevels=1\r\n", Some((41, 1))),
        ("components=6\nlevels=1\ntops=7,7,7,7,7,1\n", Some((40, 4))),
        ("components=6\nlevels=1\ntops=7,7,7,7,7,2\n", Some((14, 3))),
        (
            "components=2\nlevels=1\ntops=2,1\ntags=1,2\ntable=011011\n",
            Some((18, 5)),
        ),
        (
            "components=1\nlevels=2\ntops=2\ntags=1\ntable=012\nup=5,6\ndown=0,0\n",
            Some((23, 7)),
        ),
        (
            "components=1\nlevels=2\ntops=2\ntags=1\ntable=012\nup=6,5\ndown=3,2\n",
            Some((23, 7)),
        ),
        (
            "components=1\nlevels=2\ntops=2\ntags=1\ntable=012\nup=6,5\ndown=2,3\n",
            None,
        ),
        (
            "components=1\nlevels=2\ntops=2\ntags=1\ntable=012\nup=6,5\ndown=2,3",
            Some((40, 7)),
        ),
    ];
    for (text, fault) in table {
        assert_eq!(rt; outcome(rt.alloc(), text.as_bytes())?, fault, "{}", text);
    }
    Ok(())
}

#[test]
fn long_texts(rt: HostRuntime) -> Result<(), Fail> {
    let heap = rt.alloc();
    assert_eq!(rt;
        outcome(heap, &vec![in heap; b','; 65_537]?)?,
        Some((39, 0))
    );
    assert_eq!(rt;
        outcome(heap, &vec![in heap; b','; 65_536]?)?,
        Some((40, 1))
    );
    let mut commas = vec![in heap; b','; 60_000]?;
    commas.push(b'\n')?;
    let mut text = Vec::from_slice(heap, b"components=1\nlevels=1\ntops=")?;
    text.extend_from_slice(&commas)?;
    assert_eq!(rt; outcome(heap, &text)?, Some((41, 3)));
    Ok(())
}
