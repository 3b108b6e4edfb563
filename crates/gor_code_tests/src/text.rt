//! Tests of texts.
use gor_model::{Bytes, Merged, Point, Points, Reply};
use gor_text::{LaneAnswer, MergedPoints, Reason, TextFault, What, read_workload, write_answer};
use std::alloc::{AllocError, Global};

/// The first bad line of a text, or 0 where there is none.
fn first_bad(alloc: Global, text: &[u8]) -> u64 {
    match read_workload(alloc, text) {
        Ok(_) => 0,
        Err(TextFault::Line { line }) => line,
        Err(TextFault::NoMemory) => u64::MAX,
    }
}

#[test]
fn lines_that_are_none_are_named(rt: HostRuntime) {
    let rows = [
        (b"".as_slice(), 0),
        (
            b"\n# comment\n\n7 del a\njoin\n0 flush 3\n1 finish 0 9\n2 merge 0 5 a b\n",
            0,
        ),
        (b"0 put a 1 0000000000000000", 0),
        (
            b"0 get a 0 18446744073709551615\n0 get a 0 18446744073709551616\n",
            2,
        ),
        (b"8 del a\n", 1),
        (b"0 put a 01 0000000000000000\n", 1),
        (b"0 put a -5 0000000000000000\n", 1),
        (b"#\n0 put  a 1 0000000000000000\n", 2),
        (b"0 put a 1 000000000000000\n", 1),
        (b"0 put a 1 000000000000000A\n", 1),
        (b"0\tdel a\n", 1),
        (b"join\r\n", 1),
        (b"0 del a \n", 1),
        (b"0 merge 0 5\n", 1),
        (b"# \xff\n", 1),
        (b"0 del a\n\n0 Del a\n0 DEL b\n", 3),
    ];
    for (text, line) in rows {
        assert_eq!(rt; first_bad(rt.alloc(), text), line, "in {text:?}");
    }
}

/// The line of an answer, or nothing for want of memory.
fn line_of(alloc: Global, what: What) -> Result<Vec<u8>, AllocError> {
    let mut out = Vec::new(alloc);
    write_answer(&mut out, &LaneAnswer { lane: 3, what })?;
    Ok(out)
}

fn event(reply: Reply) -> What {
    What::Event {
        shard: 1,
        number: 20,
        reply,
    }
}

#[test]
fn answers_have_their_lines(rt: HostRuntime) -> Result<(), AllocError> {
    let alloc = rt.alloc();
    let mut points = Points::new(alloc);
    points.push(Point { time: 10, word: 1 })?;
    let mut merged = MergedPoints::new(alloc);
    merged.push(Merged {
        place: 2,
        point: Point { time: 10, word: 1 },
    })?;
    let name = Bytes::from_vec(b"CPU".to_vec(alloc)?);
    let points = line_of(alloc, event(Reply::Points(points)))?;
    assert_eq!(rt;
        points.as_slice(),
        b"3 1:20 points 1 10:0000000000000001\n".as_slice()
    );
    let merged = line_of(alloc, What::Merged(merged))?;
    assert_eq!(rt;
        merged.as_slice(),
        b"3 = 1 2:10:0000000000000001\n".as_slice()
    );
    let seal = line_of(alloc, event(Reply::Seal { name }))?;
    assert_eq!(rt; seal.as_slice(), b"3 1:20 seal CPU\n".as_slice());
    let refused = line_of(alloc, What::Refused(Reason::Window))?;
    assert_eq!(rt; refused.as_slice(), b"3 - window\n".as_slice());
    Ok(())
}

#[test]
fn plain_answers_have_their_lines(rt: HostRuntime) -> Result<(), AllocError> {
    let rows = [
        (Reply::Stored { due: true }, b"3 1:20 stored\n".as_slice()),
        (Reply::Late { last: 7 }, b"3 1:20 late 7\n"),
        (Reply::Closed { floor: 7200 }, b"3 1:20 closed 7200\n"),
        (Reply::Full { slots: 2 }, b"3 1:20 full 2\n"),
        (Reply::Stopped, b"3 1:20 stopped\n"),
        (Reply::Absent, b"3 1:20 absent\n"),
        (Reply::Gone, b"3 1:20 gone\n"),
        (Reply::Floor { floor: 7200 }, b"3 1:20 floor 7200\n"),
        (Reply::Sealed { floor: 7200 }, b"3 1:20 sealed 7200\n"),
        (Reply::Take { changes: 5 }, b"3 1:20 take 5\n"),
        (Reply::Done { changes: 5 }, b"3 1:20 done 5\n"),
        (Reply::Stop, b"3 1:20 stop\n"),
    ];
    for (reply, text) in rows {
        let line = line_of(rt.alloc(), event(reply))?;
        assert_eq!(rt; line.as_slice(), text);
    }
    Ok(())
}
