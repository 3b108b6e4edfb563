//! What runs on empty disks answer: workloads, words, lines, and faults of source and sink.
use crate::machine::Fails::{Nothing, Read, Write};
use crate::machine::Input::{self, Bytes, Comment, FourNames, LongName};
use crate::steps::Ends::{self, With};
use crate::steps::Step::Run;
use crate::steps::Text::{EndsWith, Is};
use crate::steps::{Case, OK, first_other, follow};
use gor_run::Status;
use std::alloc::AllocError;
use std::process::Abort;
use std::sync::Wait;
use std::thread::Threads;

const ROW: Input = Bytes(b"0 put a 1427162462 4028000000000000\n0 get a 0 4294965599\n");

const ANSWER: &[u8] = b"0 0:0 stored\n0 0:1 points 1 1427162462:4028000000000000\n";

const WORKLOADS: [Case; 4] = [
    ("no line", &[Run("run", Bytes(b""), Nothing, OK, Is(b""))]),
    (
        "a put and a get",
        &[Run("run", ROW, Nothing, OK, Is(ANSWER))],
    ),
    (
        "a tie",
        &[Run(
            "run",
            Bytes(
                b"# a tie\n0 put a 1427162462 0000000000000000\n0 put a 1427162462 0000000000000001\n\n0 put a 1427162463 0000000000000001\n0 get a 1427162463 1427162463",
            ),
            Nothing,
            OK,
            Is(
                b"0 0:0 stored\n0 0:1 late 1427162462\n0 0:2 stored\n0 0:3 points 1 1427162463:0000000000000001\n",
            ),
        )],
    ),
    (
        "an absent name",
        &[Run(
            "run",
            Bytes(b"0 get b 5 5\n0 put b 4294965599 ffffffffffffffff\n"),
            Nothing,
            OK,
            Is(b"0 0:0 absent\n0 0:1 stored\n"),
        )],
    ),
];

#[test]
fn workloads_are_answered(rt: HostRuntime) -> Result<(), AllocError> {
    follow(&rt, &WORKLOADS)
}

/// A name, an input, and its answers.
type Row = (&'static str, &'static [u8], &'static [u8]);

const NAMES: [Row; 6] = [
    (
        "three spellings of one series",
        b"0 put CPU 100 0000000000000001\n0 put cpu 101 0000000000000002\n0 get Cpu 0 200\n",
        b"0 0:0 stored\n0 0:1 stored\n0 0:2 points 2 100:0000000000000001 101:0000000000000002\n",
    ),
    (
        "a delete, and a new beginning with an earlier time",
        b"0 put a 1000 0000000000000001\n0 del a\n0 put a 500 0000000000000002\n0 get a 0 2000\n0 del b\n",
        b"0 0:0 stored\n0 0:1 gone\n0 0:2 stored\n0 0:3 points 1 500:0000000000000002\n0 0:4 absent\n",
    ),
    (
        "folding in another language: the letter is a sharp s",
        b"0 put Stra\xc3\x9fe 1 0000000000000001\n0 put STRASSE 2 0000000000000002\n0 get strasse 2 2\n",
        b"0 0:0 stored\n0 0:1 stored\n0 0:2 points 1 2:0000000000000002\n",
    ),
    (
        "two lanes on one name",
        b"0 put a 10 0000000000000001\njoin\n1 put a 20 0000000000000002\njoin\n0 put a 15 0000000000000003\njoin\n1 put a 40 0000000000000004\n",
        b"0 0:0 stored\n1 0:1 stored\n0 0:2 late 20\n1 0:3 stored\n",
    ),
    (
        "eight lanes and joins, one of them at the end: numbers go on, and refused calls have none",
        b"3 put a 1 0000000000000001\njoin\n7 get a 0 1\njoin\njoin\n5 put a 4294965600 0000000000000001\n0 get a 3 2\n2 get a 0 9\njoin\n",
        b"3 0:0 stored\n7 0:1 points 1 1:0000000000000001\n0 - range\n2 0:2 points 1 1:0000000000000001\n5 - time\n",
    ),
    (
        "the first reason that holds: the name, then the time or the range",
        b"0 put \x01 4294965600 0000000000000001\n0 get \x01 9 0\n0 del \x01\n0 put a 4294965600 0000000000000001\n0 get a 9 0\n",
        b"0 - name\n0 - name\n0 - name\n0 - time\n0 - range\n",
    ),
];

const SLOTS: [Row; 1] = [(
    "two slots for three names",
    b"0 put a 10 0000000000000001\n0 put b 10 0000000000000002\n0 put c 10 0000000000000003\n0 del a\n0 put c 10 0000000000000003\n0 get c 0 99\n0 get a 0 99\n",
    b"0 0:0 stored\n0 0:1 stored\n0 0:2 full 2\n0 0:3 gone\n0 0:4 stored\n0 0:5 points 1 10:0000000000000003\n0 0:6 absent\n",
)];

/// Inputs that are answered so under some words, on an empty disk each.
fn are_answered<R: AllocGlobal + Threads + Wait + Sync + Abort>(
    rt: &R,
    words: &'static str,
    rows: &[Row],
) -> Result<(), AllocError> {
    for (name, input, answers) in rows {
        let run = Run(words, Bytes(input), Nothing, OK, Is(answers));
        let other = first_other(rt, &[run])?;
        assert!(rt; other.is_none(), "{words}: {name}");
    }
    Ok(())
}

#[test]
fn names_are_answered(rt: HostRuntime) -> Result<(), AllocError> {
    are_answered(&rt, "run", &NAMES)?;
    are_answered(&rt, "run --shards 1", &NAMES)
}

#[test]
fn slots_are_used_again(rt: HostRuntime) -> Result<(), AllocError> {
    are_answered(&rt, "run --shards 1 --slots 2", &SLOTS)?;
    are_answered(&rt, "run --slots=2 --shards=1", &SLOTS)
}

const LONG_NAMES: [Case; 2] = [
    (
        "255 bytes",
        &[Run("run", LongName(255), Nothing, OK, Is(b"0 0:0 absent\n"))],
    ),
    (
        "256 bytes",
        &[Run("run", LongName(256), Nothing, OK, Is(b"0 - name\n"))],
    ),
];

#[test]
fn long_names_are_refused(rt: HostRuntime) -> Result<(), AllocError> {
    follow(&rt, &LONG_NAMES)
}

const LINE_1: Ends = With(Status::BadLine { line: 1 });

const LINE_2: Ends = With(Status::BadLine { line: 2 });

const LINE_3: Ends = With(Status::BadLine { line: 3 });

const BAD_LINES: [Case; 8] = [
    (
        "a sign",
        &[Run(
            "run",
            Bytes(b"0 get a 0 1\n0 put a -5 0000000000000000\n"),
            Nothing,
            LINE_2,
            Is(b""),
        )],
    ),
    (
        "lane 8",
        &[Run("run", Bytes(b"8 get a 0 1\n"), Nothing, LINE_1, Is(b""))],
    ),
    (
        "a capital",
        &[Run(
            "run",
            Bytes(b"0 get a 0 1\nJoin\n"),
            Nothing,
            LINE_2,
            Is(b""),
        )],
    ),
    (
        "no name",
        &[Run("run", Bytes(b"0 del\n"), Nothing, LINE_1, Is(b""))],
    ),
    (
        "two names",
        &[Run("run", Bytes(b"0 del a b\n"), Nothing, LINE_1, Is(b""))],
    ),
    (
        "no hexadecimal digit",
        &[Run(
            "run",
            Bytes(b"0 put a 1 000000000000000G\n"),
            Nothing,
            LINE_1,
            Is(b""),
        )],
    ),
    (
        "a finish",
        &[Run(
            "run",
            Bytes(b"0 del a\n\n0 finish 0 0\n"),
            Nothing,
            LINE_3,
            Is(b""),
        )],
    ),
    (
        "a merge",
        &[Run("run", Bytes(b"0 merge 0 1 a\n"), Nothing, LINE_1, Is(b""))],
    ),
];

#[test]
fn bad_lines_are_named_and_nothing_is_written(rt: HostRuntime) -> Result<(), AllocError> {
    follow(&rt, &BAD_LINES)
}

const OTHER_WORDS: [&str; 15] = [
    "",
    "dump",
    "run run",
    "run --",
    "run --help",
    "--help",
    "run --shards 4",
    "run --shards",
    "run --shards 01",
    "run --shards 1 --shards 1",
    "run --slots 4",
    "run --slots=4",
    "run --shards 1 --slots 0",
    "run --shards 1 --slots 16385",
    "run --shards 1 --slots 4 --slots 4",
];

const GOOD_WORDS: [&str; 3] = [
    "run --shards 1 --slots 4",
    "run --slots 16384 --shards 1",
    "run --shards=1",
];

/// Words under which a run on one workload ends so.
fn end_so<R: AllocGlobal + Threads + Wait + Sync + Abort>(
    rt: &R,
    all: &[&'static str],
    status: Status,
    text: &'static [u8],
) -> Result<(), AllocError> {
    for words in all {
        let run = Run(words, ROW, Nothing, With(status), Is(text));
        let other = first_other(rt, &[run])?;
        assert!(rt; other.is_none(), "{words}");
    }
    Ok(())
}

#[test]
fn other_words_are_refused(rt: HostRuntime) -> Result<(), AllocError> {
    end_so(&rt, &OTHER_WORDS, Status::Words, b"")?;
    end_so(&rt, &GOOD_WORDS, Status::Ok, ANSWER)
}

const READ_FAULT: Ends = With(Status::ReadFault);

const WRITE_FAULT: Ends = With(Status::WriteFault);

const FAULTS: [Case; 8] = [
    ("read 0", &[Run("run", ROW, Read(0), READ_FAULT, Is(b""))]),
    ("read 1", &[Run("run", ROW, Read(1), READ_FAULT, Is(b""))]),
    ("read 2", &[Run("run", ROW, Read(2), OK, Is(ANSWER))]),
    ("read 3", &[Run("run", ROW, Read(3), OK, Is(ANSWER))]),
    (
        "write 0",
        &[Run("run", ROW, Write(0), WRITE_FAULT, Is(b""))],
    ),
    (
        "write 1",
        &[Run("run", ROW, Write(1), WRITE_FAULT, Is(b"0 0"))],
    ),
    (
        "write 2",
        &[Run("run", ROW, Write(2), WRITE_FAULT, Is(b"0 0:0 "))],
    ),
    (
        "write 3",
        &[Run("run", ROW, Write(3), WRITE_FAULT, Is(b"0 0:0 sto"))],
    ),
];

#[test]
fn faults_have_their_status(rt: HostRuntime) -> Result<(), AllocError> {
    follow(&rt, &FAULTS)
}

const LIMIT: [Case; 2] = [
    (
        "16,777,216 bytes",
        &[Run("run", Comment(16_777_216), Nothing, OK, Is(b""))],
    ),
    (
        "one more",
        &[Run(
            "run",
            Comment(16_777_217),
            Nothing,
            With(Status::TooLong),
            Is(b""),
        )],
    ),
];

#[test]
fn the_limit_is_exact(rt: HostRuntime) -> Result<(), AllocError> {
    follow(&rt, &LIMIT)
}

const MANY: [Case; 1] = [(
    "100,000 puts",
    &[Run(
        "run",
        FourNames(100_000),
        Nothing,
        OK,
        EndsWith(b"0 0:100063 stored\n"),
    )],
)];

#[test]
fn many_lines_are_answered(rt: HostRuntime) -> Result<(), AllocError> {
    follow(&rt, &MANY)
}
