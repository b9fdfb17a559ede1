//! Sources and sinks in memory.

use crate::outside::asserts::{Call, Reading, SIX, answers_all, are_bytes, reads_all};
use std::alloc::Global;
use std::test::Fail;
use vt_outside::{
    Bytes, Failed, LineCounter, List, ListSink, ListSource, OutOfMemory, SureSink, SureSource,
    is_listed,
};

#[test]
fn sources_in_memory(rt: HostRuntime) -> Result<(), Fail> {
    let mut source = SureSource::new(six_bytes(rt.alloc())?);
    reads_all(&rt, &mut source, &[0; 4], &SIX);
    drop(source);
    Ok(())
}

static THREES: [Reading; 4] = [
    (Ok(3), b"abc\0"),
    (Err(Failed), b"abc\0"),
    (Ok(3), b"def\0"),
    (Ok(0), b"def\0"),
];

#[test]
fn sources_that_fail(rt: HostRuntime) -> Result<(), Fail> {
    let mut source = failing_source(rt.alloc())?;
    reads_all(&rt, &mut source, &[0; 4], &THREES);
    drop(source);
    Ok(())
}

static FIVE: [Call; 5] = [
    Call::Write(b"abc", Ok(3)),
    Call::Write(b"def", Err(Failed)),
    Call::Write(b"def", Ok(2)),
    Call::Write(b"g", Err(Failed)),
    Call::Flush(Ok(())),
];

#[test]
fn sinks_in_memory(rt: HostRuntime) -> Result<(), Fail> {
    let mut sink = failing_sink(rt.alloc())?;
    answers_all(&rt, &mut sink, &FIVE);
    are_bytes(&rt, sink.taken(), b"abcde");
    drop(sink);
    Ok(())
}

static SURE: [Call; 2] = [Call::Write(b"abc", Ok(3)), Call::Flush(Ok(()))];

#[test]
fn a_sink_that_never_fails(rt: HostRuntime) {
    answers_all(&rt, &mut SureSink::new(), &SURE);
}

static LINES: [Call; 4] = [
    Call::Write(b"a\nb\n", Ok(4)),
    Call::Write(b"c", Ok(1)),
    Call::Write(b"\n", Ok(1)),
    Call::Flush(Ok(())),
];

#[test]
fn a_sink_that_counts_line_feeds(rt: HostRuntime) {
    let mut lines = LineCounter::new();
    answers_all(&rt, &mut lines, &LINES);
    let count = lines.line_feeds();
    assert_eq!(rt; count, 3);
}

#[test]
fn calls_that_are_listed(rt: HostRuntime) {
    assert!(rt; is_listed(&[1, 3], 3));
    assert!(rt; !is_listed(&[1, 3], 2));
}

// A source whose call behind the end is listed: it gives nothing there, and doesn't fail.
static BEHIND: [Reading; 4] = [
    (Ok(4), b"abcd"),
    (Ok(2), b"efcd"),
    (Ok(0), b"efcd"),
    (Ok(0), b"efcd"),
];

#[test]
fn calls_behind_the_end(rt: HostRuntime) -> Result<(), Fail> {
    let mut source = listed_behind_its_end(rt.alloc())?;
    reads_all(&rt, &mut source, &[0; 4], &BEHIND);
    drop(source);
    Ok(())
}

// A source of six bytes whose fourth call is listed.
fn listed_behind_its_end(alloc: Global) -> Result<ListSource, OutOfMemory> {
    let mut fails = List::new(alloc);
    fails.push(3)?;
    Ok(ListSource::new(six_bytes(alloc)?, 4, fails))
}

// A sink with room for five bytes, whose second call fails.
fn failing_sink(alloc: Global) -> Result<ListSink, OutOfMemory> {
    ListSink::new(alloc, 5, second_call(alloc)?)
}

// A source of six bytes that gives at most three a call, and whose second call fails.
fn failing_source(alloc: Global) -> Result<ListSource, OutOfMemory> {
    let fails = second_call(alloc)?;
    Ok(ListSource::new(six_bytes(alloc)?, 3, fails))
}

fn six_bytes(alloc: Global) -> Result<Bytes, OutOfMemory> {
    let mut bytes = Bytes::new(alloc);
    bytes.extend(b"abcdef")?;
    Ok(bytes)
}

// The number of the second call.
fn second_call(alloc: Global) -> Result<List<u32>, OutOfMemory> {
    let mut calls = List::new(alloc);
    calls.push(1)?;
    Ok(calls)
}
