//! Lanes and workers that count side by side, in an order that is up to the threads.
use crate::fixture::{COUNTER, RUN, call, folder_of};
use deuce_io::{IoEnd, MemSink};
use std::alloc::{AllocError, Global};
use std::test::Fail;
use std::thread::Threads;

/// A call of `inc` in JSON.
const INC: &str = "{\"call\":\"Counter.inc()I\",\"args\":[]}";

/// Adds so many calls of `inc` to a script, with commas between them.
fn push_calls(script: &mut String, calls: u64) -> Result<(), AllocError> {
    for call in 0..calls {
        script.push_str(if call == 0 { "" } else { "," })?;
        script.push_str(INC)?;
    }
    Ok(())
}

/// A script of this many lanes, each of which calls `inc` so often.
fn counting(alloc: Global, lanes: u64, calls: u64) -> Result<String, IoEnd> {
    let mut script = format!(in alloc; "{{\"form\":1,\"lanes\":{lanes},\"phases\":[{{\"lanes\":[")?;
    for lane in 0..lanes {
        script.push_str(if lane == 0 { "[" } else { ",[" })?;
        push_calls(&mut script, calls)?;
        script.push(']')?;
    }
    script.push_str("]}]}")?;
    Ok(script)
}

/// A script of a bag of so many calls of `inc`, for this many lanes.
fn bag(alloc: Global, lanes: u64, calls: u64) -> Result<String, IoEnd> {
    let mut script = format!(in alloc; "{{\"form\":1,\"lanes\":{lanes},\"phases\":[{{\"bag\":[")?;
    push_calls(&mut script, calls)?;
    script.push_str("]}]}")?;
    Ok(script)
}

/// Whether a line is of a call of `inc` with this answer.
fn is_answered(alloc: Global, line: &str, answer: u64) -> Result<bool, AllocError> {
    let end = format!(in alloc; " Counter.inc()I {answer}")?;
    Ok(line.ends_with(end.as_str()))
}

/// How many calls a history has, if they are answered 1 up to their number in its order.
fn answers(alloc: Global, history: &str) -> Result<Option<u64>, AllocError> {
    let mut answer = 0u64;
    for line in history.lines() {
        if line.starts_with("0 ") {
            answer = answer.wrapping_add(1);
            if !is_answered(alloc, line, answer)? {
                return Ok(None);
            }
        }
    }
    Ok(Some(answer))
}

/// Whether the calls of a script that count side by side are answered 1 up to their number, in the order of the printed history.
fn counts<R: Threads + Sync>(
    rt: &R,
    alloc: Global,
    script: &str,
    calls: u64,
) -> Result<bool, IoEnd> {
    let mut folder = folder_of(alloc, COUNTER.as_slice(), script.as_bytes())?;
    let sink = MemSink::new(alloc, 1_000_000);
    let (status, written) = call(rt, alloc, RUN, &mut folder, sink)?;
    let text = str::from_utf8(written.as_slice()).unwrap_or("");
    let answered = answers(alloc, text)?;
    Ok(status == 0 && answered == Some(calls) && text.ends_with("unplaced 0\n"))
}

#[test]
fn lanes_count_side_by_side(rt: HostRuntime) -> Result<(), Fail> {
    for (lanes, calls) in [(2, 1), (4, 250), (16, 20)] {
        let script = counting(rt.alloc(), lanes, calls)?;
        assert!(rt; counts(&rt, rt.alloc(), script.as_str(), lanes.wrapping_mul(calls))?);
    }
    Ok(())
}

#[test]
fn workers_count_side_by_side(rt: HostRuntime) -> Result<(), Fail> {
    for (lanes, calls) in [(2, 1), (4, 500), (16, 320)] {
        let script = bag(rt.alloc(), lanes, calls)?;
        assert!(rt; counts(&rt, rt.alloc(), script.as_str(), calls)?);
    }
    Ok(())
}
