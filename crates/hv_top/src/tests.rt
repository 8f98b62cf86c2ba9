//! What comes of sources and sinks that give and take little or fail, of a long input, and of a full sink.

ghost use Rattle.std.specs.Prelude.{◌<◌};

use super::*;
use hv_io::MemSource;
use hv_limits::INPUT_BYTES;
use std::alloc::AllocError;
use std::test::Fail;

/// The smallest job, and the report on it.
const JOB: &str = "job 1
storage 1
turn 0 1
";

const REPORT: &str = "ran 1 faults 0 recalls 0
hart 0 -
";

/// The words of the command `run`.
fn run(alloc: Global) -> Result<Vec<String>, AllocError> {
    let mut words = Vec::new(alloc);
    words.push(String::from_str(alloc, "run")?)?;
    Ok(words)
}

/// A source of the job that gives at most `chunk` bytes in a call, and fails at the calls with these numbers.
fn source_of(alloc: Global, chunk: usize, fails: &[u32]) -> Result<MemSource, AllocError>
    requires { 0 < chunk }
{
    let bytes = Vec::from_slice(alloc, JOB.as_bytes())?;
    Ok(MemSource::new(bytes, chunk, Vec::from_slice(alloc, fails)?))
}

/// A sink with so much room that takes at most `chunk` bytes in a call, and fails at the calls with these numbers.
fn sink_of(alloc: Global, room: usize, chunk: usize, fails: &[u32]) -> Result<MemSink, AllocError>
    requires { 0 < chunk }
{
    MemSink::new(alloc, room, chunk, Vec::from_slice(alloc, fails)?)
}

/// Whether the job ends so from this source to this sink, and this is written.
fn ends(
    alloc: Global,
    mut source: MemSource,
    mut sink: MemSink,
    status: u8,
    text: &str,
) -> Result<bool, AllocError> {
    let answer = virtualize(alloc, &run(alloc)?, &mut source, &mut sink);
    Ok(answer == status && sink.held() == text.as_bytes())
}

#[test]
fn bytes_come_and_go_one_at_a_time(rt: HostRuntime) -> Result<(), Fail> {
    let source = source_of(rt.alloc(), 1, &[])?;
    let sink = sink_of(rt.alloc(), 64, 1, &[])?;
    assert!(rt; ends(rt.alloc(), source, sink, DONE, REPORT)?);
    Ok(())
}

#[test]
fn a_source_that_fails_leaves_nothing_written(rt: HostRuntime) -> Result<(), Fail> {
    let source = source_of(rt.alloc(), 16, &[1])?;
    let sink = sink_of(rt.alloc(), 64, 7, &[])?;
    assert!(rt; ends(rt.alloc(), source, sink, READ_FAULT, "")?);
    Ok(())
}

#[test]
fn a_sink_that_fails_or_is_full_holds_a_front_of_the_report(rt: HostRuntime) -> Result<(), Fail> {
    for (room, fails) in [(64, [1].as_slice()), (7, &[])] {
        let source = source_of(rt.alloc(), 16, &[])?;
        let sink = sink_of(rt.alloc(), room, 7, fails)?;
        assert!(rt; ends(rt.alloc(), source, sink, WRITE_FAULT, "ran 1 f")?);
    }
    Ok(())
}

/// What so many line feeds end with, and what is written.
fn line_feeds(alloc: Global, count: usize) -> Result<(u8, MemSink), AllocError> {
    let mut source = HonestSource::new(vec![in alloc; b'\n'; count]?);
    let mut sink = sink_of(alloc, 64, 64, &[])?;
    let answer = virtualize_honest(alloc, &run(alloc)?, &mut source, &mut sink);
    Ok((answer, sink))
}

#[test]
fn an_input_past_the_limit_is_too_long(rt: HostRuntime) -> Result<(), Fail> {
    let limit = INPUT_BYTES as usize;
    let (status, sink) = line_feeds(rt.alloc(), limit)?;
    assert_eq!(rt; status, REFUSED);
    assert!(rt; sink.held() == b"refused line 1048577: header\n".as_slice());
    let (status, sink) = line_feeds(rt.alloc(), limit + 1)?;
    assert_eq!(rt; status, TOO_LONG);
    assert!(rt; sink.held() == b"".as_slice());
    Ok(())
}
