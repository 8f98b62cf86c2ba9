//! The calls on their happy paths, in chunks of one byte, and with faults in mid-stream.

use super::*;
use hv_limits::INPUT_BYTES;
use std::alloc::{AllocError, Global};
use std::test::Fail;

/// So many bytes more than an input may have.
fn past_limit(more: u8) -> usize {
    INPUT_BYTES as usize + usize::from(more)
}

/// The calls to fail at.
fn calls(alloc: Global, numbers: &[u32]) -> Result<Vec<u32>, AllocError> {
    Vec::from_slice(alloc, numbers)
}

#[test]
fn a_source_in_chunks_of_one_is_read_to_its_end(rt: HostRuntime) -> Result<(), Fail> {
    let bytes = Vec::from_slice(rt.alloc(), b"abc")?;
    let mut source = MemSource::new(bytes, 1, calls(rt.alloc(), &[])?);
    let mut buffer = [0; 2];
    assert_eq!(rt; source.take(&mut buffer), Ok(1));
    assert_eq!(rt; buffer, [b'a', 0]);
    let rest = read_all(rt.alloc(), &mut source).ok();
    assert_eq!(rt; rest.ok_or("no rest")?.as_slice(), b"bc".as_slice());
    Ok(())
}

#[test]
fn an_honest_source_gives_all_that_fits(rt: HostRuntime) -> Result<(), Fail> {
    let mut source = HonestSource::new(Vec::from_slice(rt.alloc(), b"hello")?);
    let mut buffer = [0; 8];
    assert_eq!(rt; source.take(&mut buffer), Ok(5));
    assert_eq!(rt; buffer, *b"hello\0\0\0");
    assert_eq!(rt; source.take(&mut buffer), Ok(0));
    Ok(())
}

#[test]
fn a_source_that_fails_in_mid_stream_is_a_read_fault(rt: HostRuntime) -> Result<(), Fail> {
    let bytes = Vec::from_slice(rt.alloc(), b"abcdef")?;
    let mut source = MemSource::new(bytes, 2, calls(rt.alloc(), &[1])?);
    let end = read_all(rt.alloc(), &mut source).err();
    assert_eq!(rt; end, Some(ReadEnd::ReadFault));
    let rest = read_all(rt.alloc(), &mut source).ok();
    assert_eq!(rt; rest.ok_or("no rest")?.as_slice(), b"cdef".as_slice());
    Ok(())
}

#[test]
fn one_byte_past_the_limit_is_too_long(rt: HostRuntime) -> Result<(), Fail> {
    let long = vec![in rt.alloc(); 10u8; past_limit(1)]?;
    let end = read_all(rt.alloc(), &mut HonestSource::new(long)).err();
    assert_eq!(rt; end, Some(ReadEnd::TooLong { limit: 1_048_576 }));
    let most = vec![in rt.alloc(); 10u8; past_limit(0)]?;
    let read = read_all(rt.alloc(), &mut HonestSource::new(most)).ok();
    assert_eq!(rt; read.ok_or("no bytes")?.len(), 1_048_576);
    Ok(())
}

#[test]
fn a_sink_in_chunks_of_one_holds_the_piece(rt: HostRuntime) -> Result<(), Fail> {
    let mut sink = MemSink::new(rt.alloc(), 5, 1, calls(rt.alloc(), &[])?)?;
    assert_eq!(rt; sink.give(b"xy"), Ok(1));
    assert_eq!(rt; write_all(&mut sink, b"yz!?"), Ok(()));
    assert_eq!(rt; sink.held(), b"xyz!?".as_slice());
    assert_eq!(rt; sink.give(b"more"), Err(Failed));
    Ok(())
}

#[test]
fn a_sink_that_fails_in_mid_stream_keeps_the_front(rt: HostRuntime) -> Result<(), Fail> {
    let mut sink = MemSink::new(rt.alloc(), 64, 7, calls(rt.alloc(), &[1])?)?;
    assert_eq!(rt; write_all(&mut sink, b"ran 1 faults 0"), Err(WriteFault));
    assert_eq!(rt; sink.held(), b"ran 1 f".as_slice());
    Ok(())
}

#[test]
fn a_reader_and_a_writer_of_std_are_passed_on(rt: HostRuntime) -> Result<(), Fail> {
    let text = b"through";
    let mut source = StdSource::new(text.as_slice());
    let read = read_all(rt.alloc(), &mut source).ok().ok_or("no bytes")?;
    let mut out = Vec::new(rt.alloc());
    let written = write_all(&mut StdSink::new(&mut out), read.as_slice());
    assert_eq!(rt; written, Ok(()));
    assert_eq!(rt; out.as_slice(), b"through".as_slice());
    Ok(())
}
