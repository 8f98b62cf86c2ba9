//! Reading a source to its end, and writing a piece whole.

ghost use Rattle.std.specs.Prelude.{◌≡◌, ◌+◌, ◌<◌, ◌≤◌, length, IfOk, OnOk, IfErr, OnErr, IfSome};
ghost use Rattle.std.specs.Io.KnownBytes.{Appends, Consumes, IsAtEnd};
ghost use Rattle.hv_limits.specs.Limits.{input_limit};
ghost use Rattle.hv_io.specs.Faults.{Rose, HasCause};
ghost use Rattle.hv_io.specs.Whole.{IsDue, IsCountAt, Gives, TakesAtMost, AppendsFront, LacksRoom};
ghost use Rattle.hv_io.specs.declared.whole.ReadEnd.TheVariants.{ReadFault, Memory};

use super::{Failed, Sink, Source};
use hv_limits::INPUT_BYTES;
use std::alloc::{AllocError, Global};

/// How reading ends where it doesn't reach the end of input.
#[derive(Clone, Copy, Debug, PartialEq, Eq)]
pub enum ReadEnd {
    /// The source failed.
    ReadFault,
    /// The source gave more than `limit` bytes.
    TooLong { limit: u32 },
    /// Memory is wanting.
    Memory,
}

impl From<Failed> for ReadEnd {
    ghost from_gives = { λ _ end. end ≡ ReadFault };

    fn from(_failed: Failed) -> ReadEnd {
        ReadEnd::ReadFault
    }
}

impl From<AllocError> for ReadEnd {
    ghost from_gives = { λ _ end. end ≡ Memory };

    fn from(_error: AllocError) -> ReadEnd {
        ReadEnd::Memory
    }
}

/// The sink failed before the piece was written whole.
#[derive(Clone, Copy, Debug, PartialEq, Eq)]
pub struct WriteFault;

impl From<Failed> for WriteFault {
    fn from(_failed: Failed) -> WriteFault {
        WriteFault
    }
}

/// The most bytes that one call of the source is asked for.
const TURN: usize = 4096;

/// All bytes of the source to its end, at most `INPUT_BYTES`.
pub fn read_all<S: Source>(alloc: Global, source: &mut S) -> Result<Vec<u8>, ReadEnd>
    ensures all { IfOk result (λ bytes. Consumes (S.left source.old) (S.left source.new) bytes.items) }
    ensures whole { IfOk result (λ bytes. IfSome (S.left source.old) (λ left. bytes.items ≡ left)) }
    ensures end { OnOk result (IsAtEnd (S.left source.new)) }
    ensures short { IfOk result (λ bytes. length bytes.items ≤ input_limit) }

    // A fault only where the count rose, and too long only where more was there.
    ensures due { IfErr result (λ end. IsDue end (Rose (S.faults source.old) (S.faults source.new))
        (IfSome (S.left source.old) (λ left. input_limit < length left))) }
    ensures given { Gives (S.left source.old) (S.left source.new) (IsCountAt result) }
    ensures taken { TakesAtMost (input_limit + 1) (S.left source.old) (S.left source.new) }
    ensures counts { S.faults source.old ≤ S.faults source.new }
    ensures same { S.made source.new ≡ S.made source.old }
{
    let mut bytes = Vec::new(alloc);
    let mut buffer = [0; TURN];
    loop {
        let room = INPUT_BYTES as usize + 1 - bytes.len();
        let want = room.min(TURN);
        let count = source.take(&mut buffer[..want])?;
        if count == 0 {
            return Ok(bytes);
        }
        if count == room {
            return Err(ReadEnd::TooLong { limit: INPUT_BYTES });
        }
        bytes.extend_from_slice(&buffer[..count])?;
    }
}

/// Writes the piece whole. After a fault a front of it is written.
pub fn write_all<K: Sink>(sink: &mut K, piece: &[u8]) -> Result<(), WriteFault>
    ensures ok { OnOk result (Appends (K.held sink.old) (K.held sink.new) piece.now) }
    ensures err { OnErr result (AppendsFront (K.held sink.old) (K.held sink.new) piece.now) }
    ensures cause { HasCause (K.faults sink.old) (K.faults sink.new) result }
    ensures full { OnErr result (LacksRoom (K.made sink.old) (K.held sink.old) (length piece.now)) }
    ensures same { K.made sink.new ≡ K.made sink.old }
{
    let mut done = 0;
    while done < piece.len() {
        done += sink.give(&piece[done..])?;
    }
    Ok(())
}
