//! The outside: sources and sinks of bytes, which may fail, and reading and writing over them.
#![tactic(auto)]

ghost use Rattle.std.specs.Prelude.{◌≡◌, ℕ, ◌^◌, ◌<◌, List, length, Option, IfOk, OnErr};
ghost use Rattle.std.specs.Io.{ReadsAtMost, WritesAtMost};
ghost use Rattle.std.specs.Io.KnownBytes.{ReadConsumes, WriteAppends};
ghost use Rattle.hv_io.specs.Faults.{Making, HasCause, IsFull};

mod memory;
mod standard;
mod whole;

pub use memory::{HonestSource, MemSink, MemSource};
pub use standard::{StdSink, StdSource};
pub use whole::{ReadEnd, WriteFault, read_all, write_all};

/// A call that took or gave nothing, and was counted as a fault.
#[derive(Clone, Copy, Debug, PartialEq, Eq)]
pub struct Failed;

/// Where bytes come from.
///
/// It means the bytes left, where it tells them, and a count of faults, which never falls and
/// stands still at the end of 64 bits.
pub trait Source {
    ghost left: { Self → Option (List ℕ) };

    ghost faults: { Self → ℕ };

    // What the object was made with, where it tells it.
    ghost made: { Self → Option Making };

    /// Fills the front of the buffer with the next bytes, and answers how many these are. None,
    /// for a buffer that isn't empty, is the end of input. After a failure the bytes left are as
    /// before.
    fn take(&mut self, buf: &mut [u8]) -> Result<usize, Failed>
        ensures bound { ReadsAtMost result buf.new }
        ensures bytes { ReadConsumes (left self.old) (left self.new) result buf.new }
        ensures cause { HasCause (faults self.old) (faults self.new) result }
        ensures counted { faults self.new < 2 ^ 64 }
        ensures same { made self.new ≡ made self.old };
}

/// Where bytes go.
///
/// It means the bytes held, where it tells them, and a count of faults, which never falls and
/// stands still at the end of 64 bits.
pub trait Sink {
    ghost held: { Self → Option (List ℕ) };

    ghost faults: { Self → ℕ };

    // What the object was made with, where it tells it.
    ghost made: { Self → Option Making };

    /// Appends the front of the piece, and answers how many bytes these are: at least one of a
    /// piece that isn't empty. After a failure the bytes held are as before.
    fn give(&mut self, piece: &[u8]) -> Result<usize, Failed>
        ensures bound { WritesAtMost result piece.now }
        ensures some { IfOk result (λ count. 0 < length piece.now → 0 < count) }
        ensures bytes { WriteAppends (held self.old) (held self.new) result piece.now }
        ensures cause { HasCause (faults self.old) (faults self.new) result }
        ensures full { OnErr result (IsFull (made self.old) (held self.old)) }
        ensures counted { faults self.new < 2 ^ 64 }
        ensures same { made self.new ≡ made self.old };
}

#[cfg(test)]
mod tests;
