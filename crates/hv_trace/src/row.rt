//! A row of a trace.

/// What a machine that runs alone did next.
#[derive(Clone, Copy, Debug)]
pub enum TraceRow {
    /// The interrupt lines, bits 3, 7 and 11 of mip, became those of the mask.
    Lines {
        mask: u32,
    },
    /// One step, with the pc before it, and what it changed.
    Step {
        pc: u32,
        /// How many of the 50 words of the registers changed.
        len: u32,
        /// The places of these words, rising, with what they became; the pairs behind the first `len` are (0, 0).
        regs: [(u32, u32); 8],
        /// The word of the storage that changed, counted from 0, with what it became.
        mem: Option<(u32, u32)>,
    },
}
