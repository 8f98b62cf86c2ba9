//! Which words of the registers an instruction may have changed.

/// The words of a hart's registers that an instruction may have changed, each by its place in a control block (0 to 48). The
/// others are as they were.
#[derive(Clone, Copy, Debug, PartialEq, Eq)]
pub enum Touched {
    /// pc, and the register of the number `register` (0 to 31).
    File { register: u32 },
    /// The same, and the control register of the word `word` (32 to 48; 0 for none).
    Csr { register: u32, word: u32 },
    /// What a trap to M writes: pc, mode, mstatus, mepc, mcause and mtval.
    TrapToM,
    /// What a trap to S writes: pc, mode, mstatus, sepc, scause and stval.
    TrapToS,
    /// What MRET and SRET write: pc, mode and mstatus.
    Return,
    /// Any.
    Any,
}
