//! The fields of mstatus: where the lowest bit of each is. MPP has `MPP_BITS` bits, and each other field one.
//! (Privileged Architecture, section 3.1.6.)

/// Interrupts are enabled in S.
pub const SIE: u32 = 1;
/// Interrupts are enabled in M.
pub const MIE: u32 = 3;
/// SIE before the last trap to S.
pub const SPIE: u32 = 5;
/// MIE before the last trap to M.
pub const MPIE: u32 = 7;
/// The mode before the last trap to S: U or S.
pub const SPP: u32 = 8;
/// The mode before the last trap to M.
pub const MPP: u32 = 11;
/// How many bits MPP has.
pub const MPP_BITS: u32 = 2;
/// Loads and stores are made in the mode of MPP.
pub const MPRV: u32 = 17;
/// S reaches pages of U.
pub const SUM: u32 = 18;
/// What can be executed can be read.
pub const MXR: u32 = 19;
/// S can use neither satp nor SFENCE.VMA.
pub const TVM: u32 = 20;
/// WFI is illegal below M.
pub const TW: u32 = 21;
/// S can't use SRET.
pub const TSR: u32 = 22;
