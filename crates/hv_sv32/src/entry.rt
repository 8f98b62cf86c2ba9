//! Page table entries, and what they let an access do.

ghost use Rattle.std.specs.Prelude.{◌≡◌, ◌+◌, ◌≤◌};
ghost use Rattle.hv_cpu.specs.Modes.{mode_word};
ghost use Rattle.hv_sv32.specs.Entry as spec;

use hv_cpu::mstatus::{MPP, MPP_BITS, MPRV, MXR, SUM};
use hv_cpu::{Cpu, Mode};
use hv_store::Access;
use hv_word::field;

// The bits of an entry.
const VALID: u32 = 0;

const READABLE: u32 = 1;

const WRITABLE: u32 = 2;

const EXECUTABLE: u32 = 3;

const USER: u32 = 4;

const ACCESSED: u32 = 6;

const DIRTY: u32 = 7;

#[inline(always)]
fn has_bit<const AT: u32>(word: u32) -> bool
    requires { AT + 1 ≤ 32 }
    ensures { result ≡ spec.has_bit word AT }
{
    field::<AT, 1>(word) == 1
}

/// Whether an entry is invalid, or writable and not readable, which is reserved.
#[inline(always)]
pub fn is_faulty(entry: u32) -> bool
    ensures { result ≡ spec.is_faulty entry }
{
    !has_bit::<VALID>(entry) || has_bit::<WRITABLE>(entry) && !has_bit::<READABLE>(entry)
}

/// Whether an entry that isn't faulty names a page, and not a table.
#[inline(always)]
pub fn is_leaf(entry: u32) -> bool
    ensures { result ≡ spec.is_leaf entry }
{
    has_bit::<READABLE>(entry) || has_bit::<EXECUTABLE>(entry)
}

/// Whether U, A and D are clear, as they must be in a pointer.
#[inline(always)]
pub fn is_plain(entry: u32) -> bool
    ensures { result ≡ spec.is_plain entry }
{
    !has_bit::<USER>(entry) && !has_bit::<ACCESSED>(entry) && !has_bit::<DIRTY>(entry)
}

/// The mode that an access is made in.
#[inline(always)]
pub fn effective_mode(cpu: &Cpu, access: Access) -> Mode
    ensures { mode_word result ≡ spec.effective_mode cpu.now access }
{
    if access != Access::Fetch && has_bit::<MPRV>(cpu.mstatus) {
        match Mode::from_word(field::<MPP, MPP_BITS>(cpu.mstatus)) {
            Some(mode) => mode,
            None => unreachable!(),
        }
    } else {
        cpu.mode
    }
}

// Whether a leaf is for this kind of access.
#[inline(always)]
fn permits(cpu: &Cpu, access: Access, entry: u32) -> bool
    ensures { result ≡ spec.permits cpu.now access entry }
{
    match access {
        Access::Fetch => has_bit::<EXECUTABLE>(entry),
        Access::Read => has_bit::<READABLE>(entry)
            || has_bit::<EXECUTABLE>(entry) && has_bit::<MXR>(cpu.mstatus),
        Access::Write => has_bit::<WRITABLE>(entry),
    }
}

// Whether a leaf is for the mode that the access is made in, U or S.
#[inline(always)]
fn admits(cpu: &Cpu, mode: Mode, access: Access, entry: u32) -> bool
    requires { mode_word mode ≡ spec.effective_mode cpu.now access }
    ensures { result ≡ spec.admits cpu.now access entry }
{
    match mode {
        Mode::U => has_bit::<USER>(entry),
        _ => !has_bit::<USER>(entry) || access != Access::Fetch && has_bit::<SUM>(cpu.mstatus),
    }
}

// Whether software has marked a leaf as accessed, and for a store as dirty.
#[inline(always)]
fn shows_use(access: Access, entry: u32) -> bool
    ensures { result ≡ spec.shows_use access entry }
{
    has_bit::<ACCESSED>(entry) && (access != Access::Write || has_bit::<DIRTY>(entry))
}

/// Whether a leaf lets an access through, which is made in this mode.
#[inline(always)]
pub fn grants(cpu: &Cpu, mode: Mode, access: Access, entry: u32) -> bool
    requires { mode_word mode ≡ spec.effective_mode cpu.now access }
    ensures { result ≡ spec.grants cpu.now access entry }
{
    permits(cpu, access, entry) && admits(cpu, mode, access, entry) && shows_use(access, entry)
}
