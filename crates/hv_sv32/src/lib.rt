//! The page walk: from an address that an instruction uses to an address of the machine's storage.
#![tactic(auto)]

ghost use Rattle.std.specs.Prelude.{◌≡◌, ◌^◌, ◌<◌, IfSome, true, false};
ghost use Rattle.hv_cpu.specs.Modes.{mode_word};
ghost use Rattle.hv_store.specs.Space.{OnlyReads};
ghost use Rattle.hv_sv32.specs.Entry as spec;
ghost use Rattle.hv_sv32.specs.Stop.{FitsMachine, IsFound, IsInside, walked};
ghost use Rattle.hv_sv32.specs.Walk.{access_fault_of, at_first, at_second, is_bare, page_fault_of, located, through_first, through_second, walk_of};

mod entry;

use entry::{effective_mode, grants, is_faulty, is_leaf, is_plain};
use hv_cpu::{Cpu, Mode};
use hv_store::{Access, Refusal, Space};
use hv_word::field;

/// Why an address leads nowhere: a trap of the instruction that used it, with the address as tval, or the refusal of an
/// outer map to let a page table entry be read.
#[derive(Clone, Copy, Debug, PartialEq, Eq)]
pub enum Stop {
    Trap { cause: u32, tval: u32 },
    Refused(Refusal),
}

/// The same as `translate` where nothing stops the access, and None elsewhere. It is what most accesses are, and answers without a
/// result in memory.
#[inline(always)]
pub fn direct<S: Space>(cpu: &Cpu, space: &mut S, address: u32, access: Access) -> Option<u64>
    requires { 0 < S.room space.old }
    ensures walks { IsFound result (walk_of (S.storage space.old) (S.slots space.old) cpu.now address access) }
    ensures fits { IfSome result (IsInside (S.slots space.old)) }
    ensures reads { OnlyReads S.Space space.old space.new }
{
    if is_untranslated(cpu, access) {
        return in_page(space, address / 4096, address, access);
    }
    match access {
        Access::Fetch => fetched_through_tables(cpu, space, address),
        Access::Read => read_through_tables(cpu, space, address),
        Access::Write => written_through_tables(cpu, space, address),
    }
}

// A fetch from the first table on. Each kind of access has a function of its own, so that none asks which it is.
#[inline(never)]
fn fetched_through_tables<S: Space>(cpu: &Cpu, space: &mut S, address: u32) -> Option<u64>
    requires { 0 < S.room space.old }
    ensures walks { IsFound result (through_first (S.storage space.old) (S.slots space.old) cpu.now address Access.Fetch) }
    ensures fits { IfSome result (IsInside (S.slots space.old)) }
    ensures reads { OnlyReads S.Space space.old space.new }
{
    through_tables(cpu, space, address, Access::Fetch)
}

// The same of a load.
#[inline(never)]
fn read_through_tables<S: Space>(cpu: &Cpu, space: &mut S, address: u32) -> Option<u64>
    requires { 0 < S.room space.old }
    ensures walks { IsFound result (through_first (S.storage space.old) (S.slots space.old) cpu.now address Access.Read) }
    ensures fits { IfSome result (IsInside (S.slots space.old)) }
    ensures reads { OnlyReads S.Space space.old space.new }
{
    through_tables(cpu, space, address, Access::Read)
}

// The same of a store.
#[inline(never)]
fn written_through_tables<S: Space>(cpu: &Cpu, space: &mut S, address: u32) -> Option<u64>
    requires { 0 < S.room space.old }
    ensures walks { IsFound result (through_first (S.storage space.old) (S.slots space.old) cpu.now address Access.Write) }
    ensures fits { IfSome result (IsInside (S.slots space.old)) }
    ensures reads { OnlyReads S.Space space.old space.new }
{
    through_tables(cpu, space, address, Access::Write)
}

// From the first table on.
#[inline(always)]
fn through_tables<S: Space>(cpu: &Cpu, space: &mut S, address: u32, access: Access) -> Option<u64>
    requires { 0 < S.room space.old }
    ensures walks { IsFound result (through_first (S.storage space.old) (S.slots space.old) cpu.now address access) }
    ensures fits { IfSome result (IsInside (S.slots space.old)) }
    ensures reads { OnlyReads S.Space space.old space.new }
{
    let table = field::<0, 22>(cpu.satp);
    if table >= space.pages() {
        return None;
    }
    match space.read(table, field::<22, 10>(address), Access::Read) {
        Ok(entry) => {
            if is_faulty(entry) {
                None
            } else if is_leaf(entry) {
                in_large_page(cpu, space, entry, address, access)
            } else if is_plain(entry) {
                through_table(cpu, space, field::<10, 22>(entry), address, access)
            } else {
                None
            }
        }
        Err(_) => None,
    }
}

// From the second table on.
#[inline(always)]
fn through_table<S: Space>(
    cpu: &Cpu,
    space: &mut S,
    table: u32,
    address: u32,
    access: Access,
) -> Option<u64>
    requires { 0 < S.room space.old }
    ensures walks { IsFound result (through_second (S.storage space.old) (S.slots space.old) cpu.now table address access) }
    ensures fits { IfSome result (IsInside (S.slots space.old)) }
    ensures reads { OnlyReads S.Space space.old space.new }
{
    if table >= space.pages() {
        return None;
    }
    match space.read(table, field::<12, 10>(address), Access::Read) {
        Ok(entry) => {
            let mode = effective_mode(cpu, access);
            if is_faulty(entry) || !is_leaf(entry) || !grants(cpu, mode, access, entry) {
                return None;
            }
            in_page(space, field::<10, 22>(entry), address, access)
        }
        Err(_) => None,
    }
}

// From a leaf of the first table on, which names 1024 pages.
#[inline(always)]
fn in_large_page<S: Space>(
    cpu: &Cpu,
    space: &S,
    entry: u32,
    address: u32,
    access: Access,
) -> Option<u64>
    requires valid { spec.is_faulty entry ≡ false }
    requires leaf { spec.is_leaf entry ≡ true }
    ensures walks { IsFound result (at_first (S.storage space.now) (S.slots space.now) cpu.now address access entry) }
    ensures fits { IfSome result (IsInside (S.slots space.now)) }
{
    let mode = effective_mode(cpu, access);
    if field::<10, 10>(entry) != 0 || !grants(cpu, mode, access, entry) {
        return None;
    }
    let page = field::<20, 12>(entry) * 1024 + field::<12, 10>(address);
    in_page(space, page, address, access)
}

// The address of the byte in a page of 22 bits, where the machine has that page.
#[inline(always)]
fn in_page<S: Space>(space: &S, page: u32, address: u32, access: Access) -> Option<u64>
    requires { page < 2 ^ 22 }
    ensures walks { IsFound result (located (S.slots space.now) page address access) }
    ensures fits { IfSome result (IsInside (S.slots space.now)) }
{
    if page < space.pages() {
        Some(u64::from(page) * 4096 + u64::from(address % 4096))
    } else {
        None
    }
}

/// The address in storage of the byte that `address` names for an access, by the Sv32 page table of `cpu`. It is 4096 times
/// a page of the machine and an offset, with at most 34 bits. Nothing is written.
#[inline(never)]
pub fn translate<S: Space>(
    cpu: &Cpu,
    space: &mut S,
    address: u32,
    access: Access,
) -> Result<u64, Stop>
    requires { 0 < S.room space.old }
    ensures walks { walked result ≡ walk_of (S.storage space.old) (S.slots space.old) cpu.now address access }
    ensures fits { FitsMachine (S.slots space.old) (S.depth space.old) result }
    ensures reads { OnlyReads S.Space space.old space.new }
{
    if field::<31, 1>(cpu.satp) == 0 {
        return place(space, address / 4096, address, access);
    }
    match effective_mode(cpu, access) {
        Mode::M => place(space, address / 4096, address, access),
        mode => walk(cpu, space, address, access, mode),
    }
}

// From the first table on.
#[inline(always)]
fn walk<S: Space>(
    cpu: &Cpu,
    space: &mut S,
    address: u32,
    access: Access,
    mode: Mode,
) -> Result<u64, Stop>
    requires room { 0 < S.room space.old }
    requires mode { mode_word mode ≡ spec.effective_mode cpu.now access }
    ensures walks { walked result ≡ through_first (S.storage space.old) (S.slots space.old) cpu.now address access }
    ensures fits { FitsMachine (S.slots space.old) (S.depth space.old) result }
    ensures reads { OnlyReads S.Space space.old space.new }
{
    let table = field::<0, 22>(cpu.satp);
    if table >= space.pages() {
        return Err(access_fault(address, access));
    }
    match space.read(table, field::<22, 10>(address), Access::Read) {
        Ok(entry) => first_entry(cpu, space, entry, address, access, mode),
        Err(refusal) => Err(Stop::Refused(refusal)),
    }
}

// From an entry of a first table on.
#[inline(always)]
fn first_entry<S: Space>(
    cpu: &Cpu,
    space: &mut S,
    entry: u32,
    address: u32,
    access: Access,
    mode: Mode,
) -> Result<u64, Stop>
    requires room { 0 < S.room space.old }
    requires mode { mode_word mode ≡ spec.effective_mode cpu.now access }
    ensures walks { walked result ≡ at_first (S.storage space.old) (S.slots space.old) cpu.now address access entry }
    ensures fits { FitsMachine (S.slots space.old) (S.depth space.old) result }
    ensures reads { OnlyReads S.Space space.old space.new }
{
    if is_faulty(entry) {
        Err(page_fault(address, access))
    } else if is_leaf(entry) {
        if field::<10, 10>(entry) == 0 && grants(cpu, mode, access, entry) {
            place(
                space,
                field::<20, 12>(entry) * 1024 + field::<12, 10>(address),
                address,
                access,
            )
        } else {
            Err(page_fault(address, access))
        }
    } else if is_plain(entry) {
        descend(cpu, space, field::<10, 22>(entry), address, access, mode)
    } else {
        Err(page_fault(address, access))
    }
}

// From a second table on.
#[inline(always)]
fn descend<S: Space>(
    cpu: &Cpu,
    space: &mut S,
    table: u32,
    address: u32,
    access: Access,
    mode: Mode,
) -> Result<u64, Stop>
    requires room { 0 < S.room space.old }
    requires mode { mode_word mode ≡ spec.effective_mode cpu.now access }
    ensures walks { walked result ≡ through_second (S.storage space.old) (S.slots space.old) cpu.now table address access }
    ensures fits { FitsMachine (S.slots space.old) (S.depth space.old) result }
    ensures reads { OnlyReads S.Space space.old space.new }
{
    if table >= space.pages() {
        return Err(access_fault(address, access));
    }
    match space.read(table, field::<12, 10>(address), Access::Read) {
        Ok(entry) => second_entry(cpu, space, entry, address, access, mode),
        Err(refusal) => Err(Stop::Refused(refusal)),
    }
}

// At an entry of a second table.
#[inline(always)]
fn second_entry<S: Space>(
    cpu: &Cpu,
    space: &S,
    entry: u32,
    address: u32,
    access: Access,
    mode: Mode,
) -> Result<u64, Stop>
    requires { mode_word mode ≡ spec.effective_mode cpu.now access }
    ensures walks { walked result ≡ at_second (S.slots space.now) cpu.now address access entry }
    ensures fits { FitsMachine (S.slots space.now) (S.depth space.now) result }
{
    if is_faulty(entry) {
        Err(page_fault(address, access))
    } else if is_leaf(entry) && grants(cpu, mode, access, entry) {
        place(space, field::<10, 22>(entry), address, access)
    } else {
        Err(page_fault(address, access))
    }
}

// The address of the byte in a page of 22 bits, if the machine has that page.
#[inline(always)]
fn place<S: Space>(space: &S, page: u32, address: u32, access: Access) -> Result<u64, Stop>
    requires { page < 2 ^ 22 }
    ensures walks { walked result ≡ located (S.slots space.now) page address access }
    ensures fits { FitsMachine (S.slots space.now) (S.depth space.now) result }
{
    if page < space.pages() {
        Ok(u64::from(page) * 4096 + u64::from(address % 4096))
    } else {
        Err(access_fault(address, access))
    }
}

// Whether the address is that of the storage already: without a page table, or in mode M.
#[inline(always)]
fn is_untranslated(cpu: &Cpu, access: Access) -> bool
    ensures { result ≡ is_bare cpu.now access }
{
    field::<31, 1>(cpu.satp) == 0 || effective_mode(cpu, access) == Mode::M
}

// The trap of an address that its page table doesn't let through.
fn page_fault(address: u32, access: Access) -> Stop
    ensures { result ≡ Stop.Trap (page_fault_of access) address }
{
    let cause = match access {
        Access::Fetch => 12,
        Access::Read => 13,
        Access::Write => 15,
    };
    Stop::Trap {
        cause,
        tval: address,
    }
}

// The trap of an address whose entry or place the machine doesn't have.
fn access_fault(address: u32, access: Access) -> Stop
    ensures { result ≡ Stop.Trap (access_fault_of access) address }
{
    let cause = match access {
        Access::Fetch => 1,
        Access::Read => 5,
        Access::Write => 7,
    };
    Stop::Trap {
        cause,
        tval: address,
    }
}
