//! What an instruction may have changed of the registers is put into their control block, and nothing else.

ghost use Rattle.std.specs.Prelude.{◌≡◌, ◌+◌, ◌*◌, ◌<◌, ◌≤◌, length, slice_index};
ghost use Rattle.hv_word.specs.Storage.{page_count, word_at, with_word};
ghost use Rattle.hv_cpu.specs.Regs.{spelled};
ghost use Rattle.hv_block.specs.Block.{regs_at, put_regs};
ghost use Rattle.hv_exec.specs.Changes.{changed_regs};
ghost use Rattle.hv_exec.specs.Touched.{Touches, trap_to_m_words, trap_to_s_words, return_words};
ghost use Rattle.hv_nest.specs.Notes.{undone};
ghost use Rattle.hv_nest.specs.Rows.{rows_limit};
ghost use Rattle.hv_nest.specs.Touching.{with_words, changed_word, changed_words};
ghost use Rattle.hv_nest.specs.Touching.{file_words, csr_words};

use crate::notes::Notes;
use crate::noting::put_cpu;
use hv_cpu::Cpu;
use hv_exec::Touched;
use hv_store::Store;

/// Puts the registers into the control block in bare page `page`, where they are those that stand there but for the
/// touched words, and notes what changes.
#[inline(always)]
pub fn put_touched(store: &mut Store, notes: &mut Notes, page: u32, cpu: &Cpu, touched: Touched)
    requires page { page < page_count store.old }
    requires room { length notes.old + changed_regs (regs_at (undone store.old notes.old) page) cpu.now ≤ rows_limit }
    requires touches { Touches touched (regs_at store.old page) cpu.now }
    ensures put { store.new ≡ put_regs store.old page cpu.now }
    ensures origin { undone store.new notes.new ≡ undone store.old notes.old }
    ensures count { length notes.new
        ≤ length notes.old + changed_regs (regs_at (undone store.old notes.old) page) cpu.now }
{
    match touched {
        Touched::File { register } => put_file(store, notes, page, cpu, register),
        Touched::Csr { register, word } => match word {
            0 => put_file(store, notes, page, cpu, register),
            32..=48 => put_csr(store, notes, page, cpu, register, word),
            _ => put_all(store, notes, page, cpu),
        },
        Touched::TrapToM => put_trap_to_m(store, notes, page, cpu),
        Touched::TrapToS => put_trap_to_s(store, notes, page, cpu),
        Touched::Return => put_return(store, notes, page, cpu),
        Touched::Any => put_all(store, notes, page, cpu),
    }
}

// Puts all words.
#[inline(never)]
fn put_all(store: &mut Store, notes: &mut Notes, page: u32, cpu: &Cpu)
    requires page { page < page_count store.old }
    requires room { length notes.old + changed_regs (regs_at (undone store.old notes.old) page) cpu.now ≤ rows_limit }
    ensures put { store.new ≡ put_regs store.old page cpu.now }
    ensures origin { undone store.new notes.new ≡ undone store.old notes.old }
    ensures count { length notes.new
        ≤ length notes.old + changed_regs (regs_at (undone store.old notes.old) page) cpu.now }
{
    put_cpu(store, notes, page, cpu);
}

// Puts pc and a register; of x0 there is no word.
#[inline(always)]
fn put_file(store: &mut Store, notes: &mut Notes, page: u32, cpu: &Cpu, register: u32)
    requires page { page < page_count store.old }
    requires register { register < 32 }
    requires room { length notes.old
        + changed_words (regs_at (undone store.old notes.old) page) cpu.now (file_words register) ≤ rows_limit }
    ensures put { store.new ≡ with_words store.old page cpu.now (file_words register) }
    ensures origin { undone store.new notes.new ≡ undone store.old notes.old }
    ensures count { length notes.new
        ≤ length notes.old + changed_words (regs_at (undone store.old notes.old) page) cpu.now (file_words register) }
{
    put_word(store, notes, page, 0, cpu.pc);
    if register != 0 {
        put_word(store, notes, page, register, cpu.x(register as u8));
    }
}

// Puts pc, a register, and the mode or a control register.
#[inline(never)]
fn put_csr(store: &mut Store, notes: &mut Notes, page: u32, cpu: &Cpu, register: u32, word: u32)
    requires page { page < page_count store.old }
    requires register { register < 32 }
    requires control { 32 ≤ word }
    requires word { word < 49 }
    requires room { length notes.old
        + changed_words (regs_at (undone store.old notes.old) page) cpu.now (csr_words register word) ≤ rows_limit }
    ensures put { store.new ≡ with_words store.old page cpu.now (csr_words register word) }
    ensures origin { undone store.new notes.new ≡ undone store.old notes.old }
    ensures count { length notes.new ≤ length notes.old
        + changed_words (regs_at (undone store.old notes.old) page) cpu.now (csr_words register word) }
{
    put_file(store, notes, page, cpu, register);
    put_word(store, notes, page, word, control_word(cpu, word));
}

// Puts what a trap to M writes: pc, mode, mstatus, mepc, mcause and mtval.
#[inline(never)]
fn put_trap_to_m(store: &mut Store, notes: &mut Notes, page: u32, cpu: &Cpu)
    requires page { page < page_count store.old }
    requires room { length notes.old
        + changed_words (regs_at (undone store.old notes.old) page) cpu.now trap_to_m_words ≤ rows_limit }
    ensures put { store.new ≡ with_words store.old page cpu.now trap_to_m_words }
    ensures origin { undone store.new notes.new ≡ undone store.old notes.old }
    ensures count { length notes.new
        ≤ length notes.old + changed_words (regs_at (undone store.old notes.old) page) cpu.now trap_to_m_words }
{
    put_return(store, notes, page, cpu);
    put_word(store, notes, page, 35, cpu.mepc);
    put_word(store, notes, page, 36, cpu.mcause);
    put_word(store, notes, page, 37, cpu.mtval);
}

// Puts what a trap to S writes: pc, mode, mstatus, sepc, scause and stval.
#[inline(never)]
fn put_trap_to_s(store: &mut Store, notes: &mut Notes, page: u32, cpu: &Cpu)
    requires page { page < page_count store.old }
    requires room { length notes.old
        + changed_words (regs_at (undone store.old notes.old) page) cpu.now trap_to_s_words ≤ rows_limit }
    ensures put { store.new ≡ with_words store.old page cpu.now trap_to_s_words }
    ensures origin { undone store.new notes.new ≡ undone store.old notes.old }
    ensures count { length notes.new
        ≤ length notes.old + changed_words (regs_at (undone store.old notes.old) page) cpu.now trap_to_s_words }
{
    put_return(store, notes, page, cpu);
    put_word(store, notes, page, 44, cpu.sepc);
    put_word(store, notes, page, 45, cpu.scause);
    put_word(store, notes, page, 46, cpu.stval);
}

// Puts what MRET and SRET write: pc, mode and mstatus.
#[inline(never)]
fn put_return(store: &mut Store, notes: &mut Notes, page: u32, cpu: &Cpu)
    requires page { page < page_count store.old }
    requires room { length notes.old
        + changed_words (regs_at (undone store.old notes.old) page) cpu.now return_words ≤ rows_limit }
    ensures put { store.new ≡ with_words store.old page cpu.now return_words }
    ensures origin { undone store.new notes.new ≡ undone store.old notes.old }
    ensures count { length notes.new
        ≤ length notes.old + changed_words (regs_at (undone store.old notes.old) page) cpu.now return_words }
{
    put_word(store, notes, page, 0, cpu.pc);
    put_word(store, notes, page, 32, cpu.mode.word());
    put_word(store, notes, page, 33, cpu.mstatus);
}

// Puts one word of a page, and notes it where it changes.
#[inline(always)]
fn put_word(store: &mut Store, notes: &mut Notes, page: u32, word: u32, value: u32)
    requires page { page < page_count store.old }
    requires word { word < 1024 }
    requires room { length notes.old
        + changed_word (word_at (undone store.old notes.old) page word) value ≤ rows_limit }
    ensures put { store.new ≡ with_word store.old page word value }
    ensures origin { undone store.new notes.new ≡ undone store.old notes.old }
    ensures count { length notes.new
        ≤ length notes.old + changed_word (word_at (undone store.old notes.old) page word) value }
{
    let _pages = store.pages();
    notes.put(store, 1024 * page + word, value);
}

// The mode or a control register, by its place in a control block.
#[inline(always)]
fn control_word(cpu: &Cpu, word: u32) -> u32
    requires control { 32 ≤ word }
    requires word { word < 49 }
    ensures { result ≡ slice_index (spelled cpu.now) word }
{
    match word {
        32 => cpu.mode.word(),
        33 => cpu.mstatus,
        34 => cpu.mtvec,
        35 => cpu.mepc,
        36 => cpu.mcause,
        37 => cpu.mtval,
        38 => cpu.mscratch,
        39 => cpu.medeleg,
        40 => cpu.mideleg,
        41 => cpu.mie,
        42 => cpu.mip,
        43 => cpu.stvec,
        44 => cpu.sepc,
        45 => cpu.scause,
        46 => cpu.stval,
        47 => cpu.sscratch,
        _ => cpu.satp,
    }
}
