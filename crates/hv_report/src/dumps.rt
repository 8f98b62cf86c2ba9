//! Pages of machines as text.

ghost use Rattle.std.specs.Prelude.{◌≡◌, ◌<◌, ◌++◌, IfOk, IfSome, OnOk};
ghost use Rattle.std.specs.List.{list_all};
ghost use Rattle.hv_word.specs.Storage.{page_count};
ghost use Rattle.hv_report.specs.Dumps.{bytes_line, dump_text, dumps_text, is_zero, line_bytes as line_bytes_of, offset_text, page_lines, page_read};

use hv_block::block_word;
use hv_load::Dump;
use hv_map::{Path, Way, page_slot, pin};
use hv_store::Store;
use hv_text::{hex8, put, put_line, put_number};
use std::alloc::{AllocError, Global};

// Appends each page that is to be shown.
#[tactic(auto, unfolding(crate::specs::Dumps::dumps_text))]
pub(crate) fn put_dumps(
    alloc: Global,
    out: &mut Vec<u8>,
    store: &Store,
    dumps: &[Dump],
) -> Result<(), AllocError>
    ensures { OnOk result (out.new.items ≡ out.old.items ++ dumps_text store.now dumps.now) }
{
    for dump in dumps {
        put_dump(alloc, out, store, dump)?;
    }
    Ok(())
}

// Appends one page of a machine.
fn put_dump(alloc: Global, out: &mut Vec<u8>, store: &Store, dump: &Dump) -> Result<(), AllocError>
    ensures { OnOk result (out.new.items ≡ out.old.items ++ dump_text store.now dump.now) }
{
    put(out, b"dump ")?;
    put(out, dump.name.as_slice())?;
    put_number(out, b" ", u64::from(dump.page))?;
    put(out, b"\n")?;
    match read_page(store, &dump.path, dump.page) {
        Some(host) => put_page(alloc, out, store, host),
        None => put(out, b"absent\n"),
    }
}

/// The bare page where the machine at the end of a path reads a page now; none where there is no such machine, it doesn't have
/// that page, or it can't read it.
pub fn read_page(store: &Store, path: &Path, page: u32) -> Option<u32>
    ensures page { result ≡ page_read store.now path.now page }
    ensures bound { IfSome result (λ g. g < page_count store.now) }
{
    let Some(chain) = pin(store, path) else {
        return None;
    };
    if page >= chain.pages(store) {
        return None;
    }
    match page_slot(store, &chain, page).read {
        Way::Open { host } => Some(host),
        Way::Shut { .. } => None,
    }
}

// Appends the lines of a bare page.
#[tactic(auto, unfolding(crate::specs::Dumps::first_lines), using(crate::proofs::Appending::one_more))]
fn put_page(alloc: Global, out: &mut Vec<u8>, store: &Store, host: u32) -> Result<(), AllocError>
    requires { host < page_count store.now }
    ensures { OnOk result (out.new.items ≡ out.old.items ++ page_lines store.now host) }
{
    for line in 0..128 {
        let bytes = line_bytes(alloc, store, host, line)?;
        put_bytes(alloc, out, line, &bytes)?;
    }
    Ok(())
}

// The 32 bytes of a line.
#[tactic(auto, unfolding(crate::specs::Dumps::words_bytes), using(crate::proofs::Appending::one_more))]
fn line_bytes(alloc: Global, store: &Store, host: u32, line: u32) -> Result<Vec<u8>, AllocError>
    requires host { host < page_count store.now }
    requires line { line < 128 }
    ensures { IfOk result (λ bytes. bytes.items ≡ line_bytes_of store.now host line) }
{
    let mut bytes = Vec::new(alloc);
    for k in 0..8 {
        let word = block_word(store, host, 8 * line + k);
        bytes.extend_from_slice(&word.to_le_bytes())?;
    }
    Ok(bytes)
}

// Appends the bytes of a line, unless all of them are zero.
fn put_bytes(alloc: Global, out: &mut Vec<u8>, line: u32, bytes: &[u8]) -> Result<(), AllocError>
    requires { line < 128 }
    ensures { OnOk result (out.new.items ≡ out.old.items ++ bytes_line line bytes.now) }
{
    if are_zero(bytes) {
        return Ok(());
    }
    put_offset(out, 32 * line)?;
    put(out, b" ")?;
    let digits = hex::encode(alloc, bytes)?;
    put_line(out, digits.as_bytes())
}

// Whether all bytes are zero.
fn are_zero(bytes: &[u8]) -> bool
    ensures { result ≡ list_all is_zero bytes.now }
{
    bytes.iter().all(|byte| *byte == 0)
}

// Appends an offset in a page as three digits.
fn put_offset(out: &mut Vec<u8>, offset: u32) -> Result<(), AllocError>
    ensures { OnOk result (out.new.items ≡ out.old.items ++ offset_text offset) }
{
    put(out, &hex8(offset)[5..])
}
