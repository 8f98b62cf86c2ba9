//! The 50 words of a machine.

ghost use Rattle.std.specs.Prelude.{◌≡◌, ◌<◌, IfSome, length};
ghost use Rattle.hv_word.specs.Storage.{page_count};
ghost use Rattle.hv_report.specs.Report.{block_words as block_words_of, machine_words as machine_words_of};

use hv_block::block_word;
use hv_nest::Nested;
use hv_store::Store;

/// The 50 words of a watched machine, as they are now: those of the bare page `block`, or of the hart where there is none.
pub fn machine_words<N: Nested>(nested: &N, hart: u32, block: Option<u32>) -> [u32; 50]
    requires hart { hart < length (N.state nested.now).harts }
    requires block { IfSome block (λ g. g < page_count (N.state nested.now).storage) }
    ensures { result ≡ machine_words_of (N.state nested.now) hart block }
{
    match block {
        Some(page) => block_words(nested.parked(), page),
        None => nested.cpu(hart).words(),
    }
}

// The words 0 to 48 of a control block, and then 64.
fn block_words(store: &Store, page: u32) -> [u32; 50]
    requires { page < page_count store.now }
    ensures { result ≡ block_words_of store.now page }
{
    let mut words = [0; 50];
    for word in 0..49 {
        words[word as usize] = block_word(store, page, word);
    }
    words[49] = block_word(store, page, 64);
    words
}
