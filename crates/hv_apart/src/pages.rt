//! The first machines of a chain, how many pages a table takes, and the bare pages in which a machine reads the tables of its
//! children or writes a page.

ghost use Rattle.std.specs.Prelude.{◌≡◌, ◌<◌, ◌≤◌, ◌^◌, IfSome, Some, length, map, take};
ghost use Rattle.std.specs.Option.{option_to_list};
ghost use Rattle.hv_word.specs.Storage.{page_count};
ghost use Rattle.hv_map.specs.Apart.{directory_of, table_open, table_pages as table_pages_of};
ghost use Rattle.hv_map.specs.Chain.{map_along, pin_of};
ghost use Rattle.hv_map.specs.Compose.{reading, table_of};
ghost use Rattle.hv_map.specs.Links.{syllable_of};
ghost use Rattle.hv_map.specs.Tables.{IsCacheOf};
ghost use Rattle.hv_apart.specs.Table.{item_of_chain};
ghost use Rattle.hv_apart.specs.Upgrade.{written_in};

use hv_block::block_word;
use hv_map::{Chain, ChainItem, Path, TableCache, Way, page_slot, pin};
use hv_store::Store;
use hv_word::field;

/// The first `level` machines of a chain of the store.
pub(crate) fn prefix(store: &Store, chain: &Chain, level: u32) -> Chain
    requires level { level ≤ length chain.now }
    requires pinned { pin_of store.now (map syllable_of chain.now) ≡ Some chain.now }
    ensures { result ≡ take level chain.now }
{
    let whole = chain.path();
    let mut path = Path::new();
    for syllable in &whole.as_slice()[..level as usize] {
        path.push(*syllable);
    }
    pin(store, &path).unwrap()
}

/// How many pages the table of so many pages takes.
pub(crate) fn table_pages(pages: u32) -> u32
    requires { pages ≤ 2 ^ 20 }
    ensures pages { result ≡ table_pages_of pages }
    ensures bound { result ≤ 1024 }
{
    (pages + 1023) / 1024
}

/// The bare page of the directory of a child, where the chain's machine can read it and the child has one.
pub(crate) fn directory(
    cache: &mut TableCache,
    store: &Store,
    chain: &Chain,
    child: ChainItem,
) -> Option<u32>
    requires { IsCacheOf store.now chain.now cache.old }
    ensures page { option_to_list result ≡ directory_of (map_along store.now chain.now) (item_of_chain child) }
    ensures bound { IfSome result (λ g. g < page_count store.now) }
    ensures cache { IsCacheOf store.now chain.now cache.new }
{
    if child.version == 2 {
        cache.read(store, chain, u64::from(child.table))
    } else {
        None
    }
}

/// The bare page that has the table word of a child's page `page`, where the chain's machine can read it.
pub(crate) fn table_page(
    cache: &mut TableCache,
    store: &Store,
    chain: &Chain,
    child: ChainItem,
    page: u32,
) -> Option<u32>
    requires page { page < 2 ^ 20 }
    requires cache { IsCacheOf store.now chain.now cache.old }
    ensures page { option_to_list result ≡ table_open (map_along store.now chain.now) (table_of store.now (reading (map_along store.now chain.now)) (length chain.now) child.table child.version page) }
    ensures bound { IfSome result (λ g. g < page_count store.now) }
    ensures cache { IsCacheOf store.now chain.now cache.new }
{
    if child.version != 2 {
        return cache.read(
            store,
            chain,
            u64::from(child.table) + u64::from(page / 1024),
        );
    }
    let directory = cache.read(store, chain, u64::from(child.table))?;
    let word = block_word(store, directory, page / 1024);
    if word % 2 == 0 {
        return None;
    }
    cache.read(store, chain, u64::from(field::<12, 20>(word)))
}

/// The bare page of page `page` of the chain's machine for writing; none where it can't write it.
pub(crate) fn written_at(store: &Store, chain: &Chain, page: u32) -> Option<u32>
    requires { page < length (map_along store.now chain.now) }
    ensures page { result ≡ written_in (map_along store.now chain.now) page }
    ensures bound { IfSome result (λ g. g < page_count store.now) }
{
    match page_slot(store, chain, page).write {
        Way::Open { host } => Some(host),
        Way::Shut { .. } => None,
    }
}
