//! What always holds of control blocks. Each function here is empty: it states one law, which is proved.

ghost use Rattle.hv_block.specs.Laws.{FitsLaw, OtherLaw, PageLaw, PutLaw, SpellingLaw};

/// A block depends on the words of its page alone: two pages with the same words hold the same block, or both none.
pub fn block_depends_on_its_page()
    ensures { PageLaw }
{}

/// Registers that are put into a block are what its page says then.
pub fn put_registers_are_read_back()
    ensures { PutLaw }
{}

/// Putting registers into a block changes no word of another page, and no word of its page that holds no register.
pub fn put_keeps_other_words()
    ensures { OtherLaw }
{}

/// One state of a block has one spelling: to put the registers that its page says changes nothing.
pub fn put_of_what_is_there()
    ensures { SpellingLaw }
{}

/// A block is well formed in its registers exactly where a hart can have them.
pub fn registers_of_a_block_are_those_of_a_hart()
    ensures { FitsLaw }
{}
