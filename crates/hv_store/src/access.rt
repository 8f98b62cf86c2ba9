//! What a machine's map says of a page.

/// What a word is asked for.
#[derive(Clone, Copy, Debug, PartialEq, Eq)]
pub enum Access {
    Read,
    Write,
    Fetch,
}

/// A refusal by a machine's map: the level of the machine that set up that map, the cause, and the byte address and the
/// access that were asked of it.
#[derive(Clone, Copy, Debug, PartialEq, Eq)]
pub struct Refusal {
    pub level: u32,
    pub cause: u32,
    pub address: u32,
    pub access: Access,
}

/// Where a page of a machine lies: in a bare page, or nowhere. `page` is the page that was asked of the map that refuses,
/// at `level`; `word` is given where it is a table or directory word that couldn't be read there.
#[derive(Clone, Copy, Debug, PartialEq, Eq)]
pub enum Way {
    Open {
        host: u32,
    },
    Shut {
        level: u32,
        cause: u32,
        page: u32,
        word: Option<u32>,
    },
}

/// The ways of one page of a machine, one for each kind of access.
#[derive(Clone, Copy, Debug, PartialEq, Eq)]
pub struct Slot {
    pub read: Way,
    pub write: Way,
    pub fetch: Way,
}
