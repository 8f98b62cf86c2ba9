//! A machine's twin: the storage that it sees, as a storage of its own, and a bare machine that runs there alone.
#![tactic(auto)]

mod alone;
mod copying;

pub use alone::bare_run;
pub use copying::seen;
