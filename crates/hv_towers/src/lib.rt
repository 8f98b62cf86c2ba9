//! Towers: machines inside one another, each but the innermost with the small monitor that enters its child for ever.
//! The innermost machine runs as a bare machine with the same program does.
#![tactic(auto)]

pub mod building;
pub mod laws;
