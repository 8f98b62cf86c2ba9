//! Which of the small monitors.

/// A monitor that is ready to be assembled at address 0 of a machine.
#[derive(Clone, Copy, Debug, PartialEq, Eq)]
pub enum Sample {
    /// Enters the child at page 1 for ever.
    Pass,
    /// Runs two children in turn, by timer interrupts. Hart h has their blocks at pages
    /// 1 + 2h and 2 + 2h.
    Slicer,
    /// Hands the first raised lines on to the child at page 1, once.
    Forward,
    /// Runs the child at page 1, whose only table page is page 2. The child's page i is the page
    /// 3 + i, made present when it is first missed.
    Pager,
}
