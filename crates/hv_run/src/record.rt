//! What is told of a play.

use crate::fault::FaultRow;
use hv_list::Items;
use hv_map::Path;
use hv_nest::LineRow;
use std::marker::Model;

/// What is told of a watch: its hart and its machine's path, the bare page of the machine's control block at the start, none
/// for the bare machine, whether the machine's readable pages were in different bare pages at the start, and whether all
/// that it stood on was; whether another machine touched it; how many steps were counted; how often its interrupt lines
/// were changed from outside, and the first `KEPT` of these changes.
#[derive(Drop)]
pub struct WatchRow {
    pub hart: u32,
    pub path: Path,
    pub block: Option<u32>,
    pub one: bool,
    pub apart: bool,
    pub touched: bool,
    pub count: u64,
    pub line_total: u64,
    pub lines: Items<LineRow>,
}

impl Model for WatchRow {
    ghost use Rattle.hv_run.specs.Record.{WatchRecord};

    ghost Value = { WatchRecord };

    ghost view = { λ w. record {
      hart = w.hart;
      path = w.path;
      block = w.block;
      one = w.one;
      apart = w.apart;
      touched = w.touched;
      count = w.count;
      line_total = w.line_total;
      lines = w.lines;
    } };
}

/// What is told of a play: the numbers of its steps, faults and recalls, its last `KEPT` faults in order, and its watches.
#[derive(Drop)]
pub struct Record {
    pub steps: u64,
    pub faults: u64,
    pub recalls: u64,
    pub kept: Items<FaultRow>,
    pub watches: Items<WatchRow>,
}

impl Model for Record {
    ghost use Rattle.hv_run.specs.Record.{PlayRecord};

    ghost Value = { PlayRecord };

    ghost view = { λ r. record {
      steps = r.steps;
      faults = r.faults;
      recalls = r.recalls;
      kept = r.kept;
      watches = r.watches;
    } };
}
