//! Merges of tables, and purges.

ghost use Rattle.std.specs.Prelude.{◌≡◌, ◌↔◌, [], IsOk, IsTrue, IfOk, IfErr};

use changes::Change;
use cs_base::{Items, Micros};
use cs_store::FileNo;
use std::alloc::Global;
use std::marker::Model;

/// How long after a deletion it may be purged, table by table.
#[derive(Debug, Drop)]
pub struct Graces {
    pub by_table: Items<Micros>,
}

/// A change that is held no more, and when the mark was sent that gave leave to let go of it.
#[derive(Debug, Drop)]
pub struct Purged {
    pub change: Change,
    pub sent: Micros,
}

/// What was purged.
#[derive(Debug, Drop)]
pub struct Purges {
    purged: Items<Purged>,
}

impl Model for Purges {
    ghost use Rattle.std.specs.Prelude.{List};
    ghost use Rattle.replica.specs.declared.merge.Purged.{Purged as purged_value};

    ghost Value = { List purged_value };

    ghost view = { λ a. a.purged };
}

impl Purges {
    /// Nothing, without an allocation.
    pub fn new(alloc: Global) -> Purges
        ensures { result ≡ [] }
    {
        Purges {
            purged: Items::new(alloc),
        }
    }

    pub fn as_slice(&self) -> &[Purged]
        ensures { result.now ≡ self.now }
    {
        self.purged.as_slice()
    }
}

/// A merge of tables that was begun: the tables, the file that it writes, when it began, what it purged so far, and whether all
/// of it is written.
#[derive(Debug, Drop)]
pub struct MergeJob {
    pub inputs: Items<FileNo>,
    pub output: FileNo,
    pub began: Micros,
    pub purges: Purges,
    pub written: bool,
}

/// A merge of which all is written.
#[derive(Debug, Drop)]
pub struct MergeDone {
    pub job: MergeJob,
}

impl MergeJob {
    /// The merge, to be put in the place of its tables. It is handed back where not all of it is written.
    pub fn finish(self) -> Result<MergeDone, MergeJob>
        ensures when { IsOk result ↔ IsTrue self.written }
        ensures done { IfOk result (λ done. done.job ≡ self) }
        ensures handed_back { IfErr result (λ job. job ≡ self) }
    {
        if self.written {
            Ok(MergeDone { job: self })
        } else {
            Err(self)
        }
    }
}
