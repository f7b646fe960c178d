//! What is kept of runs of tables, of which readers share a copy.
ghost use Rattle.std.specs.Prelude.{◌≡◌, ◌++◌, [], IfOk, OnOk, OnErr};
ghost use Rattle.slate_db.specs.SharedRuns.{tables_in};

use crate::open_scan::copy_run;
use slate_read::SortedRun;
use std::alloc::{AllocError, Global};
use std::marker::Model;
use std::sync::Arc;

/// What is kept of runs of tables, those of the newest install last.
#[derive(Drop)]
pub struct RunList {
    alloc: Global,
    list: Vec<SortedRun>,
    /// The copy that readers share. It is made when the first of them asks for it, and let go when runs are added.
    copy: Option<SharedRuns>,
}

impl Model for RunList {
    ghost use Rattle.std.specs.Prelude.{List};
    ghost use Rattle.slate_read.specs.declared.sorted_run.SortedRun.{SortedRun};
    ghost use Rattle.slate_db.specs.SharedRuns.{IsCopyFor};

    ghost Value = { List SortedRun };

    ghost view = { λ s. s.list.items };

    ghost invariant = { λ s. IsCopyFor s.copy s.list.items };
}

/// A copy of what is kept of runs, which several readers own.
#[derive(Drop)]
pub struct SharedRuns {
    list: Arc<Vec<SortedRun>, Global>,
}

impl Model for SharedRuns {
    ghost use Rattle.std.specs.Prelude.{List};
    ghost use Rattle.std.specs.Arc.{arc_value};
    ghost use Rattle.slate_read.specs.declared.sorted_run.SortedRun.{SortedRun};

    ghost Value = { List SortedRun };

    ghost view = { λ s. (arc_value s.list).items };
}

impl RunList {
    /// No runs. Takes no memory.
    pub(crate) fn new(alloc: Global) -> RunList
        ensures { result ≡ [] }
    {
        RunList {
            alloc,
            list: Vec::new(alloc),
            copy: None,
        }
    }

    /// The runs, those of the newest install last.
    pub fn as_slice(&self) -> &[SortedRun]
        ensures { result.now ≡ self.now }
    {
        self.list.as_slice()
    }

    /// A copy of the runs, which all readers share until runs are added. It takes memory the first time alone.
    pub(crate) fn share(&mut self) -> Result<SharedRuns, AllocError>
        ensures same { self.new ≡ self.old }
        ensures shared { IfOk result (λ runs. tables_in runs ≡ tables_in self.old) }
    {
        if let Some(copy) = &self.copy {
            return copy.another();
        }
        let copy = shared_copy(self.alloc, self.list.as_slice())?;
        let first = copy.another()?;
        self.copy = Some(copy);
        Ok(first)
    }

    /// Adds runs. Where memory is wanting none is added.
    pub(crate) fn append(&mut self, more: &mut Vec<SortedRun>) -> Result<(), AllocError>
        ensures added { OnOk result (self.new ≡ self.old ++ more.old.items) }
        ensures same { OnErr result (self.new ≡ self.old) }
    {
        self.list.append(more)?;
        self.copy = None;
        Ok(())
    }
}

impl SharedRuns {
    /// The runs, those of the newest install last.
    pub fn as_slice(&self) -> &[SortedRun]
        ensures { result.now ≡ self.now }
    {
        self.list.as_slice()
    }

    /// One owner more. Takes no memory.
    fn another(&self) -> Result<SharedRuns, AllocError>
        ensures { IfOk result (λ runs. runs ≡ self.now) }
    {
        let list = Arc::try_clone(&self.list)?;
        Ok(SharedRuns { list })
    }
}

/// A copy of what is kept of runs, for readers.
fn shared_copy(alloc: Global, runs: &[SortedRun]) -> Result<SharedRuns, AllocError>
    ensures { IfOk result (λ copy. tables_in copy ≡ tables_in runs.now) }
{
    let copies = copy_runs(alloc, runs)?;
    let Ok(list) = Arc::new(alloc, copies) else {
        return Err(AllocError);
    };
    Ok(SharedRuns { list })
}

fn copy_runs(alloc: Global, runs: &[SortedRun]) -> Result<Vec<SortedRun>, AllocError>
    ensures { IfOk result (λ copies. tables_in copies.items ≡ tables_in runs.now) }
{
    let mut copies = Vec::new(alloc);
    for run in runs {
        let copy = copy_run(alloc, run)?;
        copies.push(copy)?;
    }
    Ok(copies)
}
