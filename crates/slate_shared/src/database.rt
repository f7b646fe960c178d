//! The shared database.
ghost use Rattle.std.specs.Prelude.{◌≡◌, ◌≤◌, [], IfOk, IsOkUnless};
ghost use mathlib.Core.List.{IsPrefix};
ghost use Rattle.slate_types.specs.declared.error.SlateDBError.{SlateDBError};
ghost use Rattle.slate_db.specs.Segmented.{IsSegmented};
ghost use Rattle.slate_db.specs.Sound.{IsKept};
ghost use Rattle.slate_txn.specs.Settings.{settings_of};
ghost use Rattle.slate_shared.specs.Locked.{NamesTables};
ghost use Rattle.slate_shared.specs.Shared.{IsSized, OwnsAll, all_parts, newcomer};

use crate::board::{Board, Place};
use crate::lock::take;
use crate::locked::Locked;
use crate::parts::Parts;
use crate::pass::Pass;
use atomic_table::Table;
use slate_db::engine::Core;
use slate_types::{Options, SlateDBError};
use std::alloc::Global;
use std::marker::{Model, PhantomData};
use std::sync::Wait;

/// A database that threads share. Contracts see it as the name of its table.
#[derive(Drop)]
pub struct Database<P: Parts> {
    pub(crate) alloc: Global,
    pub(crate) board: Board<P>,
}

impl<P: Parts> Model for Database<P> {
    ghost use Rattle.atomic_table.specs.Seated.{TableId, table_id_coded};
    ghost use Rattle.slate_shared.specs.Shared.{IsSized};

    ghost Value = { TableId };

    ghost coded = { table_id_coded };

    ghost view = { λ d. d.board.shared.table_id };

    ghost invariant = { λ d. IsSized d.board.shared.table_id };
}

// The table with a core without events in its slot, and its first seat.
fn open_board<P: Parts>(
    alloc: Global,
    options: &Options,
) -> Result<(Board<P>, Place<P>), SlateDBError>
    requires options { options.now ≡ P.options }
    requires start { options.now.start_seq ≤ 18446744073709551614 }
    ensures ok { IfOk result (λ r. IsSized r.0.shared.table_id × (r.1.table_id ≡ r.0.shared.table_id) × (r.1.me ≡ (newcomer all_parts [], []))) }
    ensures cause { IsOkUnless result SlateDBError.OutOfMemory }
{
    let mut slots = Vec::new(alloc);
    if slots.push(Some(Locked::new(alloc, options))).is_err() {
        return Err(SlateDBError::OutOfMemory);
    }
    let Ok((board, seat)) = Table::new(alloc, &[0], slots, &()) else {
        return Err(SlateDBError::OutOfMemory);
    };
    Ok((board, seat))
}

impl<P: Parts> Database<P> {
    /// An empty database, and the pass of its first thread, which has all parts. The one error is `OutOfMemory`.
    pub fn new(alloc: Global, options: &Options) -> Result<(Database<P>, Pass<P>), SlateDBError>
        requires options { options.now ≡ P.options }
        requires start { options.now.start_seq ≤ 18446744073709551614 }
        ensures ok { IfOk result (λ r. (r.1.table ≡ r.0) × (r.1.parts ≡ all_parts) × (r.1.seen ≡ []) × (r.1.own ≡ [])) }
        ensures cause { IsOkUnless result SlateDBError.OutOfMemory }
    {
        let (board, seat) = open_board(alloc, options)?;
        let pass = Pass {
            seat,
            parts: PhantomData,
        };
        Ok((Database { alloc, board }, pass))
    }

    /// Takes the core out. Its journal begins with what the pass had seen; and of a pass that has all parts, its own commits,
    /// writes and installs are all that the journal has. The core has the options of the database, its
    /// flushes are numbered, and its tables have the filters of the database's policies.
    pub fn close<R: Wait>(self, rt: &R, pass: Pass<P>) -> Core
        requires { pass.table ≡ self }
        ensures seen { IsPrefix pass.seen result.events }
        ensures whole { pass.parts ≡ all_parts → OwnsAll pass.own result.events }
        ensures kept { IsKept P.meaning result }
        ensures segmented { IsSegmented P.segments result }
        ensures settings { result.settings ≡ settings_of P.options }
        ensures named { NamesTables P.meaning P.policies result.events }
    {
        let Pass { mut seat, parts: _ } = pass;
        let locked = take(rt, &self.board.shared, &mut seat);
        locked.into_core()
    }
}
