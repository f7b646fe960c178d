//! A transaction of the shared database.
ghost use Rattle.std.specs.Prelude.{◌≡◌, ◌⊎◌, ◌++◌, List, [], ◌∷◌, None, Some, Err, IfErr, OnOk, OnErr, IsOkUnless};
ghost use mathlib.Core.List.{IsPrefix};
ghost use Rattle.slate_types.specs.declared.error.SlateDBError.{SlateDBError};
ghost use Rattle.slate_mem.specs.declared.WriteOp.{WriteOp};
ghost use Rattle.slate_mem.specs.Refusals.{op_refusal};
ghost use Rattle.slate_txn.specs.declared.event.Event.{Event};
ghost use Rattle.slate_txn.specs.declared.event.Event.TheVariants.{End};
ghost use Rattle.slate_txn.specs.Replay.{IsLegal};
ghost use Rattle.slate_txn.specs.Step.{with_op, with_marks, with_unmarks};

use crate::board::Place;
use crate::database::Database;
use crate::lock::{add, take};
use crate::parts::Parts;
use crate::pass::Pass;
use crate::plays::Merge;
use bytes::Bytes;
use slate_txn::DbTransactionInner;
use slate_types::{PutOptions, SlateDBError};
use std::alloc::Global;
use std::marker::{Model, PhantomData};
use std::sync::Wait;
use uuid::Uuid;

/// An open transaction, which must be spent. It owns what it did and saw, and shares nothing of it.
pub struct DbTransaction<P: Parts> {
    pub(crate) alloc: Global,
    pub(crate) seat: Place<P>,
    pub(crate) id: Uuid,
    pub(crate) own: DbTransactionInner,
    pub(crate) parts: PhantomData<P>,
}

impl<P: Parts> Model for DbTransaction<P> {
    ghost use Rattle.std.specs.Prelude.{◌≡◌, [], Some, None};
    ghost use Rattle.slate_txn.specs.State.{begun};
    ghost use Rattle.slate_shared.specs.Passes.{Opened};

    ghost Value = { Opened };

    ghost view = { λ t. record { table = t.seat.table_id; seen = t.seat.me.0.seen; id = t.id; tx = t.own } };

    ghost invariant = { λ t. (t.seat.me.1 ≡ []) × (t.seat.me.0.parts ≡ 0) × (t.seat.me.0.own ≡ []) × (t.seat.me.0.txn ≡ Some (t.id, begun t.own.level t.own.begin)) × (t.seat.me.0.flight ≡ None) };
}

impl<P: Parts> DbTransaction<P> {
    /// The sequence at which it began.
    pub fn seqnum(&self) -> u64
        ensures { result ≡ self.now.tx.begin }
    {
        self.own.begin()
    }

    /// Its id.
    pub fn id(&self) -> Uuid
        ensures { result ≡ self.now.id }
    {
        self.id
    }

    /// Puts a value. It takes no lock. Refuses by `EmptyKey`, by `KeyTooLong` above 65535 bytes, by `ValueTooLong` above 2^32 - 1
    /// bytes, in this order, and by `OutOfMemory`, and then nothing is put.
    pub fn put_with_options(
        &mut self,
        key: &[u8],
        value: &[u8],
        options: &PutOptions,
    ) -> Result<(), SlateDBError>
        ensures refused { (e : SlateDBError) → op_refusal key.now (WriteOp.Put value.now options.now) ≡ Some e → result ≡ Err e }
        ensures cause { IfErr result (λ e. (e ≡ SlateDBError.OutOfMemory) ⊎ (op_refusal key.now (WriteOp.Put value.now options.now) ≡ Some e)) }
        ensures taken { OnOk result (self.new ≡ record self.old { tx = with_op key.now (WriteOp.Put value.now options.now) self.old.tx }) }
        ensures same { OnErr result (self.new ≡ self.old) }
    {
        self.own.put(self.alloc, key, value, options)
    }

    /// Deletes the key. It takes no lock. Refuses by `EmptyKey`, then by `KeyTooLong` above 65535 bytes, and by `OutOfMemory`, and then
    /// nothing is deleted.
    pub fn delete(&mut self, key: &[u8]) -> Result<(), SlateDBError>
        ensures refused { (e : SlateDBError) → op_refusal key.now WriteOp.Delete ≡ Some e → result ≡ Err e }
        ensures cause { IfErr result (λ e. (e ≡ SlateDBError.OutOfMemory) ⊎ (op_refusal key.now WriteOp.Delete ≡ Some e)) }
        ensures taken { OnOk result (self.new ≡ record self.old { tx = with_op key.now WriteOp.Delete self.old.tx }) }
        ensures same { OnErr result (self.new ≡ self.old) }
    {
        self.own.delete(self.alloc, key)
    }

    /// Marks keys as read, at either level. It takes no lock. Where memory is wanting none is marked.
    pub fn mark_read(&mut self, keys: &[Bytes]) -> Result<(), SlateDBError>
        ensures marked { OnOk result (self.new ≡ record self.old { tx = with_marks keys.now self.old.tx }) }
        ensures same { OnErr result (self.new ≡ self.old) }
        ensures cause { IsOkUnless result SlateDBError.OutOfMemory }
    {
        self.own.mark_read(self.alloc, keys)
    }

    /// Takes keys out of what it tracks where it writes them. It takes no lock. Where memory is wanting none is taken out.
    pub fn unmark_write(&mut self, keys: &[Bytes]) -> Result<(), SlateDBError>
        ensures unmarked { OnOk result (self.new ≡ record self.old { tx = with_unmarks keys.now self.old.tx }) }
        ensures same { OnErr result (self.new ≡ self.old) }
        ensures cause { IsOkUnless result SlateDBError.OutOfMemory }
    {
        self.own.unmark_write(self.alloc, keys)
    }

    /// Ends without a commit, by an event at the end of a journal that begins with what both have seen. It takes no memory.
    pub fn rollback<R: Wait>(self, rt: &R, db: &Database<P>, pass: &mut Pass<P>)
        requires { (self.table ≡ db.now) × (pass.old.table ≡ db.now) }
        ensures same { (pass.new.table ≡ pass.old.table) × (pass.new.parts ≡ pass.old.parts) × (pass.new.own ≡ pass.old.own) }
        ensures seen { (before : List Event) × IsPrefix pass.old.seen before × IsPrefix self.seen before × (pass.new.seen ≡ before ++ End self.id ∷ []) }
        ensures legal { IsLegal P.options.start_seq pass.new.seen }
    {
        let DbTransaction {
            alloc: _,
            seat,
            id,
            own,
            parts: _,
        } = self;
        drop(own);
        let top = &db.board.shared;
        top.join_seat::<Merge>(&mut pass.seat, seat);
        let mut locked = take(rt, top, &mut pass.seat);
        locked.end(&id);
        add(top, &mut pass.seat, locked);
    }
}
