//! Two scans of one serializable transaction, read by turns.
ghost use Rattle.std.specs.Prelude.{◌≡◌, List, [], OnOk, OnErr, map};
ghost use Rattle.slate_types.specs.Config.{IsValid};
ghost use Rattle.slate_types.specs.declared.types.RowEntry.{RowEntry};
ghost use Rattle.slate_types.specs.Outside.{Objects};
ghost use Rattle.slate_filter.specs.Laws.{AreValidNames};
ghost use Rattle.slate_filter.specs.Policy.{Policy};
ghost use Rattle.slate_txn.specs.Vouched.{AreAlone};
ghost use Rattle.slate_db.specs.LeftLaws.{IsLeft};
ghost use Rattle.slate_db.specs.Meaning.{rules_of};
ghost use Rattle.slate_db.specs.Opened.{HasTransaction, StayOpen};
ghost use Rattle.slate_db.specs.Scans.{id_of};
ghost use Rattle.slate_db.specs.SerialLaws.{IsVouchedCore};
ghost use Rattle.slatedb.specs.Turns.{AreBoth, ChangesAlone, IsBare, IsUndone, Stands};

use crate::{
    BlockTransformer, BytesRange, Core, Env, IsolationLevel, IterationOrder, Laws, MergeOperator,
    PrefixExtractor, PutOptions, ReadOptions, ScanOptions, SlateDBError, Store, TxnIterator,
};
use slate_db::laws::{open_scans, transactions};
use slate_store::EnvOf;
use slate_types::Outside;
use uuid::Uuid;

/// Reads all rows upwards and downwards by turns in one serializable transaction, with a get, a put and a flush between, and commits
/// it. A call that is refused ends it without a commit.
///
/// Over a store that tells its objects and holds none yet, for lawful parts and policies, and for a core whose rows are kept and that is
/// vouched for, each serializable commit of the journal stands at its own place behind the call, this one among them.
pub fn read_by_turns<S: Store, M: MergeOperator, T: BlockTransformer, X: PrefixExtractor>(
    core: &mut Core,
    key: &[u8],
    value: &[u8],
    env: &mut Env<'_, S, M, T>,
    laws: &Laws<X>,
) -> Result<Option<u64>, SlateDBError>
    requires valid { IsValid laws.now.options }
    requires names { AreValidNames (map (λ p. (meaning (p.vtable, p.value)).name) laws.now.policies.items) }
    ensures at_their_places { let reach = ⟦<EnvOf<S, M, T> as Outside>⟧.reach in
        let policies = map (λ p. meaning (p.vtable, p.value)) laws.now.policies.items in
        Stands policies (reach env.old) [] core.old → OnOk result (AreAlone (rules_of core.new.settings (reach env.old).meaning) core.new.events) }
    ensures undone { OnErr result (IsUndone core.old core.new) }
{
    transactions();
    let (id, _begin) = core.begin(IsolationLevel::SerializableSnapshot)?;
    let read = open_up(core, &id, key, value, env, laws);
    if let Err(error) = read {
        core.rollback(&id);
        return Err(error);
    }
    core.journal();
    let seq = core.commit(&id, 0, env, laws)?;
    core.journal();
    Ok(seq)
}

/// Opens the scan upwards, and what follows.
fn open_up<S: Store, M: MergeOperator, T: BlockTransformer, X: PrefixExtractor>(
    core: &mut Core,
    id: &Uuid,
    key: &[u8],
    value: &[u8],
    env: &mut Env<'_, S, M, T>,
    laws: &Laws<X>,
) -> Result<(), SlateDBError>
    requires valid { IsValid laws.now.options }
    requires names { AreValidNames (map (λ p. (meaning (p.vtable, p.value)).name) laws.now.policies.items) }
    requires begun { HasTransaction core.old id.now }
    ensures stay { StayOpen core.old core.new }
    ensures alone { ChangesAlone id.now core.old core.new }
    ensures meant { let reach = ⟦<EnvOf<S, M, T> as Outside>⟧.reach in (reach env.new).meaning ≡ (reach env.old).meaning }
    ensures vouched { let reach = ⟦<EnvOf<S, M, T> as Outside>⟧.reach in
        let policies = map (λ p. meaning (p.vtable, p.value)) laws.now.policies.items in
        Stands policies (reach env.old) [] core.old → OnOk result (IsVouchedCore (reach env.old).meaning core.new) }
{
    open_scans();
    let range = BytesRange::unbounded();
    let options = ScanOptions::default();
    let mut up = core.scan(id, range, None, &options, env, laws)?;
    let ended = open_down(core, id, &mut up, key, value, env, laws);
    drop(up);
    ended
}

/// Opens the scan downwards beside that upwards, and what follows.
fn open_down<S: Store, M: MergeOperator, T: BlockTransformer, X: PrefixExtractor>(
    core: &mut Core,
    id: &Uuid,
    up: &mut TxnIterator<'_>,
    key: &[u8],
    value: &[u8],
    env: &mut Env<'_, S, M, T>,
    laws: &Laws<X>,
) -> Result<(), SlateDBError>
    requires valid { IsValid laws.now.options }
    requires names { AreValidNames (map (λ p. (meaning (p.vtable, p.value)).name) laws.now.policies.items) }
    requires begun { HasTransaction core.old id.now }
    requires named { id_of up.old ≡ id.now }
    requires left { let reach = ⟦<EnvOf<S, M, T> as Outside>⟧.reach in (rows : List RowEntry) × IsLeft (reach env.old).meaning core.old up.old rows }
    ensures stay { StayOpen core.old core.new }
    ensures alone { ChangesAlone id.now core.old core.new }
    ensures meant { let reach = ⟦<EnvOf<S, M, T> as Outside>⟧.reach in (reach env.new).meaning ≡ (reach env.old).meaning }
    ensures vouched { let reach = ⟦<EnvOf<S, M, T> as Outside>⟧.reach in
        let m = (reach env.old).meaning in
        let policies = map (λ p. meaning (p.vtable, p.value)) laws.now.policies.items in
        Stands policies (reach env.old) [] core.old → IsBare m core.old up.old → OnOk result (IsVouchedCore m core.new) }
{
    open_scans();
    let range = BytesRange::unbounded();
    let options = ScanOptions {
        order: IterationOrder::Descending,
        filter_context: None,
    };
    let mut down = core.scan(id, range, None, &options, env, laws)?;
    let ended = take_turns(core, id, up, &mut down, key, value, env, laws);
    drop(down);
    ended
}

/// Two turns, with a get, a put and a flush between.
fn take_turns<S: Store, M: MergeOperator, T: BlockTransformer, X: PrefixExtractor>(
    core: &mut Core,
    id: &Uuid,
    up: &mut TxnIterator<'_>,
    down: &mut TxnIterator<'_>,
    key: &[u8],
    value: &[u8],
    env: &mut Env<'_, S, M, T>,
    laws: &Laws<X>,
) -> Result<(), SlateDBError>
    requires valid { IsValid laws.now.options }
    requires names { AreValidNames (map (λ p. (meaning (p.vtable, p.value)).name) laws.now.policies.items) }
    requires both { let reach = ⟦<EnvOf<S, M, T> as Outside>⟧.reach in AreBoth (reach env.old).meaning core.old up.old down.old }
    requires named { id_of up.old ≡ id.now }
    ensures stay { StayOpen core.old core.new }
    ensures alone { ChangesAlone id.now core.old core.new }
    ensures meant { let reach = ⟦<EnvOf<S, M, T> as Outside>⟧.reach in (reach env.new).meaning ≡ (reach env.old).meaning }
    ensures vouched { let reach = ⟦<EnvOf<S, M, T> as Outside>⟧.reach in
        let m = (reach env.old).meaning in
        let policies = map (λ p. meaning (p.vtable, p.value)) laws.now.policies.items in
        Stands policies (reach env.old) [] core.old → IsBare m core.old up.old → IsBare m core.old down.old → OnOk result (IsVouchedCore m core.new) }
{
    open_scans();
    transactions();
    turn(core, up, down, env)?;
    let options = ReadOptions::default();
    drop(core.get(id, key, &options, env, laws)?);
    core.put(id, key, value, &PutOptions::default())?;
    core.flush(env, laws)?;
    turn(core, up, down, env)
}

/// One turn: the next row of each.
fn turn<S: Store, M: MergeOperator, T: BlockTransformer>(
    core: &mut Core,
    up: &mut TxnIterator<'_>,
    down: &mut TxnIterator<'_>,
    env: &mut Env<'_, S, M, T>,
) -> Result<(), SlateDBError>
    requires both { let reach = ⟦<EnvOf<S, M, T> as Outside>⟧.reach in AreBoth (reach env.old).meaning core.old up.old down.old }
    ensures stay { StayOpen core.old core.new }
    ensures alone { ChangesAlone (id_of up.old) core.old core.new }
    ensures meant { let reach = ⟦<EnvOf<S, M, T> as Outside>⟧.reach in (reach env.new).meaning ≡ (reach env.old).meaning }
    ensures both { let reach = ⟦<EnvOf<S, M, T> as Outside>⟧.reach in OnOk result (AreBoth (reach env.old).meaning core.new up.new down.new × (id_of up.new ≡ id_of up.old)) }
    ensures stands { let reach = ⟦<EnvOf<S, M, T> as Outside>⟧.reach in
        let m = (reach env.old).meaning in
        (policies : List Policy) (os : Objects) → Stands policies (reach env.old) os core.old → IsBare m core.old up.old → IsBare m core.old down.old →
        OnOk result (Stands policies (reach env.new) os core.new × IsBare m core.new up.new × IsBare m core.new down.new) }
{
    open_scans();
    drop(core.next(up, env)?);
    drop(core.next(down, env)?);
    Ok(())
}
