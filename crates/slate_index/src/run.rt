//! A run over lines of records.
ghost use Rattle.std.specs.Prelude.{◌≡◌, ◌⊎◌, ℕ, List, [], Some, None, Ok, Err, IfErr, IfOk, false, map, true};
ghost use Rattle.std.specs.Global.{Vec};
ghost use Rattle.slate_types.specs.Config.{IsValid};
ghost use Rattle.slate_types.specs.declared.error.SlateDBError.{SlateDBError};
ghost use Rattle.slate_types.specs.Faults.{Rose};
ghost use Rattle.slate_types.specs.Outside.{OnlyReads};
ghost use Rattle.slate_store.specs.Reach.{reach_of};
ghost use Rattle.slate_store.specs.Run.{HasTaken, IsRunCause, WroteAsSaid};
ghost use Rattle.slate_index.specs.declared.error.IndexError.{IndexError};
ghost use Rattle.slate_index.specs.Running.{Answers, Premises, RunEnds, RunsAs};
ghost use Rattle.slate_index.specs.Script.{IsOwn, Reply, begun, is_taken, reply_line, says};
ghost use Rattle.slate_index.specs.Words.{has_reply, is_said};
ghost use Rattle.slate_index.specs.Onward.{RepliesTo, GoesBetween, EndsBetween, between_none, between_both, ends_later};
ghost use Rattle.std.proofs.Common.{refl, ◌∙◌};

use crate::change::{delete_record, put_record};
use crate::error::IndexError;
use crate::fields::Fields;
use crate::line::{Line, read_line};
use crate::lookups::lookup;
use crate::name::Name;
use crate::reply::{done, found, refusal};
use bytes::Bytes;
use slate_db::engine::Core;
use slate_db::laws::Laws;
use slate_filter::FilterPolicy;
use slate_store::run::{Program, run_lines};
use slate_store::{Env, EnvOf, Sink, Source, Store};
use slate_types::{
    BlockTransformer, MergeOperator, Options, Outside, PrefixExtractor, SlateDBError,
};
use std::alloc::Global;

/// Answers each line of the source into the sink over a new core, and reads on to the end: `put` with an id and a value, `del` with an
/// id, and `find` with the number of an index and a field. Commits have the moment 0.
///
/// What is said of what was written holds where source and sink tell their bytes, parts and policies of filters are lawful, and the
/// store tells its objects: it is what a plain map of records gives, of which `find` takes all that have the field.
///
/// An error of the lines themselves, `ScriptSyntax` or `ScriptTooLong`, comes exactly where `error_in` has it, unless another error came
/// first. `ReadFault` and `WriteFault` come only where that object's count of faults rose, and any other error only where the database
/// refuses for it; with lawful parts that is a fault whose count rose in this call, or `OutOfMemory`. Where the database refuses, no count
/// of a part rose in the run but that of the one whose fault it is. No limit is reached.
pub fn run_index<
    R: Source,
    W: Sink,
    S: Store,
    M: MergeOperator,
    X: PrefixExtractor,
    T: BlockTransformer,
    F: Fields,
>(
    alloc: Global,
    source: &mut R,
    sink: &mut W,
    env: &mut Env<'_, S, M, T>,
    laws: &Laws<X>,
    fields: &F,
) -> Result<(), SlateDBError>
    requires valid { IsValid laws.now.options }
    requires whole { laws.now.segments ≡ None }
    ensures said { let reach = ⟦<EnvOf<S, M, T> as Outside>⟧.reach in
        let policies = map (λ p. meaning (p.vtable, p.value)) laws.now.policies.items in
        (script before : List ℕ) → R.left source.old ≡ Some script → W.content sink.old ≡ Some before → Premises policies (reach env.old) →
        WroteAsSaid (is_taken (F.model fields.now)) (says (F.model fields.now) (begun laws.now.options.start_seq)) script (R.left source.new) before (W.content sink.new) result }
    ensures read { (script : List ℕ) → R.left source.old ≡ Some script → HasTaken (is_taken (F.model fields.now)) script (R.left source.new) result }
    ensures cause { let reach = ⟦<EnvOf<S, M, T> as Outside>⟧.reach in
        let policies = map (λ p. meaning (p.vtable, p.value)) laws.now.policies.items in
        IfErr result (IsRunCause (Rose (R.faults source.old) (R.faults source.new)) (Rose (W.faults sink.old) (W.faults sink.new)) (RunEnds policies (reach env.old) (reach env.new))) }
    ensures source_still { (result ≡ Err SlateDBError.ReadFault) ⊎ (R.faults source.new ≡ R.faults source.old) }
    ensures sink_still { (result ≡ Err SlateDBError.WriteFault) ⊎ (W.faults sink.new ≡ W.faults sink.old) }
    ensures reads { let reach = ⟦<EnvOf<S, M, T> as Outside>⟧.reach in OnlyReads (reach env.old) (reach env.new) }
{
    run_over(
        alloc,
        source,
        sink,
        env,
        &laws.options,
        &laws.policies,
        fields,
        |env: &mut Env<'_, S, M, T>, core: &mut Core, line: &[u8], number: u64| -> Result<
            Option<Vec<u8>>,
            SlateDBError,
        >
            requires { IsValid laws.now.options × (laws.now.segments ≡ None) }
            ensures { let policies = map (λ p. meaning (p.vtable, p.value)) laws.entry.now.policies.items in
                RepliesTo policies (F.model fields.entry.now) line.now number (reach_of S.Store M.MergeOperator T.BlockTransformer env.old) (reach_of S.Store M.MergeOperator T.BlockTransformer env.new) core.old core.new result }
        { reply(alloc, core, fields, line, number, env, laws) },
    )
}

/// The reply to the line with this number, and None for a silent line.
fn reply<F: Fields, S: Store, M: MergeOperator, X: PrefixExtractor, T: BlockTransformer>(
    alloc: Global,
    core: &mut Core,
    fields: &F,
    line: &[u8],
    number: u64,
    env: &mut Env<'_, S, M, T>,
    laws: &Laws<X>,
) -> Result<Option<Vec<u8>>, SlateDBError>
    requires valid { IsValid laws.now.options }
    requires whole { laws.now.segments ≡ None }
    ensures { let reach = ⟦<EnvOf<S, M, T> as Outside>⟧.reach in
        let policies = map (λ p. meaning (p.vtable, p.value)) laws.now.policies.items in
        RepliesTo policies (F.model fields.now) line.now number (reach env.old) (reach env.new) core.old core.new result }
{
    match read_line(alloc, fields, line, number) {
        Ok(Some(meant)) => match answer_line(alloc, core, fields, meant, env, laws) {
            Ok(text) => Ok(Some(text)),
            Err(error) => Err(error),
        },
        Ok(None) => Ok(None),
        Err(error) => Err(error),
    }
}

/// The program over a core. A struct that holds a `&mut Env` gives its last value back to no proof, so the environment is a parameter.
/// No method of a trait may hand on an extractor, which is `Send`, so the reply is a closure of the run. A line that isn't answered has
/// ended it: behind that no line is answered.
#[derive(Drop)]
struct Index<'c, 'a, 'p, 'f, E, F, A> {
    core: &'c mut Core,
    env: &'a mut E,
    policies: &'p Vec<Box<dyn FilterPolicy>>,
    fields: &'f F,
    reply: A,
    ended: bool,
}

impl<
    E: Outside + Drop,
    F: Fields,
    A: Fn(&mut E, &mut Core, &[u8], u64) -> Result<Option<Vec<u8>>, SlateDBError> + Drop,
> Program for Index<'_, '_, '_, '_, E, F, A> {
    ghost takes = { λ p. is_taken (F.model p.fields.now) };

    ghost answers = { λ p f. RunsAs (map (λ q. (FilterPolicy-box q).meaning q.value) p.policies.now.items) (F.model p.fields.now) (E.reach p.env.now) p.core.now f };

    ghost ready = { λ p. ((e : _) (c : _) (l : _) (n : ℕ) → A.pre p.reply e c l n)
        × ((e : _) (c : _) (l : _) (n : ℕ) (r : _) (f : _) (d : _) → A.post p.reply e c l n r f d →
        RepliesTo (map (λ q. (FilterPolicy-box q).meaning q.value) p.policies.now.items) (F.model p.fields.now) l.now n (E.reach e.now) (E.reach f.now) c.now d.now r)
        × (p.ended ≡ false) };

    ghost goes = { λ p q n. (q.env.ghost_name ≡ p.env.ghost_name)
        × GoesBetween (λ x. map (λ r. (FilterPolicy-box r).meaning r.value) x.policies.now.items) (λ x. E.reach x.env.now) (λ x. x.core.now) (λ x. x.ended) p q n };

    ghost refuses = { λ p q e. EndsBetween (λ x. map (λ r. (FilterPolicy-box r).meaning r.value) x.policies.now.items) (λ x. E.reach x.env.now) (λ x. x.core.now) (λ x. x.ended) p q e };

    fn answer(
        &mut self,
        alloc: Global,
        line: &[u8],
        number: u64,
    ) -> Result<Option<Vec<u8>>, SlateDBError> {
        match (self.reply)(self.env, self.core, line, number) {
            Ok(text) => Ok(text),
            Err(error) => {
                self.ended = true;
                Err(error)
            }
        }
    }

    ghost ends = { λ p f h. h.2 [] };

    ghost stays = { λ p. (refl, between_none _ _ _ _ p) };

    ghost goes_on = { λ a b c n m p q. (q.0 ∙ p.0, between_both p.1 q.1) };

    ghost later = { λ a b c n e p q. ends_later p.1 q };

    ghost apart = { λ a b e p. p.error.apart };
}

/// Runs in an environment of whatever type.
fn run_over<
    R: Source,
    W: Sink,
    E: Outside + Drop,
    F: Fields,
    A: Fn(&mut E, &mut Core, &[u8], u64) -> Result<Option<Vec<u8>>, SlateDBError> + Drop,
>(
    alloc: Global,
    source: &mut R,
    sink: &mut W,
    env: &mut E,
    options: &Options,
    policies: &Vec<Box<dyn FilterPolicy>>,
    fields: &F,
    reply: A,
) -> Result<(), SlateDBError>
    requires valid { IsValid options.now }
    requires callable { (e : _) (c : _) (l : _) (n : ℕ) → A.pre reply e c l n }
    requires replies { let ps = map (λ p. meaning p) policies.now.items in
        (e : _) (c : _) (l : _) (n : ℕ) (r : _) (f : _) (d : _) → A.post reply e c l n r f d →
        RepliesTo ps (F.model fields.now) l.now n (E.reach e.now) (E.reach f.now) c.now d.now r }
    ensures said { let ps = map (λ p. meaning p) policies.now.items in
        (script before : List ℕ) → R.left source.old ≡ Some script → W.content sink.old ≡ Some before → Premises ps (E.reach env.old) →
        WroteAsSaid (is_taken (F.model fields.now)) (says (F.model fields.now) (begun options.now.start_seq)) script (R.left source.new) before (W.content sink.new) result }
    ensures read { (script : List ℕ) → R.left source.old ≡ Some script → HasTaken (is_taken (F.model fields.now)) script (R.left source.new) result }
    ensures cause { let ps = map (λ p. meaning p) policies.now.items in
        IfErr result (IsRunCause (Rose (R.faults source.old) (R.faults source.new)) (Rose (W.faults sink.old) (W.faults sink.new)) (RunEnds ps (E.reach env.old) (E.reach env.new))) }
    ensures source_still { (result ≡ Err SlateDBError.ReadFault) ⊎ (R.faults source.new ≡ R.faults source.old) }
    ensures sink_still { (result ≡ Err SlateDBError.WriteFault) ⊎ (W.faults sink.new ≡ W.faults sink.old) }
    ensures reads { OnlyReads (E.reach env.old) (E.reach env.new) }
{
    let mut core = Core::new(alloc, options);
    let mut index = Index {
        core: &mut core,
        env,
        policies,
        fields,
        reply,
        ended: false,
    };
    let ran = run_lines(alloc, source, sink, &mut index);
    let Index { env, reply, .. } = index;
    give_back(env);
    drop(reply);
    core.close();
    ran
}

/// Does nothing. By this use a proof knows what the environment ends as that a program was lent.
fn give_back<E>(env: &mut E)
    ensures { env.new ≡ env.old }
{}

/// What a line is answered.
fn answer_line<F: Fields, S: Store, M: MergeOperator, X: PrefixExtractor, T: BlockTransformer>(
    alloc: Global,
    core: &mut Core,
    fields: &F,
    line: Line,
    env: &mut Env<'_, S, M, T>,
    laws: &Laws<X>,
) -> Result<Vec<u8>, SlateDBError>
    requires valid { IsValid laws.now.options }
    requires whole { laws.now.segments ≡ None }
    requires own { IsOwn (F.model fields.now) line }
    ensures { let reach = ⟦<EnvOf<S, M, T> as Outside>⟧.reach in
        let policies = map (λ p. meaning (p.vtable, p.value)) laws.now.policies.items in
        Answers policies (F.model fields.now) line (reach env.old) (reach env.new) core.old core.new result }
{
    match line {
        Line::Put { id, value } => {
            let put = put_record(core, fields, &id, &value, 0, env, laws);
            drop(id);
            drop(value);
            changed(alloc, put)
        }
        Line::Delete { id } => {
            let deleted = delete_record(core, fields, &id, 0, env, laws);
            drop(id);
            changed(alloc, deleted)
        }
        Line::Find { number, field } => {
            core.journal();
            let ids = lookup(core, number, &field, env, laws);
            drop(field);
            searched(alloc, ids)
        }
    }
}

/// What a change is answered.
fn changed(alloc: Global, change: Result<u64, IndexError>) -> Result<Vec<u8>, SlateDBError>
    ensures done { (n : ℕ) → change ≡ Ok n → IfOk result (λ v. v.items ≡ reply_line Reply.Done) }
    ensures refused { (e : IndexError) → change ≡ Err e → IfOk result (λ v. (v.items ≡ reply_line (Reply.Refused e)) × (is_said e ≡ true)) }
    ensures cause { IfErr result (λ x. ((x ≡ SlateDBError.OutOfMemory) × IfErr change (λ e. is_said e ≡ true)) ⊎ ((change ≡ Err (IndexError.Db x)) × (has_reply x ≡ false))) }
{
    match change {
        Ok(_) => done(alloc).map_err(SlateDBError::from),
        Err(error) => refusal(alloc, error),
    }
}

/// What a search is answered.
fn searched(alloc: Global, ids: Result<Vec<Name>, IndexError>) -> Result<Vec<u8>, SlateDBError>
    ensures found { (found : Vec (List ℕ)) → ids ≡ Ok found → IfOk result (λ v. v.items ≡ reply_line (Reply.FoundAre found.items)) }
    ensures refused { (e : IndexError) → ids ≡ Err e → IfOk result (λ v. is_said e ≡ true) }
    ensures cause { IfErr result (λ x. ((x ≡ SlateDBError.OutOfMemory) × IfErr ids (λ e. is_said e ≡ true)) ⊎ ((ids ≡ Err (IndexError.Db x)) × (has_reply x ≡ false))) }
{
    match ids {
        Ok(ids) => {
            let text = found(alloc, ids.as_slice());
            drop(ids);
            text.map_err(SlateDBError::from)
        }
        Err(error) => refusal(alloc, error),
    }
}
