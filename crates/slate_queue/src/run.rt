//! The queue's program.
ghost use Rattle.std.specs.Prelude.{◌≡◌, ◌≢◌, ◌⊎◌, [], ℕ, List, Err, IfErr, IfOk, None, Ok, Some, false, map};
ghost use Rattle.slate_types.specs.Config.{IsValid};
ghost use Rattle.slate_types.specs.declared.error.SlateDBError.{SlateDBError};
ghost use Rattle.slate_types.specs.Faults.{Rose};
ghost use Rattle.slate_types.specs.Outside.{IsFault, IsStill, Objects, OnlyReads};
ghost use Rattle.slate_table.specs.Filtered.{AreLawful};
ghost use Rattle.slate_store.specs.Reach.{reach_of};
ghost use Rattle.slate_store.specs.Run.{HasTaken, IsRunCause, WroteAsSaid};
ghost use Rattle.slate_db.specs.Meaning.{IsLawfulMeaning, segments_by};
ghost use Rattle.slate_queue.specs.declared.error.QueueError.{QueueError};
ghost use Rattle.slate_queue.specs.Runs.{AnswersBy, Ends, EndsBy, GoesOn, IsReply, IsRunAt};
ghost use Rattle.slate_queue.specs.Feed.{feed_of};
ghost use Rattle.slate_queue.specs.Words.{fed_pair};
ghost use Rattle.slate_queue.specs.Script.{Reply, Run, begun, reply_line, says, stepped, takes};
ghost use Rattle.slate_queue.specs.Onward.{RepliesTo, GoesBetween, EndsBetween, between_none, between_both, between_later, between_apart};
ghost use Rattle.std.proofs.Common.{refl, ◌∙◌};

use crate::calls::{add, claim, finish};
use crate::entries::feed;
use crate::error::QueueError;
use crate::line::{Line, read_line};
use crate::reply;
use bytes::Bytes;
use slate_db::engine::Core;
use slate_db::laws::Laws;
use slate_filter::FilterPolicy;
use slate_store::run::{Program, run_lines};
use slate_store::{Env, EnvOf, Sink, Source, Store};
use slate_types::{
    BlockTransformer, MergeOperator, Options, Outside, PrefixExtractor, SlateDBError,
};
use std::alloc::{AllocError, Global};

/// Answers a line that means this.
fn reply_to<S: Store, M: MergeOperator, T: BlockTransformer, X: PrefixExtractor>(
    alloc: Global,
    core: &mut Core,
    line: Line,
    env: &mut Env<'_, S, M, T>,
    laws: &Laws<X>,
) -> Result<Vec<u8>, SlateDBError>
    requires valid { IsValid laws.now.options }
    requires plain { laws.now.segments ≡ None }
    ensures said { let reach = ⟦<EnvOf<S, M, T> as Outside>⟧.reach in
        let policies = map (λ p. meaning (p.vtable, p.value)) laws.now.policies.items in
        let seg = segments_by X.lengths laws.now.segments in
        (r : Run) → IsRunAt policies seg (reach env.old) core.old r →
        IfOk result (λ text. IsRunAt policies seg (reach env.new) core.new (stepped r line).0 × (text.items ≡ reply_line (stepped r line).1)) }
    ensures goes { let reach = ⟦<EnvOf<S, M, T> as Outside>⟧.reach in
        let policies = map (λ p. meaning (p.vtable, p.value)) laws.now.policies.items in
        GoesOn policies (segments_by X.lengths laws.now.segments) (reach env.old) (reach env.new) core.old core.new 1 }
    ensures still { let reach = ⟦<EnvOf<S, M, T> as Outside>⟧.reach in IsStill (reach env.old).faults (reach env.new).faults result }
    ensures cause { let reach = ⟦<EnvOf<S, M, T> as Outside>⟧.reach in
        let policies = map (λ p. meaning (p.vtable, p.value)) laws.now.policies.items in
        IfErr result (Ends policies (segments_by X.lengths laws.now.segments) (reach env.old) (reach env.new) core.old core.new) }
{
    match line {
        Line::Add { payload } => reply_add(alloc, core, payload, env, laws),
        Line::Claim { now, ms } => reply_claim(alloc, core, now, ms, env, laws),
        Line::Finish { id, lease } => reply_finish(alloc, core, id, lease, env, laws),
        Line::Feed { after } => reply_feed(alloc, core, after),
    }
}

fn reply_add<S: Store, M: MergeOperator, T: BlockTransformer, X: PrefixExtractor>(
    alloc: Global,
    core: &mut Core,
    payload: Bytes,
    env: &mut Env<'_, S, M, T>,
    laws: &Laws<X>,
) -> Result<Vec<u8>, SlateDBError>
    requires valid { IsValid laws.now.options }
    requires plain { laws.now.segments ≡ None }
    ensures said { let reach = ⟦<EnvOf<S, M, T> as Outside>⟧.reach in
        let policies = map (λ p. meaning (p.vtable, p.value)) laws.now.policies.items in
        let seg = segments_by X.lengths laws.now.segments in
        (r : Run) → IsRunAt policies seg (reach env.old) core.old r →
        IfOk result (λ text. IsRunAt policies seg (reach env.new) core.new (stepped r (Line.Add payload)).0 × (text.items ≡ reply_line (stepped r (Line.Add payload)).1)) }
    ensures goes { let reach = ⟦<EnvOf<S, M, T> as Outside>⟧.reach in
        let policies = map (λ p. meaning (p.vtable, p.value)) laws.now.policies.items in
        GoesOn policies (segments_by X.lengths laws.now.segments) (reach env.old) (reach env.new) core.old core.new 1 }
    ensures still { let reach = ⟦<EnvOf<S, M, T> as Outside>⟧.reach in IsStill (reach env.old).faults (reach env.new).faults result }
    ensures cause { let reach = ⟦<EnvOf<S, M, T> as Outside>⟧.reach in
        let policies = map (λ p. meaning (p.vtable, p.value)) laws.now.policies.items in
        IfErr result (Ends policies (segments_by X.lengths laws.now.segments) (reach env.old) (reach env.new) core.old core.new) }
{
    let added = add(core, &payload, 0, env, laws);
    drop(payload);
    match added {
        Ok(id) => written(reply::added(alloc, id)),
        Err(error) => refuse(alloc, error),
    }
}

fn reply_finish<S: Store, M: MergeOperator, T: BlockTransformer, X: PrefixExtractor>(
    alloc: Global,
    core: &mut Core,
    id: u64,
    lease: u64,
    env: &mut Env<'_, S, M, T>,
    laws: &Laws<X>,
) -> Result<Vec<u8>, SlateDBError>
    requires valid { IsValid laws.now.options }
    requires plain { laws.now.segments ≡ None }
    ensures said { let reach = ⟦<EnvOf<S, M, T> as Outside>⟧.reach in
        let policies = map (λ p. meaning (p.vtable, p.value)) laws.now.policies.items in
        let seg = segments_by X.lengths laws.now.segments in
        (r : Run) → IsRunAt policies seg (reach env.old) core.old r →
        IfOk result (λ text. IsRunAt policies seg (reach env.new) core.new (stepped r (Line.Finish id lease)).0 × (text.items ≡ reply_line (stepped r (Line.Finish id lease)).1)) }
    ensures goes { let reach = ⟦<EnvOf<S, M, T> as Outside>⟧.reach in
        let policies = map (λ p. meaning (p.vtable, p.value)) laws.now.policies.items in
        GoesOn policies (segments_by X.lengths laws.now.segments) (reach env.old) (reach env.new) core.old core.new 1 }
    ensures still { let reach = ⟦<EnvOf<S, M, T> as Outside>⟧.reach in IsStill (reach env.old).faults (reach env.new).faults result }
    ensures cause { let reach = ⟦<EnvOf<S, M, T> as Outside>⟧.reach in
        let policies = map (λ p. meaning (p.vtable, p.value)) laws.now.policies.items in
        IfErr result (Ends policies (segments_by X.lengths laws.now.segments) (reach env.old) (reach env.new) core.old core.new) }
{
    match finish(core, id, lease, 0, env, laws) {
        Ok(()) => written(reply::finished(alloc)),
        Err(error) => refuse(alloc, error),
    }
}

fn reply_claim<S: Store, M: MergeOperator, T: BlockTransformer, X: PrefixExtractor>(
    alloc: Global,
    core: &mut Core,
    now: i64,
    ms: u64,
    env: &mut Env<'_, S, M, T>,
    laws: &Laws<X>,
) -> Result<Vec<u8>, SlateDBError>
    requires valid { IsValid laws.now.options }
    requires plain { laws.now.segments ≡ None }
    ensures said { let reach = ⟦<EnvOf<S, M, T> as Outside>⟧.reach in
        let policies = map (λ p. meaning (p.vtable, p.value)) laws.now.policies.items in
        let seg = segments_by X.lengths laws.now.segments in
        (r : Run) → IsRunAt policies seg (reach env.old) core.old r →
        IfOk result (λ text. IsRunAt policies seg (reach env.new) core.new (stepped r (Line.Claim now ms)).0 × (text.items ≡ reply_line (stepped r (Line.Claim now ms)).1)) }
    ensures goes { let reach = ⟦<EnvOf<S, M, T> as Outside>⟧.reach in
        let policies = map (λ p. meaning (p.vtable, p.value)) laws.now.policies.items in
        GoesOn policies (segments_by X.lengths laws.now.segments) (reach env.old) (reach env.new) core.old core.new 1 }
    ensures still { let reach = ⟦<EnvOf<S, M, T> as Outside>⟧.reach in IsStill (reach env.old).faults (reach env.new).faults result }
    ensures cause { let reach = ⟦<EnvOf<S, M, T> as Outside>⟧.reach in
        let policies = map (λ p. meaning (p.vtable, p.value)) laws.now.policies.items in
        IfErr result (Ends policies (segments_by X.lengths laws.now.segments) (reach env.old) (reach env.new) core.old core.new) }
{
    match claim(core, now, ms, env, laws) {
        Ok(Some(claim)) => {
            let text = reply::claimed(alloc, claim.id, claim.lease, claim.payload.as_slice());
            drop(claim);
            written(text)
        }
        Ok(None) => written(reply::none_free(alloc)),
        Err(error) => refuse(alloc, error),
    }
}

fn reply_feed(alloc: Global, core: &Core, after: u64) -> Result<Vec<u8>, SlateDBError>
    ensures text { IfOk result (λ text. text.items ≡ reply_line (Reply.FeedIs (map fed_pair (feed_of after core.now.events)))) }
    ensures cause { IfErr result (λ e. e ≡ SlateDBError.OutOfMemory) }
{
    match feed(core.journal(), after) {
        Ok(entries) => {
            let text = reply::fed(alloc, entries.as_slice());
            drop(entries);
            written(text)
        }
        Err(error) => {
            drop(error);
            Err(SlateDBError::OutOfMemory)
        }
    }
}

fn written(text: Result<Vec<u8>, AllocError>) -> Result<Vec<u8>, SlateDBError>
    ensures text { (t : List ℕ) → IfOk text (λ v. v.items ≡ t) → IfOk result (λ v. v.items ≡ t) }
    ensures cause { IfErr result (λ e. e ≡ SlateDBError.OutOfMemory) }
{
    match text {
        Ok(text) => Ok(text),
        Err(error) => Err(SlateDBError::from(error)),
    }
}

/// The reply to a line that is refused. An error of the database ends the run, but for `SequenceExhausted`.
fn refuse(alloc: Global, error: QueueError) -> Result<Vec<u8>, SlateDBError>
    ensures text { IfOk result (λ v. IsReply error × (v.items ≡ reply_line (Reply.Refused error))) }
    ensures cause { IfErr result (λ e. ((e ≡ SlateDBError.OutOfMemory) × IsReply error) ⊎ ((error ≡ QueueError.Db e) × (e ≢ SlateDBError.SequenceExhausted))) }
{
    match error {
        QueueError::Db(error) => refuse_by(alloc, error),
        other => written(reply::refused(alloc, other)),
    }
}

fn refuse_by(alloc: Global, error: SlateDBError) -> Result<Vec<u8>, SlateDBError>
    ensures text { IfOk result (λ v. (error ≡ SlateDBError.SequenceExhausted) × (v.items ≡ reply_line (Reply.Refused (QueueError.Db error)))) }
    ensures cause { IfErr result (λ e. ((e ≡ SlateDBError.OutOfMemory) × (error ≡ SlateDBError.SequenceExhausted)) ⊎ ((error ≡ e) × (e ≢ SlateDBError.SequenceExhausted))) }
{
    match error {
        SlateDBError::SequenceExhausted => written(reply::refused_by(
            alloc,
            SlateDBError::SequenceExhausted,
        )),
        other => Err(other),
    }
}

/// The reply to the line with this number, and None for a silent line. `ScriptSyntax` comes exactly where it is neither silent nor
/// one of the program's.
fn answer_line<S: Store, M: MergeOperator, T: BlockTransformer, X: PrefixExtractor>(
    alloc: Global,
    core: &mut Core,
    line: &[u8],
    number: u64,
    env: &mut Env<'_, S, M, T>,
    laws: &Laws<X>,
) -> Result<Option<Vec<u8>>, SlateDBError>
    requires valid { IsValid laws.now.options }
    requires plain { laws.now.segments ≡ None }
    ensures { let reach = ⟦<EnvOf<S, M, T> as Outside>⟧.reach in
        let policies = map (λ p. meaning (p.vtable, p.value)) laws.now.policies.items in
        RepliesTo policies (segments_by X.lengths laws.now.segments) line.now number (reach env.old) (reach env.new) core.old core.new result }
{
    match read_line(alloc, line, number) {
        Ok(Some(meaning)) => match reply_to(alloc, core, meaning, env, laws) {
            Ok(text) => Ok(Some(text)),
            Err(error) => Err(error),
        },
        Ok(None) => Ok(None),
        Err(error) => Err(error),
    }
}

/// The program over a core. A struct that holds a `&mut Env` gives its last value back to no proof, so the environment is a parameter.
/// No method of a trait may hand on an extractor, which is `Send`, so the reply is a closure of the run. A line that isn't answered has
/// ended it: behind that no line is answered.
#[derive(Drop)]
struct Queue<'c, 'a, 'p, E, F> {
    core: &'c mut Core,
    env: &'a mut E,
    policies: &'p Vec<Box<dyn FilterPolicy>>,
    reply: F,
    ended: bool,
}

impl<
    E: Outside + Drop,
    F: Fn(&mut E, &mut Core, &[u8], u64) -> Result<Option<Vec<u8>>, SlateDBError> + Drop,
> Program for Queue<'_, '_, '_, E, F> {
    ghost takes = { λ p. takes };

    ghost answers = { λ p f. AnswersBy (map (λ q. (FilterPolicy-box q).meaning q.value) p.policies.now.items) None (E.reach p.env.now) p.core.now f };

    ghost ready = { λ p. ((e : _) (c : _) (l : _) (n : ℕ) → F.pre p.reply e c l n)
        × ((e : _) (c : _) (l : _) (n : ℕ) (r : _) (f : _) (d : _) → F.post p.reply e c l n r f d →
        RepliesTo (map (λ q. (FilterPolicy-box q).meaning q.value) p.policies.now.items) None l.now n (E.reach e.now) (E.reach f.now) c.now d.now r)
        × (p.ended ≡ false) };

    ghost goes = { λ p q n. (q.env.ghost_name ≡ p.env.ghost_name)
        × GoesBetween (λ x. map (λ r. (FilterPolicy-box r).meaning r.value) x.policies.now.items) (λ x. E.reach x.env.now) (λ x. x.core.now) (λ x. x.ended) p q n };

    ghost refuses = { λ p q e. EndsBetween (λ x. map (λ r. (FilterPolicy-box r).meaning r.value) x.policies.now.items) (λ x. E.reach x.env.now) (λ x. x.core.now) (λ x. x.ended) p q e };

    fn answer(
        &mut self,
        alloc: Global,
        line: &[u8],
        number: u64,
    ) -> Result<Option<Vec<u8>>, SlateDBError> {
        match (self.reply)(self.env, self.core, line, number) {
            Ok(text) => Ok(text),
            Err(error) => {
                self.ended = true;
                Err(error)
            }
        }
    }

    ghost ends = { λ p f h. h.2 [] };

    ghost stays = { λ p. (refl, between_none _ _ _ _ p) };

    ghost goes_on = { λ a b c n m p q. (q.0 ∙ p.0, between_both p.1 q.1) };

    ghost later = { λ a b c n e p q. between_later p.1 q };

    ghost apart = { λ a b e p. between_apart p };
}

/// Runs in an environment of whatever type.
fn run_over<
    R: Source,
    W: Sink,
    E: Outside + Drop,
    F: Fn(&mut E, &mut Core, &[u8], u64) -> Result<Option<Vec<u8>>, SlateDBError> + Drop,
>(
    alloc: Global,
    source: &mut R,
    sink: &mut W,
    env: &mut E,
    options: &Options,
    policies: &Vec<Box<dyn FilterPolicy>>,
    reply: F,
) -> Result<(), SlateDBError>
    requires valid { IsValid options.now }
    requires callable { (e : _) (c : _) (l : _) (n : ℕ) → F.pre reply e c l n }
    requires replies { let ps = map (λ p. meaning p) policies.now.items in
        (e : _) (c : _) (l : _) (n : ℕ) (r : _) (f : _) (d : _) → F.post reply e c l n r f d →
        RepliesTo ps None l.now n (E.reach e.now) (E.reach f.now) c.now d.now r }
    ensures said { let ps = map (λ p. meaning p) policies.now.items in
        (script before : List ℕ) (os : Objects) → R.left source.old ≡ Some script → W.content sink.old ≡ Some before →
        AreLawful ps → IsLawfulMeaning (E.reach env.old).meaning → (E.reach env.old).objects ≡ Some os →
        WroteAsSaid takes (says (begun options.now.start_seq)) script (R.left source.new) before (W.content sink.new) result }
    ensures read { (script : List ℕ) → R.left source.old ≡ Some script → HasTaken takes script (R.left source.new) result }
    ensures cause { let ps = map (λ p. meaning p) policies.now.items in
        IfErr result (IsRunCause (Rose (R.faults source.old) (R.faults source.new)) (Rose (W.faults sink.old) (W.faults sink.new)) (EndsBy ps options.now (E.reach env.old) (E.reach env.new))) }
    ensures undamaged { let ps = map (λ p. meaning p) policies.now.items in
        (os : Objects) → AreLawful ps → IsLawfulMeaning (E.reach env.old).meaning → (E.reach env.old).objects ≡ Some os →
        IfErr result (IsRunCause (Rose (R.faults source.old) (R.faults source.new)) (Rose (W.faults sink.old) (W.faults sink.new)) (IsFault (E.reach env.old) (E.reach env.new))) }
    ensures source_still { (result ≡ Err SlateDBError.ReadFault) ⊎ (R.faults source.new ≡ R.faults source.old) }
    ensures sink_still { (result ≡ Err SlateDBError.WriteFault) ⊎ (W.faults sink.new ≡ W.faults sink.old) }
    ensures outside { OnlyReads (E.reach env.old) (E.reach env.new) }
{
    let mut core = Core::new(alloc, options);
    let mut queue = Queue {
        core: &mut core,
        env,
        policies,
        reply,
        ended: false,
    };
    let ran = run_lines(alloc, source, sink, &mut queue);
    let Queue { env, reply, .. } = queue;
    give_back(env);
    drop(reply);
    core.close();
    ran
}

/// Does nothing. By this use a proof knows what the environment ends as that a program was lent.
fn give_back<E>(env: &mut E)
    ensures { env.new ≡ env.old }
{}

/// Answers each line of the source into the sink, over an empty queue, and reads on to the end. Jobs are added with `add`, claimed with
/// `claim` and finished with `finish`; `feed` shows the commits so far. Nothing is ever flushed.
///
/// What is said of replies holds where source and sink tell their bytes, and the parts and the policies are lawful and the store tells
/// its objects. `ScriptSyntax` and `ScriptTooLong` come exactly where the script has them, unless another error came first, `ReadFault`,
/// `WriteFault`, `StoreFault`, `Callback` and `BlockTransformError` only where that object's count of faults rose, and damage only where a
/// read of the core behind some of the lines shows it. Where the database refuses, no count of a part rose in the run but that of the one
/// whose fault it is. No limit is reached.
pub fn run_queue<
    R: Source,
    W: Sink,
    S: Store,
    M: MergeOperator,
    X: PrefixExtractor,
    T: BlockTransformer,
>(
    alloc: Global,
    source: &mut R,
    sink: &mut W,
    env: &mut Env<'_, S, M, T>,
    laws: &Laws<X>,
) -> Result<(), SlateDBError>
    requires valid { IsValid laws.now.options }
    requires plain { laws.now.segments ≡ None }
    ensures said { let reach = ⟦<EnvOf<S, M, T> as Outside>⟧.reach in
        let policies = map (λ p. meaning (p.vtable, p.value)) laws.now.policies.items in
        (script before : List ℕ) (os : Objects) → R.left source.old ≡ Some script → W.content sink.old ≡ Some before →
        AreLawful policies → IsLawfulMeaning (reach env.old).meaning → (reach env.old).objects ≡ Some os →
        WroteAsSaid takes (says (begun laws.now.options.start_seq)) script (R.left source.new) before (W.content sink.new) result }
    ensures read { (script : List ℕ) → R.left source.old ≡ Some script → HasTaken takes script (R.left source.new) result }
    ensures cause { let reach = ⟦<EnvOf<S, M, T> as Outside>⟧.reach in
        let policies = map (λ p. meaning (p.vtable, p.value)) laws.now.policies.items in
        IfErr result (IsRunCause (Rose (R.faults source.old) (R.faults source.new)) (Rose (W.faults sink.old) (W.faults sink.new)) (EndsBy policies laws.now.options (reach env.old) (reach env.new))) }
    ensures undamaged { let reach = ⟦<EnvOf<S, M, T> as Outside>⟧.reach in
        let policies = map (λ p. meaning (p.vtable, p.value)) laws.now.policies.items in
        (os : Objects) → AreLawful policies → IsLawfulMeaning (reach env.old).meaning → (reach env.old).objects ≡ Some os →
        IfErr result (IsRunCause (Rose (R.faults source.old) (R.faults source.new)) (Rose (W.faults sink.old) (W.faults sink.new)) (IsFault (reach env.old) (reach env.new))) }
    ensures source_still { (result ≡ Err SlateDBError.ReadFault) ⊎ (R.faults source.new ≡ R.faults source.old) }
    ensures sink_still { (result ≡ Err SlateDBError.WriteFault) ⊎ (W.faults sink.new ≡ W.faults sink.old) }
    ensures outside { let reach = ⟦<EnvOf<S, M, T> as Outside>⟧.reach in OnlyReads (reach env.old) (reach env.new) }
{
    run_over(
        alloc,
        source,
        sink,
        env,
        &laws.options,
        &laws.policies,
        |env: &mut Env<'_, S, M, T>, core: &mut Core, line: &[u8], number: u64| -> Result<
            Option<Vec<u8>>,
            SlateDBError,
        >
            requires { IsValid laws.now.options × (laws.now.segments ≡ None) }
            ensures { let policies = map (λ p. meaning (p.vtable, p.value)) laws.entry.now.policies.items in
                RepliesTo policies None line.now number (reach_of S.Store M.MergeOperator T.BlockTransformer env.old) (reach_of S.Store M.MergeOperator T.BlockTransformer env.new) core.old core.new result }
        { answer_line(alloc, core, line, number, env, laws) },
    )
}
