//! A run over lines of orders.
ghost use Rattle.std.specs.Prelude.{◌≡◌, ◌⊎◌, ℕ, List, [], Some, None, Ok, Err, IfErr, IfOk, false, map, true};
ghost use Rattle.std.specs.Global.{Vec};
ghost use Rattle.slate_types.specs.Config.{IsValid};
ghost use Rattle.slate_types.specs.declared.error.SlateDBError.{SlateDBError};
ghost use Rattle.slate_types.specs.Faults.{Rose};
ghost use Rattle.slate_types.specs.Outside.{OnlyReads};
ghost use Rattle.slate_store.specs.Reach.{reach_of};
ghost use Rattle.slate_store.specs.Run.{HasTaken, IsRunCause, WroteAsSaid};
ghost use Rattle.slate_stock.specs.declared.total.AssetTotal.{AssetTotal};
ghost use Rattle.slate_stock.specs.declared.error.StockError.{StockError};
ghost use Rattle.slate_stock.specs.Runs.{Answers, Premises, RunEnds, RunsAs};
ghost use Rattle.slate_stock.specs.Lines.{is_stock_line, ok_words, opening_books, refused_words, replies_on, reply_of_words, total_words};
ghost use Rattle.slate_stock.specs.Words.{has_reply, is_said};
ghost use Rattle.slate_stock.specs.Onward.{RepliesTo, GoesBetween, EndsBetween, between_none, between_both, ends_later};
ghost use Rattle.std.proofs.Common.{refl, ◌∙◌};

use crate::error::StockError;
use crate::line::{StockLine, read_line};
use crate::on_core::run_order_core;
use crate::reply::{done, refusal, sums};
use crate::total::{AssetTotal, total};
use slate_db::engine::Core;
use slate_db::laws::Laws;
use slate_filter::FilterPolicy;
use slate_store::run::{Program, run_lines};
use slate_store::{Env, EnvOf, Sink, Source, Store};
use slate_types::{
    BlockTransformer, MergeOperator, Options, Outside, PrefixExtractor, SlateDBError,
};
use std::alloc::Global;

/// Answers each line of the source into the sink over a new core, and reads on to the end: `issue`, `pay` and `trade`, each an order, and
/// `total` of an asset. Commits have the moment 0.
///
/// What is said of what was written holds where source and sink tell their bytes, parts and policies of filters are lawful, and the
/// store tells its objects: it is what the orders' steps on a plain map of amounts give.
///
/// An error of the lines themselves, `ScriptSyntax` or `ScriptTooLong`, comes exactly where `error_in` has it, unless another error came
/// first. `ReadFault` and `WriteFault` come only where that object's count of faults rose, and any other error only where the database
/// refuses for it; with lawful parts that is a fault whose count rose in this call, or `OutOfMemory`. Where the database refuses, no count
/// of a part rose in the run but that of the one whose fault it is. No limit is reached.
pub fn run_stock<
    R: Source,
    W: Sink,
    S: Store,
    M: MergeOperator,
    X: PrefixExtractor,
    T: BlockTransformer,
>(
    alloc: Global,
    source: &mut R,
    sink: &mut W,
    env: &mut Env<'_, S, M, T>,
    laws: &Laws<X>,
) -> Result<(), SlateDBError>
    requires valid { IsValid laws.now.options }
    requires whole { laws.now.segments ≡ None }
    ensures said { let reach = ⟦<EnvOf<S, M, T> as Outside>⟧.reach in
        let policies = map (λ p. meaning (p.vtable, p.value)) laws.now.policies.items in
        (script before : List ℕ) → R.left source.old ≡ Some script → W.content sink.old ≡ Some before → Premises policies (reach env.old) →
        WroteAsSaid is_stock_line (replies_on (opening_books laws.now.options.start_seq)) script (R.left source.new) before (W.content sink.new) result }
    ensures read { (script : List ℕ) → R.left source.old ≡ Some script → HasTaken is_stock_line script (R.left source.new) result }
    ensures cause { let reach = ⟦<EnvOf<S, M, T> as Outside>⟧.reach in
        let policies = map (λ p. meaning (p.vtable, p.value)) laws.now.policies.items in
        IfErr result (IsRunCause (Rose (R.faults source.old) (R.faults source.new)) (Rose (W.faults sink.old) (W.faults sink.new)) (RunEnds policies (reach env.old) (reach env.new))) }
    ensures source_still { (result ≡ Err SlateDBError.ReadFault) ⊎ (R.faults source.new ≡ R.faults source.old) }
    ensures sink_still { (result ≡ Err SlateDBError.WriteFault) ⊎ (W.faults sink.new ≡ W.faults sink.old) }
    ensures reads { let reach = ⟦<EnvOf<S, M, T> as Outside>⟧.reach in OnlyReads (reach env.old) (reach env.new) }
{
    run_over(
        alloc,
        source,
        sink,
        env,
        &laws.options,
        &laws.policies,
        |env: &mut Env<'_, S, M, T>, core: &mut Core, line: &[u8], number: u64| -> Result<
            Option<Vec<u8>>,
            SlateDBError,
        >
            requires { IsValid laws.now.options × (laws.now.segments ≡ None) }
            ensures { let policies = map (λ p. meaning (p.vtable, p.value)) laws.entry.now.policies.items in
                RepliesTo policies line.now number (reach_of S.Store M.MergeOperator T.BlockTransformer env.old) (reach_of S.Store M.MergeOperator T.BlockTransformer env.new) core.old core.new result }
        { reply(alloc, core, line, number, env, laws) },
    )
}

/// The reply to the line with this number, and None for a silent line.
fn reply<S: Store, M: MergeOperator, X: PrefixExtractor, T: BlockTransformer>(
    alloc: Global,
    core: &mut Core,
    line: &[u8],
    number: u64,
    env: &mut Env<'_, S, M, T>,
    laws: &Laws<X>,
) -> Result<Option<Vec<u8>>, SlateDBError>
    requires valid { IsValid laws.now.options }
    requires whole { laws.now.segments ≡ None }
    ensures { let reach = ⟦<EnvOf<S, M, T> as Outside>⟧.reach in
        let policies = map (λ p. meaning (p.vtable, p.value)) laws.now.policies.items in
        RepliesTo policies line.now number (reach env.old) (reach env.new) core.old core.new result }
{
    match read_line(alloc, line, number) {
        Ok(Some(meant)) => match answer_line(alloc, core, meant, env, laws) {
            Ok(text) => Ok(Some(text)),
            Err(error) => Err(error),
        },
        Ok(None) => Ok(None),
        Err(error) => Err(error),
    }
}

/// The program over a core. A struct that holds a `&mut Env` gives its last value back to no proof, so the environment is a parameter.
/// No method of a trait may hand on an extractor, which is `Send`, so the reply is a closure of the run. A line that isn't answered has
/// ended it: behind that no line is answered.
#[derive(Drop)]
struct Stock<'c, 'a, 'p, E, F> {
    core: &'c mut Core,
    env: &'a mut E,
    policies: &'p Vec<Box<dyn FilterPolicy>>,
    reply: F,
    ended: bool,
}

impl<
    E: Outside + Drop,
    F: Fn(&mut E, &mut Core, &[u8], u64) -> Result<Option<Vec<u8>>, SlateDBError> + Drop,
> Program for Stock<'_, '_, '_, E, F> {
    ghost takes = { λ p. is_stock_line };

    ghost answers = { λ p f. RunsAs (map (λ q. (FilterPolicy-box q).meaning q.value) p.policies.now.items) (E.reach p.env.now) p.core.now f };

    ghost ready = { λ p. ((e : _) (c : _) (l : _) (n : ℕ) → F.pre p.reply e c l n)
        × ((e : _) (c : _) (l : _) (n : ℕ) (r : _) (f : _) (d : _) → F.post p.reply e c l n r f d →
        RepliesTo (map (λ q. (FilterPolicy-box q).meaning q.value) p.policies.now.items) l.now n (E.reach e.now) (E.reach f.now) c.now d.now r)
        × (p.ended ≡ false) };

    ghost goes = { λ p q n. (q.env.ghost_name ≡ p.env.ghost_name)
        × GoesBetween (λ x. map (λ r. (FilterPolicy-box r).meaning r.value) x.policies.now.items) (λ x. E.reach x.env.now) (λ x. x.core.now) (λ x. x.ended) p q n };

    ghost refuses = { λ p q e. EndsBetween (λ x. map (λ r. (FilterPolicy-box r).meaning r.value) x.policies.now.items) (λ x. E.reach x.env.now) (λ x. x.core.now) (λ x. x.ended) p q e };

    fn answer(
        &mut self,
        alloc: Global,
        line: &[u8],
        number: u64,
    ) -> Result<Option<Vec<u8>>, SlateDBError> {
        match (self.reply)(self.env, self.core, line, number) {
            Ok(text) => Ok(text),
            Err(error) => {
                self.ended = true;
                Err(error)
            }
        }
    }

    ghost ends = { λ p f h. h.2 [] };

    ghost stays = { λ p. (refl, between_none _ _ _ _ p) };

    ghost goes_on = { λ a b c n m p q. (q.0 ∙ p.0, between_both p.1 q.1) };

    ghost later = { λ a b c n e p q. ends_later p.1 q };

    ghost apart = { λ a b e p. p.error.apart };
}

/// Runs in an environment of whatever type.
fn run_over<
    R: Source,
    W: Sink,
    E: Outside + Drop,
    F: Fn(&mut E, &mut Core, &[u8], u64) -> Result<Option<Vec<u8>>, SlateDBError> + Drop,
>(
    alloc: Global,
    source: &mut R,
    sink: &mut W,
    env: &mut E,
    options: &Options,
    policies: &Vec<Box<dyn FilterPolicy>>,
    reply: F,
) -> Result<(), SlateDBError>
    requires valid { IsValid options.now }
    requires callable { (e : _) (c : _) (l : _) (n : ℕ) → F.pre reply e c l n }
    requires replies { let ps = map (λ p. meaning p) policies.now.items in
        (e : _) (c : _) (l : _) (n : ℕ) (r : _) (f : _) (d : _) → F.post reply e c l n r f d →
        RepliesTo ps l.now n (E.reach e.now) (E.reach f.now) c.now d.now r }
    ensures said { let ps = map (λ p. meaning p) policies.now.items in
        (script before : List ℕ) → R.left source.old ≡ Some script → W.content sink.old ≡ Some before → Premises ps (E.reach env.old) →
        WroteAsSaid is_stock_line (replies_on (opening_books options.now.start_seq)) script (R.left source.new) before (W.content sink.new) result }
    ensures read { (script : List ℕ) → R.left source.old ≡ Some script → HasTaken is_stock_line script (R.left source.new) result }
    ensures cause { let ps = map (λ p. meaning p) policies.now.items in
        IfErr result (IsRunCause (Rose (R.faults source.old) (R.faults source.new)) (Rose (W.faults sink.old) (W.faults sink.new)) (RunEnds ps (E.reach env.old) (E.reach env.new))) }
    ensures source_still { (result ≡ Err SlateDBError.ReadFault) ⊎ (R.faults source.new ≡ R.faults source.old) }
    ensures sink_still { (result ≡ Err SlateDBError.WriteFault) ⊎ (W.faults sink.new ≡ W.faults sink.old) }
    ensures reads { OnlyReads (E.reach env.old) (E.reach env.new) }
{
    let mut core = Core::new(alloc, options);
    let mut stock = Stock {
        core: &mut core,
        env,
        policies,
        reply,
        ended: false,
    };
    let ran = run_lines(alloc, source, sink, &mut stock);
    let Stock { env, reply, .. } = stock;
    give_back(env);
    drop(reply);
    core.close();
    ran
}

/// Does nothing. By this use a proof knows what the environment ends as that a program was lent.
fn give_back<E>(env: &mut E)
    ensures { env.new ≡ env.old }
{}

/// What a line is answered.
fn answer_line<S: Store, M: MergeOperator, X: PrefixExtractor, T: BlockTransformer>(
    alloc: Global,
    core: &mut Core,
    line: StockLine,
    env: &mut Env<'_, S, M, T>,
    laws: &Laws<X>,
) -> Result<Vec<u8>, SlateDBError>
    requires valid { IsValid laws.now.options }
    requires whole { laws.now.segments ≡ None }
    ensures { let reach = ⟦<EnvOf<S, M, T> as Outside>⟧.reach in
        let policies = map (λ p. meaning (p.vtable, p.value)) laws.now.policies.items in
        Answers policies line (reach env.old) (reach env.new) core.old core.new result }
{
    core.journal();
    match line {
        StockLine::Order(order) => {
            let made = run_order_core(core, &order, 0, env, laws);
            drop(order);
            ordered(alloc, made)
        }
        StockLine::Total(asset) => {
            asset.is_named();
            let found = total(core, &asset, env, laws);
            drop(asset);
            totalled(alloc, found)
        }
    }
}

/// What an order is answered.
fn ordered(alloc: Global, made: Result<u64, StockError>) -> Result<Vec<u8>, SlateDBError>
    ensures done { (n : ℕ) → made ≡ Ok n → IfOk result (λ v. v.items ≡ reply_of_words ok_words) }
    ensures refused { (e : StockError) → made ≡ Err e → IfOk result (λ v. (v.items ≡ reply_of_words (refused_words e)) × (is_said e ≡ true)) }
    ensures cause { IfErr result (λ x. ((x ≡ SlateDBError.OutOfMemory) × IfErr made (λ e. is_said e ≡ true)) ⊎ ((made ≡ Err (StockError.Db x)) × (has_reply x ≡ false))) }
{
    match made {
        Ok(_) => done(alloc).map_err(SlateDBError::from),
        Err(error) => refusal(alloc, error),
    }
}

/// What a total is answered.
fn totalled(alloc: Global, total: Result<AssetTotal, StockError>) -> Result<Vec<u8>, SlateDBError>
    ensures found { (t : AssetTotal) → total ≡ Ok t → IfOk result (λ v. v.items ≡ reply_of_words (total_words t.sum t.issued)) }
    ensures refused { (e : StockError) → total ≡ Err e → IfOk result (λ v. (v.items ≡ reply_of_words (refused_words e)) × (is_said e ≡ true)) }
    ensures cause { IfErr result (λ x. ((x ≡ SlateDBError.OutOfMemory) × IfErr total (λ e. is_said e ≡ true)) ⊎ ((total ≡ Err (StockError.Db x)) × (has_reply x ≡ false))) }
{
    match total {
        Ok(total) => sums(alloc, total.sum, total.issued).map_err(SlateDBError::from),
        Err(error) => refusal(alloc, error),
    }
}
