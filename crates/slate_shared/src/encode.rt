//! The tables of a flush, built by several workers.
ghost use Rattle.std.specs.Prelude.{◌≡◌, ◌≤◌, ◌<◌, ◌⊎◌, [], ◌∷◌, ◌++◌, Result, Ok, Err, map, flat_map, length, IfOk, IfErr, IsOkUnless};
ghost use Rattle.std.specs.List.{AllByRecursion, AllZip};
ghost use Rattle.slate_types.specs.declared.error.SlateDBError.{SlateDBError};
ghost use Rattle.slate_types.specs.Config.{IsValid};
ghost use Rattle.slate_types.specs.Faults.{faults_of, Rose};
ghost use Rattle.slate_filter.specs.Laws.{AreValidNames};
ghost use Rattle.slate_table.specs.SectionReading.{changed_by};
ghost use Rattle.slate_table.specs.Table.{AreInOrder};
ghost use Rattle.slate_db.specs.Cut.{AreCut};
ghost use Rattle.slate_db.specs.Flushed.{layout_of};
ghost use Rattle.slate_db.specs.Layers.{FitsMemory};
ghost use Rattle.slate_db.specs.Meaning.{segments_by};
ghost use Rattle.slate_db.specs.StoredParts.{CanBuild};
ghost use Rattle.slate_shared.specs.Encoded.{AreOfOneEncoding, AreTablesOfPlan, IsUnbuilt, PlansAreAlike, one_encoding, RoseInOne};
ghost use Rattle.slate_shared.specs.Jobs.{AreJobsAt, CanMake, IsOutcome, joined_of, tables_made};

use slate_db::cut::{TableRows, cut_tables};
use slate_db::flush::built;
use slate_db::laws::Laws;
use slate_filter::FilterPolicy;
use slate_table::EncodedSsTable;
use slate_types::{BlockTransformer, PrefixExtractor, RowEntry, SlateDBError, Ulid};
use std::alloc::Global;
use std::thread::Threads;
use std::{mem, thread};

/// What tables are made of: rows in a table's order, and the number of the flush, of which the tables have their ids.
#[derive(Drop)]
pub struct FlushPlan {
    /// The rows, by key upwards, then by sequence downwards.
    pub rows: Vec<RowEntry>,
    /// The number of the flush.
    pub number: u64,
}

/// What one thread encodes with.
#[derive(Drop)]
pub struct EncodeWorker<T> {
    /// What changes the bytes of the tables' parts, where there is one.
    pub transformer: Option<T>,
}

/// A table that is to be built.
#[derive(Drop)]
pub(crate) struct Job {
    pub(crate) id: Ulid,
    pub(crate) rows: Vec<RowEntry>,
}

/// The share of one worker: neighbouring tables, the worker's transformer while they are built, and what came of them.
#[derive(Drop)]
pub(crate) struct Bench<T> {
    pub(crate) jobs: Vec<Job>,
    pub(crate) transformer: Option<T>,
    pub(crate) made: Result<Vec<EncodedSsTable>, SlateDBError>,
}

/// The tables of the plan's rows, in the order of their places: cut as a flush cuts them, each under the id of the plan's number
/// and its place. Each worker builds neighbouring tables, in a thread of its own where one can be made. The bytes don't depend on
/// the number of workers. Of several refusals that of the first place is given: `BlockTransformError`, only where the count of
/// faults of a worker's transformer rose; `LimitReached` where the table would have too many blocks; or `OutOfMemory`. The workers
/// keep their transformers at each outcome.
pub fn encode_segments<R: Threads + Sync, T: BlockTransformer + Send, X: PrefixExtractor>(
    rt: &R,
    alloc: Global,
    plan: &FlushPlan,
    laws: &Laws<X>,
    workers: &mut [EncodeWorker<T>],
) -> Result<Vec<EncodedSsTable>, SlateDBError>
    requires valid { IsValid laws.now.options }
    requires names { AreValidNames (map (λ p. (meaning (p.vtable, p.value)).name) laws.now.policies.items) }
    requires order { AreInOrder plan.now.rows.items }
    requires fit { AllByRecursion FitsMemory plan.now.rows.items }
    requires encoding { AreOfOneEncoding (map (λ w. changed_by T.encoded w.transformer) workers.old) }
    ensures encoded { IfOk result (λ tables. AreTablesOfPlan (one_encoding (map (λ w. changed_by T.encoded w.transformer) workers.old)) (layout_of laws.now.options (map (λ p. meaning (p.vtable, p.value)) laws.now.policies.items) (segments_by X.lengths laws.now.segments)) plan.now.number plan.now.rows.items tables.items) }
    ensures cause { IfErr result (λ e. (e ≡ SlateDBError.OutOfMemory) ⊎ IsUnbuilt (one_encoding (map (λ w. changed_by T.encoded w.transformer) workers.old)) (layout_of laws.now.options (map (λ p. meaning (p.vtable, p.value)) laws.now.policies.items) (segments_by X.lengths laws.now.segments)) (RoseInOne (map (λ w. faults_of T.faults w.transformer) workers.old) (map (λ w. faults_of T.faults w.transformer) workers.new)) plan.now.number plan.now.rows.items e) }
    ensures same_encoded { map (λ w. changed_by T.encoded w.transformer) workers.new ≡ map (λ w. changed_by T.encoded w.transformer) workers.old }
    ensures same_decoded { map (λ w. changed_by T.decoded w.transformer) workers.new ≡ map (λ w. changed_by T.decoded w.transformer) workers.old }
    ensures later { AllZip (λ before now. before ≤ now) (map (λ w. faults_of T.faults w.transformer) workers.old) (map (λ w. faults_of T.faults w.transformer) workers.new) }
{
    let parts = parts_of(alloc, plan, laws)?;
    let jobs = jobs_of(alloc, plan.number, parts)?;
    let mut benches = benches_of(alloc, jobs, workers.len())?;
    work(rt, alloc, laws, &mut benches, workers);
    joined(alloc, benches)
}

/// Of the tables of a plan. Those of one plan, under one layout and by one encoding, are the same, byte for byte: so they don't hang on
/// how many workers there are, nor on which of them builds which tables.
pub fn plans()
    ensures same { PlansAreAlike }
{}

/// The rows of the plan, shared, in tables. The one error is `OutOfMemory`.
fn parts_of<X: PrefixExtractor>(
    alloc: Global,
    plan: &FlushPlan,
    laws: &Laws<X>,
) -> Result<Vec<TableRows>, SlateDBError>
    requires order { AreInOrder plan.now.rows.items }
    requires fit { AllByRecursion FitsMemory plan.now.rows.items }
    ensures cut { IfOk result (λ parts. AreCut (segments_by X.lengths laws.now.segments) laws.now.options.table_bytes plan.now.rows.items (map (λ t. t.rows.items) parts.items)) }
    ensures each { IfOk result (λ parts. AllByRecursion CanBuild (map (λ t. t.rows.items) parts.items)) }
    ensures cause { IsOkUnless result SlateDBError.OutOfMemory }
{
    if plan.rows.is_empty() {
        return Ok(Vec::new(alloc));
    }
    let rows = copied_rows(plan)?;
    cut_tables(alloc, rows, laws.options.table_bytes, &laws.segments)
}

/// The rows of the plan, which share their buffers. The one error is `OutOfMemory`.
fn copied_rows(plan: &FlushPlan) -> Result<Vec<RowEntry>, SlateDBError>
    ensures same { IfOk result (λ rows. rows.items ≡ plan.now.rows.items) }
    ensures cause { IsOkUnless result SlateDBError.OutOfMemory }
{
    Ok(plan.rows.clone()?)
}

/// A job for each table, under the ids of their places. The one error is `OutOfMemory`.
fn jobs_of(alloc: Global, number: u64, parts: Vec<TableRows>) -> Result<Vec<Job>, SlateDBError>
    ensures jobs { IfOk result (λ jobs. AreJobsAt number 0 (map (λ t. t.rows.items) parts.items) jobs.items) }
    ensures cause { IsOkUnless result SlateDBError.OutOfMemory }
{
    let mut jobs = Vec::with_capacity(alloc, parts.len())?;
    for part in parts {
        let id = Ulid(number as u128 * 18446744073709551616 + jobs.len() as u128);
        jobs.push_reserved(Job {
            id,
            rows: part.rows,
        });
    }
    Ok(jobs)
}

/// So many benches, which share the jobs in their order. The one error is `OutOfMemory`.
fn benches_of<T: BlockTransformer>(
    alloc: Global,
    jobs: Vec<Job>,
    count: usize,
) -> Result<Vec<Bench<T>>, SlateDBError>
    requires { 0 < count }
    ensures len { IfOk result (λ benches. length benches.items ≡ count) }
    ensures jobs { IfOk result (λ benches. flat_map (λ b. b.jobs.items) benches.items ≡ jobs.items) }
    ensures cause { IsOkUnless result SlateDBError.OutOfMemory }
{
    let mut benches = Vec::with_capacity(alloc, count)?;
    let mut left = jobs;
    for taken in 1..count {
        let share = left.len() / (count - taken + 1);
        let rest = left.split_off(share)?;
        benches.push_reserved(Bench::new(alloc, mem::replace(&mut left, rest)));
    }
    benches.push_reserved(Bench::new(alloc, left));
    Ok(benches)
}

/// Each bench's jobs are done with the transformer of the worker in its place, in a thread of its own where one can be made.
fn work<R: Threads + Sync, T: BlockTransformer + Send, X: PrefixExtractor>(
    rt: &R,
    alloc: Global,
    laws: &Laws<X>,
    benches: &mut [Bench<T>],
    workers: &mut [EncodeWorker<T>],
)
    requires valid { IsValid laws.now.options }
    requires names { AreValidNames (map (λ p. (meaning (p.vtable, p.value)).name) laws.now.policies.items) }
    requires len { length benches.old ≡ length workers.old }
    requires encoding { AreOfOneEncoding (map (λ w. changed_by T.encoded w.transformer) workers.old) }
    requires each { AllByRecursion CanMake (flat_map (λ b. b.jobs.items) benches.old) }
    ensures outcome { IsOutcome (one_encoding (map (λ w. changed_by T.encoded w.transformer) workers.old)) (layout_of laws.now.options (map (λ p. meaning (p.vtable, p.value)) laws.now.policies.items) (segments_by X.lengths laws.now.segments)) (RoseInOne (map (λ w. faults_of T.faults w.transformer) workers.old) (map (λ w. faults_of T.faults w.transformer) workers.new)) (flat_map (λ b. b.jobs.items) benches.old) (joined_of (map (λ b. tables_made (λ v. v.items) b.made) benches.new)) }
    ensures same_encoded { map (λ w. changed_by T.encoded w.transformer) workers.new ≡ map (λ w. changed_by T.encoded w.transformer) workers.old }
    ensures same_decoded { map (λ w. changed_by T.decoded w.transformer) workers.new ≡ map (λ w. changed_by T.decoded w.transformer) workers.old }
    ensures later { AllZip (λ before now. before ≤ now) (map (λ w. faults_of T.faults w.transformer) workers.old) (map (λ w. faults_of T.faults w.transformer) workers.new) }
{
    swap_transformers(benches, workers);
    let run = |_place: usize, bench: &mut Bench<T>|
        requires { IsValid laws.now.options × AreValidNames (map (λ p. (meaning (p.vtable, p.value)).name) laws.now.policies.items) × AllByRecursion CanMake bench.old.jobs.items }
        ensures { IsOutcome (changed_by T.encoded bench.old.transformer) (layout_of laws.entry.now.options (map (λ p. meaning (p.vtable, p.value)) laws.entry.now.policies.items) (segments_by X.lengths laws.entry.now.segments)) (Rose (faults_of T.faults bench.old.transformer) (faults_of T.faults bench.new.transformer)) bench.old.jobs.items (tables_made (λ v. v.items) bench.new.made)
            × (changed_by T.encoded bench.new.transformer ≡ changed_by T.encoded bench.old.transformer)
            × (changed_by T.decoded bench.new.transformer ≡ changed_by T.decoded bench.old.transformer)
            × (faults_of T.faults bench.old.transformer ≤ faults_of T.faults bench.new.transformer) }
    { bench.run(alloc, laws) };
    thread::for_each_mut(rt, benches, workers.len(), &run);
    swap_transformers(benches, workers);
}

/// Each bench gets the transformer of the worker in its place, and that worker the bench's.
fn swap_transformers<T>(benches: &mut [Bench<T>], workers: &mut [EncodeWorker<T>])
    requires len { length benches.old ≡ length workers.old }
    ensures lent { map (λ b. b.transformer) benches.new ≡ map (λ w. w.transformer) workers.old }
    ensures given { map (λ w. w.transformer) workers.new ≡ map (λ b. b.transformer) benches.old }
    ensures jobs { map (λ b. b.jobs) benches.new ≡ map (λ b. b.jobs) benches.old }
    ensures made { map (λ b. b.made) benches.new ≡ map (λ b. b.made) benches.old }
{
    for i in 0..benches.len() {
        swap_transformer(&mut benches[i], &mut workers[i]);
    }
}

/// Each gets the other's transformer.
fn swap_transformer<T>(bench: &mut Bench<T>, worker: &mut EncodeWorker<T>)
    ensures swapped { (bench.new.transformer ≡ worker.old.transformer) × (worker.new.transformer ≡ bench.old.transformer) }
    ensures same { (bench.new.jobs ≡ bench.old.jobs) × (bench.new.made ≡ bench.old.made) }
{
    mem::swap(&mut bench.transformer, &mut worker.transformer);
}

/// The tables of all benches in their order, or the refusal of the first that has one. Otherwise the one error is `OutOfMemory`.
fn joined<T: BlockTransformer>(
    alloc: Global,
    benches: Vec<Bench<T>>,
) -> Result<Vec<EncodedSsTable>, SlateDBError>
    ensures all { IfOk result (λ tables. joined_of (map (λ b. tables_made (λ v. v.items) b.made) benches.items) ≡ Ok tables.items) }
    ensures cause { IfErr result (λ e. (e ≡ SlateDBError.OutOfMemory) ⊎ (joined_of (map (λ b. tables_made (λ v. v.items) b.made) benches.items) ≡ Err e)) }
{
    let mut all = Vec::new(alloc);
    for bench in benches {
        let mut made = bench.made?;
        all.append(&mut made)?;
    }
    Ok(all)
}

impl<T: BlockTransformer> Bench<T> {
    /// A bench with these jobs, and no transformer.
    fn new(alloc: Global, jobs: Vec<Job>) -> Bench<T>
        ensures { result.jobs ≡ jobs }
    {
        Bench {
            jobs,
            transformer: None,
            made: Ok(Vec::new(alloc)),
        }
    }

    /// Builds the tables of its jobs in turn, up to the first refusal.
    fn run<X: PrefixExtractor>(&mut self, alloc: Global, laws: &Laws<X>)
        requires valid { IsValid laws.now.options }
        requires names { AreValidNames (map (λ p. (meaning (p.vtable, p.value)).name) laws.now.policies.items) }
        requires each { AllByRecursion CanMake self.old.jobs.items }
        ensures outcome { IsOutcome (changed_by T.encoded self.old.transformer) (layout_of laws.now.options (map (λ p. meaning (p.vtable, p.value)) laws.now.policies.items) (segments_by X.lengths laws.now.segments)) (Rose (faults_of T.faults self.old.transformer) (faults_of T.faults self.new.transformer)) self.old.jobs.items (tables_made (λ v. v.items) self.new.made) }
        ensures same_encoded { changed_by T.encoded self.new.transformer ≡ changed_by T.encoded self.old.transformer }
        ensures same_decoded { changed_by T.decoded self.new.transformer ≡ changed_by T.decoded self.old.transformer }
        ensures later { faults_of T.faults self.old.transformer ≤ faults_of T.faults self.new.transformer }
    {
        let jobs = mem::replace(&mut self.jobs, Vec::new(alloc));
        let made = built_in_turn(alloc, jobs, laws, &mut self.transformer);
        drop(mem::replace(&mut self.made, made));
    }
}

/// A table of each job, in their order, or the first refusal.
fn built_in_turn<T: BlockTransformer, X: PrefixExtractor>(
    alloc: Global,
    jobs: Vec<Job>,
    laws: &Laws<X>,
    transformer: &mut Option<T>,
) -> Result<Vec<EncodedSsTable>, SlateDBError>
    requires valid { IsValid laws.now.options }
    requires names { AreValidNames (map (λ p. (meaning (p.vtable, p.value)).name) laws.now.policies.items) }
    requires each { AllByRecursion CanMake jobs.items }
    ensures outcome { IsOutcome (changed_by T.encoded transformer.old) (layout_of laws.now.options (map (λ p. meaning (p.vtable, p.value)) laws.now.policies.items) (segments_by X.lengths laws.now.segments)) (Rose (faults_of T.faults transformer.old) (faults_of T.faults transformer.new)) jobs.items (tables_made (λ v. v.items) result) }
    ensures same_encoded { changed_by T.encoded transformer.new ≡ changed_by T.encoded transformer.old }
    ensures same_decoded { changed_by T.decoded transformer.new ≡ changed_by T.decoded transformer.old }
    ensures later { faults_of T.faults transformer.old ≤ faults_of T.faults transformer.new }
{
    let mut tables = Vec::with_capacity(alloc, jobs.len())?;
    for job in jobs {
        let table = built(alloc, job.id, job.rows, laws, transformer)?;
        tables.push_reserved(table);
    }
    Ok(tables)
}
