//! Threads that share rounds on one database, and what is printed of them.
ghost use Rattle.std.specs.Prelude.{◌≡◌, ◌≤◌, ◌<◌, IfOk};
ghost use Rattle.std.specs.List.{AllByRecursion};
ghost use Rattle.slate_shared.specs.Shared.{all_parts};
ghost use Rattle.slate_shared.specs.Given.{ArePlain};

use crate::rounds::{Worker, push_text};
use crate::shared_store::SharedStore;
use anyhow::Error;
use slate_db::laws::Laws;
use slate_shared::{Database, Pass, Plain};
use slate_store::MemoryStore;
use slate_txn::{Event, Journal};
use slate_types::{NoExtractor, SlateDBError};
use std::alloc::Global;
use std::fmt::Write;
use std::rt::Clock;
use std::sync::{Mutex, Wait};
use std::thread::Threads;
use std::time::Instant;
use std::{io, thread};

/// The most threads that share rounds.
const MAX_THREADS: u64 = 64;

/// What is printed beside the counts.
#[derive(Clone, Copy, PartialEq, Eq)]
enum Beside {
    Nothing,
    Time,
    Log,
}

/// How many threads share how many rounds.
#[derive(Clone, Copy)]
pub struct Task {
    threads: u64,
    rounds: u64,
    beside: Beside,
    ghost some: { 0 < threads },
    ghost few: { threads ≤ 64 },
}

/// The task of these words, where they are one.
pub fn task_of(words: &[String]) -> Option<Task> {
    match words {
        [name, threads, rounds] if name.as_str() == "threads" => {
            read_task(threads, rounds, Beside::Nothing)
        }
        [name, threads, rounds, last] if name.as_str() == "threads" => {
            read_task(threads, rounds, read_beside(last)?)
        }
        _ => None,
    }
}

fn read_beside(word: &str) -> Option<Beside> {
    match word {
        "time" => Some(Beside::Time),
        "log" => Some(Beside::Log),
        _ => None,
    }
}

fn read_task(threads: &str, rounds: &str, beside: Beside) -> Option<Task> {
    let threads = threads.parse::<u64>().ok()?;
    let rounds = rounds.parse::<u64>().ok()?;
    if threads == 0 || threads > MAX_THREADS {
        return None;
    }
    Some(Task {
        threads,
        rounds,
        beside,
    })
}

/// Does the task, and prints what came of it.
pub fn run<R: Threads + Wait + Sync + Print + Clock>(
    rt: &R,
    alloc: Global,
    task: Task,
) -> Result<(), Error> {
    let laws = Plain::laws(alloc);
    let (db, mut pass) = Database::<Plain>::new(alloc, &laws.options)?;
    let memory = Mutex::new(MemoryStore::new(alloc, Vec::new(alloc)));
    let mut workers = workers(rt, alloc, &db, &mut pass, &memory, task)?;
    let nanos = time(rt, &db, &laws, &mut workers)?;
    print(rt, task, &workers)?;
    match task.beside {
        Beside::Nothing => Ok(()),
        Beside::Time => println!(rt; "threads took {nanos} ns").map_err(Error::from),
        Beside::Log => print_journal(rt, alloc, &db, &mut pass),
    }
}

// How many nanoseconds the workers take for their rounds.
fn time<R: Threads + Wait + Sync + Clock>(
    rt: &R,
    db: &Database<Plain>,
    laws: &Laws<NoExtractor>,
    workers: &mut [Worker<'_, R>],
) -> io::Result<u128>
    requires tables { AllByRecursion (λ w. w.pass.table ≡ db.now) workers.old }
    requires laws { ArePlain laws.now.options laws.now.segments laws.now.policies.items }
{
    let start = Instant::now(rt)?;
    work(rt, db, laws, workers);
    Ok(start.elapsed(rt)?.as_nanos())
}

// A worker for each thread, each with a pass of its own and with its share of the rounds.
fn workers<'a, R: Wait>(
    rt: &'a R,
    alloc: Global,
    db: &Database<Plain>,
    pass: &mut Pass<Plain>,
    memory: &'a Mutex<MemoryStore>,
    task: Task,
) -> Result<Vec<Worker<'a, R>>, SlateDBError>
    requires table { pass.old.table ≡ db.now }
    requires parts { pass.old.parts ≡ all_parts }
    ensures same { pass.new.table ≡ pass.old.table }
    ensures tables { IfOk result (λ workers. AllByRecursion (λ w. w.pass.table ≡ db.now) workers.items) }
{
    let mut workers = Vec::with_capacity(alloc, 64)?;
    for place in 0..task.threads {
        let own = pass.split(db);
        workers.push_reserved(worker(rt, alloc, own, memory, task, place));
    }
    Ok(workers)
}

fn worker<'a, R: Wait>(
    rt: &'a R,
    alloc: Global,
    pass: Pass<Plain>,
    memory: &'a Mutex<MemoryStore>,
    task: Task,
    place: u64,
) -> Worker<'a, R>
    ensures { result.pass ≡ pass }
{
    let more = place < task.rounds % task.threads;
    Worker {
        pass,
        store: SharedStore::new(rt, memory),
        place,
        rounds: (task.rounds / task.threads).saturating_add(u64::from(more)),
        conflicts: 0,
        hits: 0,
        log: if task.beside == Beside::Log {
            Some(String::new(alloc))
        } else {
            None
        },
        ended: Ok(()),
    }
}

// Each worker does its rounds, in a thread of its own where one can be made.
fn work<R: Threads + Wait + Sync>(
    rt: &R,
    db: &Database<Plain>,
    laws: &Laws<NoExtractor>,
    workers: &mut [Worker<'_, R>],
)
    requires tables { AllByRecursion (λ w. w.pass.table ≡ db.now) workers.old }
    requires laws { ArePlain laws.now.options laws.now.segments laws.now.policies.items }
{
    let count = workers.len();
    if count == 0 {
        return;
    }
    let run = |_place: usize, worker: &mut Worker<R>|
        requires { (worker.old.pass.table ≡ db.now) × ArePlain laws.now.options laws.now.segments laws.now.policies.items }
    { worker.work(rt, db, laws) };
    thread::for_each_mut(rt, workers, count, &run);
}

// The counts of all workers, behind the lines of their attempts, and the first refusal that ended one.
fn print<R: Wait + Print>(rt: &R, task: Task, workers: &[Worker<'_, R>]) -> Result<(), Error> {
    let mut conflicts: u64 = 0;
    let mut hits: u64 = 0;
    for worker in workers {
        if let Some(log) = &worker.log {
            print!(rt; "{log}")?;
        }
        if let Err(error) = &worker.ended {
            println!(rt; "thread {} ended: {error}", worker.place)?;
        }
        conflicts = conflicts.saturating_add(worker.conflicts);
        hits = hits.saturating_add(worker.hits);
    }
    println!(rt;
        "threads {}: {} rounds, {conflicts} conflicts, {hits} hits",
        task.threads, task.rounds
    )?;
    Ok(())
}

// A line for each event of the journal.
fn print_journal<R: Wait + Print>(
    rt: &R,
    alloc: Global,
    db: &Database<Plain>,
    pass: &mut Pass<Plain>,
) -> Result<(), Error>
    requires { pass.old.table ≡ db.now }
{
    let journal = pass.journal(rt, db)?;
    print_events(rt, alloc, &journal)
}

fn print_events<R: Print>(rt: &R, alloc: Global, journal: &Journal) -> Result<(), Error> {
    for event in journal.as_slice() {
        let mut line = String::new(alloc);
        push_event(&mut line, event)?;
        println!(rt; "{line}")?;
    }
    Ok(())
}

fn push_event(line: &mut String, event: &Event) -> Result<(), Error> {
    match event {
        Event::Begin { start, .. } => write!(line, "begin {start}")?,
        Event::Commit { seq, tracked, .. } => {
            write!(line, "commit {}", seq.unwrap_or(0))?;
            for key in tracked.as_slice() {
                line.push_str(" ")?;
                push_text(line, key)?;
            }
        }
        Event::End { .. } => line.push_str("end")?,
        Event::Freeze => line.push_str("freeze")?,
        Event::Install { through, .. } => write!(line, "install {through}")?,
        _ => line.push_str("other")?,
    }
    Ok(())
}
