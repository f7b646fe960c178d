//! A store in memory that answers chosen reads otherwise, and tells what it did.
ghost use Rattle.std.specs.Prelude.{◌≡◌, ◌+◌, ◌==◌, [], Some, map, length, IfOk};
ghost use Rattle.std.specs.Option.{option_copied};
ghost use Rattle.slate_store.specs.Lying.{act_of, answer_as, chosen_for, reads_of, AreAnswered};
ghost use Rattle.slate_store.specs.Store.{object_at, part_of, IsHonest};

use crate::memory_store::{object_len, paths_of, put_object, read_object};
use crate::object_list::ObjectList;
use crate::{PathText, Store, StoreError};
use bytes::Bytes;
use std::alloc::{AllocError, Global};
use std::marker::Model;

/// A read that a store returned: its arguments, and its answer.
#[derive(Drop)]
pub struct StoreRead {
    pub path: PathText,
    pub start: u64,
    pub len: u64,
    pub bytes: Option<Bytes>,
}

/// An act as it is noted. A read has its place alone here, since the reads stand beside.
#[derive(Drop)]
enum Noted {
    Put { path: PathText, bytes: Bytes },
    Read,
    Len { path: PathText, len: Option<u64> },
}

/// Keeps objects in memory, and tells what was put, every read that it returned and every answer of `len`. Without
/// chosen answers it is honest and tells its objects too; with some it tells no objects.
#[derive(Drop)]
pub struct LyingStore {
    objects: ObjectList,
    answers: Vec<(u64, Option<Bytes>)>,
    noted: Vec<Noted>,
    reads: Vec<StoreRead>,
}

impl Model for LyingStore {
    ghost use Rattle.slate_store.specs.Lying.{LyingStoreModel};
    ghost use Rattle.slate_store.specs.Noted.{acts_of, IsConsistent};

    ghost Value = { LyingStoreModel };

    ghost view = { λ s. record { answers = s.answers.items; objects = s.objects; acts = acts_of s.noted.items s.reads.items } };

    ghost invariant = { λ s. IsConsistent s.answers.items s.objects s.noted.items s.reads.items };
}

impl LyingStore {
    /// A store with no object. It answers the reads with these numbers, counted from 1 over those that it returns, as
    /// given, and all other reads, and lengths, by what was put.
    pub fn new(alloc: Global, answers: Vec<(u64, Option<Bytes>)>) -> LyingStore
        ensures answers { result.answers ≡ answers.items }
        ensures told { ⟦<LyingStore as Store>⟧.acts result ≡ Some [] }
        ensures honest { answers.items ≡ [] → ⟦<LyingStore as Store>⟧.objects result ≡ Some [] }
        ensures counted { ⟦<LyingStore as Store>⟧.faults result ≡ 0 }
    {
        LyingStore {
            objects: ObjectList::new(alloc),
            answers,
            noted: Vec::new(alloc),
            reads: Vec::new(alloc),
        }
    }

    /// The reads that were returned, oldest first.
    pub fn reads(&self) -> &[StoreRead]
        ensures told { ⟦<LyingStore as Store>⟧.acts self.now ≡ Some self.now.acts }
        ensures reads { map act_of result.now ≡ reads_of self.now.acts }
        ensures answered { AreAnswered self.now.answers [] self.now.acts }
        ensures honest { IsHonest (⟦<LyingStore as Store>⟧.objects self.now) → AreAnswered [] [] self.now.acts }
    {
        &self.reads
    }
}

impl Store for LyingStore {
    ghost use Rattle.std.specs.Prelude.{Some};
    ghost use Rattle.slate_store.specs.Lying.{told_objects};

    ghost objects = { λ s. told_objects s.answers s.objects };

    ghost acts = { λ s. Some s.acts };

    ghost faults = { λ _. 0 };

    fn put(&mut self, alloc: Global, path: &str, bytes: &[u8]) -> Result<(), StoreError> {
        let noted = noted_put(alloc, path, bytes)?;
        self.noted.push(noted)?;
        let done = put_object(alloc, &mut self.objects, path, bytes);
        if done.is_err() {
            drop(self.noted.pop());
        }
        done
    }

    fn read_range(
        &mut self,
        alloc: Global,
        path: &str,
        start: u64,
        len: u64,
    ) -> Result<Option<Bytes>, StoreError> {
        let answer = self.answer(alloc, path, start, len)?;
        let read = store_read(alloc, path, start, len, &answer)?;
        self.noted.push(Noted::Read)?;
        match self.reads.push(read) {
            Ok(()) => Ok(answer),
            Err(error) => {
                drop(answer);
                drop(self.noted.pop());
                Err(error.into())
            }
        }
    }

    fn len(&mut self, alloc: Global, path: &str) -> Result<Option<u64>, StoreError> {
        let len = object_len(&self.objects, path);
        let path = path_text(alloc, path)?;
        self.noted.push(Noted::Len { path, len })?;
        Ok(len)
    }

    fn list(&mut self, alloc: Global) -> Result<Vec<PathText>, StoreError> {
        paths_of(alloc, &self.objects)
    }
}

impl LyingStore {
    /// The answer to the next read.
    fn answer(
        &self,
        alloc: Global,
        path: &str,
        start: u64,
        len: u64,
    ) -> Result<Option<Bytes>, AllocError>
        ensures { IfOk result (λ answer. answer ≡ answer_as (chosen_for (length (reads_of self.now.acts) + 1) self.now.answers) (part_of (object_at self.now.objects path.now) start len)) }
    {
        match chosen(&self.answers, self.returned()) {
            Some(answer) => cloned(&answer.1),
            None => read_object(&self.objects, path, start, len),
        }
    }

    /// How many reads were returned.
    fn returned(&self) -> usize
        ensures { result ≡ length (reads_of self.now.acts) }
    {
        self.reads().len()
    }
}

/// The answer that is chosen for the next read.
fn chosen(answers: &[(u64, Option<Bytes>)], before: usize) -> Option<&(u64, Option<Bytes>)>
    ensures { option_copied result ≡ chosen_for (before + 1) answers.now }
{
    answers.iter().find(|answer| is_next(answer.0, before))
}

/// Whether a number is that of the next read.
fn is_next(number: u64, before: usize) -> bool
    ensures { result ≡ (number == before + 1) }
{
    number > 0 && (number - 1) as usize == before
}

fn cloned(answer: &Option<Bytes>) -> Result<Option<Bytes>, AllocError>
    ensures { IfOk result (λ copy. copy ≡ answer.now) }
{
    match answer {
        Some(bytes) => bytes.clone().map(Some),
        None => Ok(None),
    }
}

fn path_text(alloc: Global, path: &str) -> Result<PathText, AllocError>
    ensures { IfOk result (λ text. text ≡ path.now) }
{
    Ok(PathText::from_string(String::from_str(alloc, path)?))
}

fn noted_put(alloc: Global, path: &str, bytes: &[u8]) -> Result<Noted, AllocError>
    ensures { IfOk result (λ noted. noted ≡ Noted.Put path.now bytes.now) }
{
    let path = path_text(alloc, path)?;
    let bytes = Bytes::copy_from_slice(alloc, bytes)?;
    Ok(Noted::Put { path, bytes })
}

fn store_read(
    alloc: Global,
    path: &str,
    start: u64,
    len: u64,
    answer: &Option<Bytes>,
) -> Result<StoreRead, AllocError>
    ensures path { IfOk result (λ read. read.path ≡ path.now) }
    ensures start { IfOk result (λ read. read.start ≡ start) }
    ensures len { IfOk result (λ read. read.len ≡ len) }
    ensures bytes { IfOk result (λ read. read.bytes ≡ answer.now) }
{
    let path = path_text(alloc, path)?;
    let bytes = cloned(answer)?;
    Ok(StoreRead {
        path,
        start,
        len,
        bytes,
    })
}
