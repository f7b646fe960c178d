//! The newest row of each key first, in both orders.
ghost use Rattle.std.specs.Prelude.{◌≡◌, ◌⊎◌, false};
ghost use Rattle.slate_types.specs.declared.error.SlateDBError.{SlateDBError};
ghost use Rattle.slate_merge.specs.NewestFirst.{Begins, IsKept, IsNew, Stays, begins_newest, bound_newest, is_below, refuses_newest, rest_newest, seeks_newest, sound_newest, takes_newest};
ghost use Rattle.slate_merge.specs.NewestLaws.{newest_more, newest_order, newest_whole};

use crate::groups::Groups;
use crate::kept::copy_of;
use crate::progress::Progress;
use bytes::Bytes;
use slate_types::{
    ByteRangeBounds, BytesRange, IterationOrder, Outside, RowEntry, RowEntryIterator, SlateDBError,
};
use std::alloc::Global;
use std::mem;
use std::ops::Bound;

/// The rows of a source, the newest of each key first. Upwards a source brings them so. Downwards it brings the exact reverse, so
/// all rows of a key are gathered before the newest one is handed out.
///
/// What the source refuses while a key is gathered is answered at once, since nobody knows whether the key's newest row was among
/// those that came: no row of a key is handed out before each of them has come. Each refusal is kept and answered again, or want
/// of memory in its place, but for `IteratorNotInitialized`, only before `init`, where a seek answers nothing else, and
/// `SeekKeyOutOfKeyRange`, exactly for a seek to a key before the range, or want of memory for a copy of that key: these leave it
/// as it is.
#[derive(Drop)]
pub struct NewestFirst<I> {
    pub(crate) range: BytesRange,
    pub(crate) iterator: I,
    pub(crate) progress: Progress,
}

/// Whether a key stands before a range.
pub fn is_below(range: &BytesRange, key: &[u8]) -> bool
    ensures { result ≡ is_below range.now key.now }
{
    match range.start_bound() {
        Bound::Included(start) => IterationOrder::Ascending.puts_before(key, start),
        Bound::Excluded(start) => !IterationOrder::Ascending.puts_before(start, key),
        Bound::Unbounded => false,
    }
}

/// The refusal of a seek to a key before the range, or want of memory for a copy of the key.
fn out_of_range(alloc: Global, key: &[u8]) -> SlateDBError
    ensures { (result ≡ SlateDBError.SeekKeyOutOfKeyRange key.now) ⊎ (result ≡ SlateDBError.OutOfMemory) }
{
    match Bytes::copy_from_slice(alloc, key) {
        Ok(key) => SlateDBError::SeekKeyOutOfKeyRange { key },
        Err(error) => SlateDBError::from(error),
    }
}

impl<I: Drop> NewestFirst<I> {
    /// The rows of a source, whose keys are in the range. Nothing is read yet, and no memory taken.
    pub fn over(range: BytesRange, iterator: I) -> NewestFirst<I>
        ensures range { result.range ≡ range }
        ensures iterator { result.iterator ≡ iterator }
        ensures progress { result.progress ≡ Progress.New }
    {
        NewestFirst {
            range,
            iterator,
            progress: Progress::New,
        }
    }

    /// Keeps a refusal, which each later call then answers again.
    fn refuse(&mut self, error: SlateDBError) -> SlateDBError
        ensures same { result ≡ error }
        ensures keeps { IsKept error self.new.progress }
        ensures range { self.new.range ≡ self.old.range }
        ensures iterator { self.new.iterator ≡ self.old.iterator }
    {
        let progress = Progress::Refused(copy_of(&error));
        drop(mem::replace(&mut self.progress, progress));
        error
    }

    /// Begins with no rows from the source, where it is new.
    fn begin(&mut self, alloc: Global)
        ensures progress { Begins self.old.progress self.new.progress }
        ensures range { self.new.range ≡ self.old.range }
        ensures iterator { self.new.iterator ≡ self.old.iterator }
    {
        match &self.progress {
            Progress::New => {}
            Progress::Going(_) | Progress::Refused(_) => return,
        }
        let groups = Groups {
            ready: Vec::new(alloc),
            gathered: Vec::new(alloc),
        };
        drop(mem::replace(&mut self.progress, Progress::Going(groups)));
    }
}

impl<E: Outside, I: RowEntryIterator<E>> RowEntryIterator<E> for NewestFirst<I> {
    ghost rest = { λ it w. rest_newest I.rest I.order it.iterator it.progress w };

    ghost sound = { λ it w. sound_newest I.rest I.sound I.order it.iterator it.progress w };

    ghost order = { λ it. I.order it.iterator };

    ghost bound = { λ it. bound_newest (I.bound it.iterator) it.progress };

    ghost refuses = { λ it m reads at e. refuses_newest I.refuses it.range it.iterator it.progress m reads at e };

    ghost begins = { λ before m reads after. begins_newest I.begins before m reads after };

    ghost takes = { λ before m reads answer after. takes_newest I.takes before m reads answer after };

    ghost seeks = { λ before m reads key after. seeks_newest I.seeks before m reads key after };

    ghost stays = { λ before _ _ at e after. Stays before at e after };

    ghost within = { λ it paths. I.within it.iterator paths };

    ghost unbegun = { λ it. IsNew it.progress };

    ghost rising = { λ it w h. newest_order I.rest I.sound I.order it.iterator it.progress w h };

    ghost more = { λ it m done reads at e h. newest_more I.refuses I.more it.range it.iterator it.progress m done reads at e h };

    ghost whole = { λ it w reads at e h k r. newest_whole I.rest I.sound I.order I.refuses I.whole it.range it.iterator it.progress w reads at e h k r };

    fn iteration_order(&self) -> IterationOrder {
        self.iterator.iteration_order()
    }

    #[tactic(auto, using(slate_types::proofs::Reaching::reads_none, slate_types::proofs::Calls::reads_at_none))]
    fn init(&mut self, alloc: Global, env: &mut E) -> Result<(), SlateDBError> {
        if let Progress::Refused(error) = &self.progress {
            return Err(copy_of(error));
        }
        match self.iterator.init(alloc, env) {
            Ok(()) => {
                self.begin(alloc);
                Ok(())
            }
            Err(error) => Err(self.refuse(error)),
        }
    }

    #[tactic(auto, using(slate_types::proofs::Reaching::reads_none, slate_types::proofs::Calls::reads_at_none))]
    fn next(&mut self, alloc: Global, env: &mut E) -> Result<Option<RowEntry>, SlateDBError> {
        let answer = match &mut self.progress {
            Progress::New => return Err(SlateDBError::IteratorNotInitialized),
            Progress::Refused(error) => return Err(copy_of(error)),
            Progress::Going(groups) => groups.next(alloc, &mut self.iterator, env),
        };
        match answer {
            Ok(row) => Ok(row),
            Err(error) => Err(self.refuse(error)),
        }
    }

    #[tactic(auto, using(slate_types::proofs::Reaching::reads_none, slate_types::proofs::Calls::reads_at_none))]
    fn seek(&mut self, alloc: Global, key: &[u8], env: &mut E) -> Result<(), SlateDBError> {
        let answer = match &mut self.progress {
            Progress::New => return Err(SlateDBError::IteratorNotInitialized),
            Progress::Refused(error) => return Err(copy_of(error)),
            Progress::Going(groups) => {
                if is_below(&self.range, key) {
                    return Err(out_of_range(alloc, key));
                }
                groups.seek(alloc, &mut self.iterator, key, env)
            }
        };
        match answer {
            Ok(()) => Ok(()),
            Err(error) => Err(self.refuse(error)),
        }
    }
}
