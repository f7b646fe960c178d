//! What a run counts of its replies.
ghost use Rattle.std.specs.Prelude.{◌≡◌, IfOk};
ghost use Rattle.slate_language.specs.Answers.{reply_of};
ghost use Rattle.slate_language.specs.Tally.{counted, nothing_from, tally_text};

use crate::reply::Answer;
use std::alloc::{AllocError, Global};

/// How many replies there were, the last sequence, and how many of them are a row that a get found.
#[derive(Clone, Copy)]
pub struct Tally {
    pub replies: u64,
    pub committed: u64,
    pub hits: u64,
}

impl Tally {
    /// The tally of no reply, where sequences start behind this one.
    pub fn new(start_seq: u64) -> Tally
        ensures { result ≡ nothing_from start_seq }
    {
        Tally {
            replies: 0,
            committed: start_seq,
            hits: 0,
        }
    }

    /// Counts the reply that the answer is. A count stands still at its type's end.
    pub fn count(&mut self, answer: &Answer)
        ensures { self.new ≡ counted self.old (reply_of answer.now) }
    {
        self.replies = self.replies.saturating_add(1);
        match answer {
            Answer::Found(Some(_)) => self.hits = self.hits.saturating_add(1),
            Answer::Committed(Some(seq)) => self.committed = *seq,
            Answer::Written(Some(seq)) => self.committed = *seq,
            _ => {}
        }
    }

    /// The tally as a line, with its line end.
    pub fn text(&self, alloc: Global) -> Result<Vec<u8>, AllocError>
        ensures { IfOk result (λ v. v.items ≡ tally_text self.now) }
    {
        let text = format!(in alloc;
            "replies {} committed {} hits {}\n",
            self.replies, self.committed, self.hits
        )?;
        Ok(text.into_bytes())
    }
}
