//! The shell by the words of a program.
ghost use Rattle.std.specs.Prelude.{map};
ghost use Rattle.slate_filter.specs.Laws.{AreValidNames};

use crate::run::{Pages, run_shell};
use slate_db::laws::Laws;
use slate_filter::FilterPolicy;
use slate_language::{NamedExtractor, Xor, keep_used, parse_words};
use slate_store::{Env, Sink, Source, Store};
use std::alloc::Global;

/// Runs a shell over the store, as the words say, with those of the policies of filters that they
/// use, and returns the status to end with: 2 if the words are none of a run, and else 0 or that of
/// the error that ended it.
pub fn run_by_words<R: Source, W: Sink, S: Store>(
    alloc: Global,
    words: &[String],
    source: &mut R,
    sink: &mut W,
    store: &mut S,
    policies: Vec<Box<dyn FilterPolicy>>,
    pages: Pages<'_>,
) -> u8
    requires names { AreValidNames (map (λ p. (meaning p).name) policies.items) }
{
    let Some(settings) = parse_words(words, policies.as_slice()) else {
        drop(policies);
        return 2;
    };
    let kept = keep_used(policies, words);
    let mut env = Env {
        store: &mut *store,
        operator: settings.operator,
        transformer: settings.mask.map(|mask| Xor { mask }),
    };
    let laws: Laws<NamedExtractor> = Laws {
        options: settings.options,
        segments: settings.segments,
        policies: kept,
    };
    let ran = run_shell(alloc, source, sink, &mut env, &laws, pages);
    drop(laws);
    match ran {
        Ok(()) => 0,
        Err(error) => {
            let status = error.status().unwrap_or(20);
            drop(error);
            status
        }
    }
}
