// A script of as many bytes as a run takes, and one of a byte more: lines of comments, which nobody holds as a whole.
ghost use Rattle.std.specs.Prelude.{None};

use crate::failing::status_of;
use crate::listing::default_laws;
use slate_script::run_script;
use slate_store::{Env, Failed, MemorySink, MemoryStore, Source};
use slate_types::{NoOperator, NoTransformer};
use std::alloc::Global;

// Gives so many bytes: of each call's a comment.
#[derive(Drop)]
struct Comments {
    left: u64,
}

impl Source for Comments {
    ghost left = { λ _. None };

    ghost faults = { λ _. 0 };

    fn read(&mut self, buf: &mut [u8]) -> Result<usize, Failed> {
        let count = buf
            .len()
            .min(usize::try_from(self.left).unwrap_or(usize::MAX));
        let part = &mut buf[..count];
        part.fill(b'#');
        if let Some(last) = part.last_mut() {
            *last = b'\n';
        }
        self.left = self.left.saturating_sub(count as u64);
        Ok(count)
    }
}

// How a run of so many bytes of comments ends, and whether it replies nothing.
fn ends(alloc: Global, count: u64) -> (Option<u8>, bool) {
    let laws = default_laws(alloc);
    let mut source = Comments { left: count };
    let mut sink = MemorySink::new(alloc, Vec::new(alloc));
    let mut store = MemoryStore::new(alloc, Vec::new(alloc));
    let mut env: Env<'_, MemoryStore, NoOperator, NoTransformer> = Env {
        store: &mut store,
        operator: None,
        transformer: None,
    };
    let status = status_of(run_script(alloc, &mut source, &mut sink, &mut env, &laws));
    drop((env, laws));
    let is_silent = sink.taken().is_empty();
    drop(sink);
    drop(store);
    (status, is_silent)
}

#[test]
fn a_script_has_an_end(rt: HostRuntime) {
    assert!(rt; ends(rt.alloc(), 4294967294) == (Some(0), true));
    assert!(rt; ends(rt.alloc(), 4294967295) == (Some(4), true));
}
