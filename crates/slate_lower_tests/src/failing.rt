//! An operator and a transformer whose calls fail where they are told to.
ghost use Rattle.std.specs.Prelude.{◌≡◌, ◌≤◌, ◌↔◌, true, false, option_copied, IfOk, IsOkUnless, IsTrue};
ghost use Rattle.slate_types.specs.Faults.{Rose};
ghost use Rattle.slate_store.specs.Plan.{is_planned, next_call};
ghost use Rattle.slate_lower_tests.specs.Parts.{appended_cut, appended_short};

use bytes::Bytes;
use slate_language::Xor;
use slate_types::{BlockTransformer, MergeOperator, MergeOperatorError, TransformError};
use std::alloc::{AllocError, Global};

/// The calls that are to fail, by their numbers from 1.
#[derive(Drop)]
pub struct FailingCalls {
    failing: Vec<u64>,
    calls: u64,
    faults: u64,
}

impl FailingCalls {
    pub fn new(failing: Vec<u64>) -> FailingCalls
        ensures failing { result.failing.items ≡ failing.items }
        ensures calls { result.calls ≡ 0 }
        ensures faults { result.faults ≡ 0 }
    {
        FailingCalls {
            failing,
            calls: 0,
            faults: 0,
        }
    }

    // Counts a call, and whether it is to fail. One that fails changes nothing else.
    fn fails(&mut self) -> bool
        ensures later { self.old.faults ≤ self.new.faults }
        ensures still { result ≡ false → self.new.faults ≡ self.old.faults }
        ensures cause { result ≡ true → Rose self.old.faults self.new.faults }
        ensures failing { self.new.failing.items ≡ self.old.failing.items }
        ensures counted { self.new.calls ≡ next_call self.old.calls }
        ensures planned { IsTrue result ↔ IsTrue (is_planned self.old.failing.items (next_call self.old.calls)) }
    {
        self.calls = self.calls.saturating_add(1);
        if self.failing.contains(&self.calls) {
            self.faults = self.faults.saturating_add(1);
            return true;
        }
        false
    }
}

/// Appends, and keeps as much as a value holds.
#[derive(Drop)]
pub struct FailingConcat {
    calls: FailingCalls,
}

impl FailingConcat {
    pub fn new(failing: Vec<u64>) -> FailingConcat
        ensures { result.calls.failing.items ≡ failing.items }
    {
        FailingConcat {
            calls: FailingCalls::new(failing),
        }
    }
}

impl MergeOperator for FailingConcat {
    ghost combine = { λ _ _. appended_cut };

    ghost faults = { λ o. o.calls.faults };

    ghost short = { λ _ _. appended_short };

    fn merge(
        &mut self,
        alloc: Global,
        _key: &Bytes,
        existing_value: Option<&Bytes>,
        value: &Bytes,
    ) -> Result<Bytes, MergeOperatorError> {
        if self.calls.fails() {
            let message = Bytes::from_static(b"told to");
            return Err(MergeOperatorError::Callback { message });
        }
        joined(alloc, existing_value, value).map_err(MergeOperatorError::from)
    }
}

fn joined(alloc: Global, existing: Option<&Bytes>, value: &Bytes) -> Result<Bytes, AllocError>
    ensures { IfOk result (λ made. made ≡ appended_cut (option_copied existing.entry) value.now) }
{
    let mut bytes = Vec::new(alloc);
    if let Some(existing) = existing {
        bytes.extend_from_slice(existing)?;
    }
    bytes.extend_from_slice(value)?;
    bytes.truncate(u32::MAX as usize);
    Ok(Bytes::from_vec(bytes)?)
}

/// Changes each byte by one number.
#[derive(Drop)]
pub struct FailingXor {
    xor: Xor,
    calls: FailingCalls,
}

impl FailingXor {
    pub fn new(mask: u8, failing: Vec<u64>) -> FailingXor
        ensures mask { result.xor.mask ≡ mask }
        ensures failing { result.calls.failing.items ≡ failing.items }
    {
        FailingXor {
            xor: Xor { mask },
            calls: FailingCalls::new(failing),
        }
    }
}

impl BlockTransformer for FailingXor {
    ghost encoded = { λ t. ⟦<Xor as BlockTransformer>⟧.encoded t.xor };

    ghost decoded = { λ t. ⟦<Xor as BlockTransformer>⟧.decoded t.xor };

    ghost faults = { λ t. t.calls.faults };

    fn encode(&mut self, alloc: Global, bytes: Bytes) -> Result<Bytes, TransformError> {
        if self.calls.fails() {
            drop(bytes);
            return Err(TransformError::Failed);
        }
        self.xor.encode(alloc, bytes)
    }

    fn decode(&mut self, alloc: Global, bytes: Bytes) -> Result<Bytes, TransformError> {
        if self.calls.fails() {
            drop(bytes);
            return Err(TransformError::Failed);
        }
        self.xor.decode(alloc, bytes)
    }
}
