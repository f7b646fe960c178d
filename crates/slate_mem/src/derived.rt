//! What derived calls answer. Each call here shows it.
ghost use Rattle.std.specs.Prelude.{◌≡◌, ◌↔◌, IsTrue, IfOk};

use crate::WriteOp;
use std::alloc::AllocError;

/// Operations are equal exactly where their fields are.
pub(crate) fn equal_ops(a: &WriteOp, b: &WriteOp) -> bool
    ensures { IsTrue result ↔ (a.now ≡ b.now) }
{
    a == b
}

/// A copy of an operation is equal to it, and shares its value.
pub(crate) fn copied_op(op: &WriteOp) -> Result<WriteOp, AllocError>
    ensures { IfOk result (λ copy. copy ≡ op.now) }
{
    op.clone()
}
