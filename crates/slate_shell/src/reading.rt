//! Lines, as the language reads them.
ghost use Rattle.std.specs.Prelude.{◌≡◌, IfErr, IfOk};
ghost use Rattle.slate_shell.specs.Typed.{HasMoment, IsRead};

use slate_language::parse_line;
use slate_txn::line::Line;
use slate_types::SlateDBError;
use std::alloc::Global;

/// What a line is to the language.
#[derive(Drop)]
pub enum Typed {
    /// Empty, or a comment.
    Silent,
    Meant(Line),
    /// None of the language.
    Other,
}

/// Reads a line. Refuses by `OutOfMemory` alone.
pub fn read_typed(alloc: Global, typed: &[u8]) -> Result<Typed, SlateDBError>
    ensures read { IfOk result (λ t. IsRead typed.now t) }
    ensures moment { IfOk result HasMoment }
    ensures cause { IfErr result (λ e. e ≡ SlateDBError.OutOfMemory) }
{
    let copy = Vec::from_slice(alloc, typed)?;
    match parse_line(alloc, copy) {
        Ok(Some(line)) => Ok(Typed::Meant(line)),
        Ok(None) => Ok(Typed::Silent),
        Err(SlateDBError::ScriptSyntax { .. }) => Ok(Typed::Other),
        Err(error) => Err(error),
    }
}
