//! Texts of byte tokens.
ghost use Rattle.std.specs.Prelude.{◌≡◌, ◌++◌, IfOk, IsOkUnless, OnOk};
ghost use Rattle.std.specs.List.{list_all};
ghost use Rattle.slate_language.specs.Text.{is_visible, shown_bytes};

use slate_types::SlateDBError;
use std::alloc::{AllocError, Global};

/// A byte token: `'` and the bytes where all are visible ASCII, else `0x` and their lower-case hex digits.
pub fn show(alloc: Global, bytes: &[u8]) -> Result<Vec<u8>, SlateDBError>
    ensures text { IfOk result (λ v. v.items ≡ shown_bytes bytes.now) }
    ensures cause { IsOkUnless result SlateDBError.OutOfMemory }
{
    shown(alloc, bytes).map_err(SlateDBError::from)
}

fn shown(alloc: Global, bytes: &[u8]) -> Result<Vec<u8>, AllocError>
    ensures text { IfOk result (λ v. v.items ≡ shown_bytes bytes.now) }
{
    let mut text = Vec::new(alloc);
    push_shown(alloc, &mut text, bytes)?;
    Ok(text)
}

/// Adds the byte token of the bytes to a line.
pub(crate) fn push_shown(alloc: Global, line: &mut Vec<u8>, bytes: &[u8]) -> Result<(), AllocError>
    ensures text { OnOk result (line.new.items ≡ line.old.items ++ shown_bytes bytes.now) }
{
    if is_visible(bytes) {
        line.push(b'\'')?;
        return line.extend_from_slice(bytes);
    }
    line.extend_from_slice(b"0x")?;
    line.extend_from_slice(hex::encode(alloc, bytes)?.as_bytes())
}

/// Whether each byte shows as itself. Without an exit from the loop, many bytes are tested at once.
pub(crate) fn is_visible(bytes: &[u8]) -> bool
    ensures { result ≡ list_all is_visible bytes.now }
{
    let mut visible = true;
    for byte in bytes {
        visible &= byte.is_ascii_graphic();
    }
    visible
}
