//! The last bytes of a table: where its info begins, and its version.
ghost use Rattle.std.specs.Prelude.{◌≡◌, ◌+◌, ◌<◌, ◌≤◌, ◌++◌, length, take, Ok, Err, OnOk, OnErr, IfOk, IfErr, IsOkUnless};
ghost use Rattle.slate_block.specs.BlockSpelling.{IsKnown};
ghost use Rattle.slate_table.specs.SectionReading.{footer_bytes, footer_in};

use crate::writing::{append_u16, append_u64};
use slate_block::fields::{corrupt, u16_field, u64_field};
use slate_types::SlateDBError;

/// How many bytes they are.
pub const FOOTER_SIZE: usize = 10;

/// Where the info of a table begins, and the table's version, 1, 2 or 3.
#[derive(Clone, Copy)]
pub struct Footer {
    pub info_offset: u64,
    pub version: u16,
}

impl Footer {
    /// Appends the bytes. The one error is `OutOfMemory`, after which more may stand behind what `out` held.
    pub fn encode(&self, out: &mut Vec<u8>) -> Result<(), SlateDBError>
        ensures appended { OnOk result (out.new.items ≡ out.old.items ++ footer_bytes self.now.info_offset self.now.version) }
        ensures kept { OnErr result (take (length out.old.items) out.new.items ≡ out.old.items) }
        ensures cause { IsOkUnless result SlateDBError.OutOfMemory }
    {
        append_u64(out, self.info_offset)?;
        append_u16(out, self.version)
    }

    /// The last bytes of an object of so many bytes. `InvalidVersion` exactly where the version isn't 1, 2 or 3; then
    /// `CorruptTable` at 0 exactly where the info begins past what stands before these bytes.
    #[tactic(auto, unfolding(crate::specs::SectionReading::footer_in))]
    pub fn decode(bytes: &[u8], len: u64) -> Result<Footer, SlateDBError>
        requires whole { length bytes.now ≡ 10 }
        requires longer { 10 < len }
        ensures found { IfOk result (λ footer. bytes.now ≡ footer_bytes footer.info_offset footer.version) }
        ensures known { IfOk result (λ footer. IsKnown footer.version) }
        ensures within { IfOk result (λ footer. footer.info_offset + 10 ≤ len) }
        ensures read { IfOk result (λ footer. footer_in len bytes.now ≡ Ok (footer.info_offset, footer.version)) }
        ensures cause { IfErr result (λ e. footer_in len bytes.now ≡ Err e) }
    {
        let (info_offset, at) = u64_field(bytes, 0)?;
        let (version, _) = u16_field(bytes, at)?;
        if version != 1 && version != 2 && version != 3 {
            return Err(SlateDBError::InvalidVersion {
                actual_version: version,
            });
        }
        if info_offset > len - FOOTER_SIZE as u64 {
            return Err(corrupt(0));
        }
        Ok(Footer {
            info_offset,
            version,
        })
    }
}
