//! What a row is and has, in one byte.
ghost use Rattle.std.specs.Prelude.{⊤, ◌≡◌, [], ◌∷◌, codes, true, IfSome, IfNone, false};
ghost use Rattle.slate_block.specs.RowSpelling.{are_flags, flags};

use bitflags::{Flag, Flags, bitflag_items};
use slate_types::ValueDeletable;

/// The flags of a row. A row that is neither a tombstone nor a merge operand is a value.
#[derive(Clone, Copy, Debug, PartialEq, Eq)]
pub struct RowFlags(pub u8);

bitflag_items! {
    impl RowFlags: u8 {
        const TOMBSTONE = 1;
        const HAS_EXPIRE_TS = 2;
        const HAS_CREATE_TS = 4;
        const MERGE_OPERAND = 8;
    }
}

impl Flags for RowFlags {
    type Bits = u8;

    ghost exact = { ⊤ };

    ghost table = { (codes "TOMBSTONE", 1) ∷ (codes "HAS_EXPIRE_TS", 2) ∷ (codes "HAS_CREATE_TS", 4) ∷ (codes "MERGE_OPERAND", 8) ∷ [] };

    ghost set_of = { λ flags. flags.0 };

    fn flags<'a>() -> &'a [Flag<RowFlags>] {
        RowFlags::FLAGS
    }

    fn bits(&self) -> u8 {
        self.0
    }

    fn from_bits_retain(bits: u8) -> RowFlags {
        RowFlags(bits)
    }
}

/// No row is both.
const TOMBSTONE_AND_MERGE: RowFlags = RowFlags(RowFlags::TOMBSTONE.0 | RowFlags::MERGE_OPERAND.0);

impl RowFlags {
    /// The flags that a byte stands for. `None` for a byte with other bits, and for a tombstone that is a merge operand.
    pub fn from_byte(byte: u8) -> Option<RowFlags>
        ensures flags { IfSome result (λ flags. (flags.0 ≡ byte) × (are_flags byte ≡ true)) }
        ensures none { IfNone result (are_flags byte ≡ false) }
    {
        let flags = RowFlags::from_bits(byte)?;
        if flags.contains(TOMBSTONE_AND_MERGE) {
            return None;
        }
        Some(flags)
    }

    /// The flags of a row with this value and these stamps.
    pub fn of_row(
        value: &ValueDeletable,
        expire_ts: Option<i64>,
        create_ts: Option<i64>,
    ) -> RowFlags
        ensures { result.0 ≡ flags value.now expire_ts create_ts }
    {
        let mut flags = match value {
            ValueDeletable::Value(_) => RowFlags(0),
            ValueDeletable::Merge(_) => RowFlags::MERGE_OPERAND,
            ValueDeletable::Tombstone => RowFlags::TOMBSTONE,
        };
        if expire_ts.is_some() {
            flags.insert(RowFlags::HAS_EXPIRE_TS);
        }
        if create_ts.is_some() {
            flags.insert(RowFlags::HAS_CREATE_TS);
        }
        flags
    }
}
