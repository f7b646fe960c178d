//! What gives records their fields.
ghost use Rattle.std.specs.Prelude.{◌≡◌, ◌≤◌, IfOk, IsOkUnless};
ghost use Rattle.slate_index.specs.Entries.{FieldsModel};

use bytes::Bytes;
use slate_types::SlateDBError;

/// Says how many indexes there are, and which field each has of a record's value. It is a function of its arguments.
pub trait Fields: Drop {
    /// How many indexes there are, and the field of each.
    ghost model: { Self → FieldsModel };

    /// How many indexes there are, at most 8. Their numbers begin with 0.
    fn count(&self) -> u8
        ensures { result ≡ (model self.now).count };

    /// The field that the index of this number has of the value. `None` where it has none.
    fn field(&self, number: u8, value: &Bytes) -> Result<Option<Bytes>, SlateDBError>
        ensures field { IfOk result (λ field. field ≡ (model self.now).field number value.now) }
        ensures memory { IsOkUnless result SlateDBError.OutOfMemory };

    /// There are at most 8.
    ghost few: { (fields : Self) → (model fields).count ≤ 8 };
}
