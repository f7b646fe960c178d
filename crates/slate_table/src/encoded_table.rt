//! Tables that were built.
ghost use Rattle.std.specs.Prelude.{◌≡◌, IfOk, IsOkUnless};

use crate::info::SsTableInfo;
use bytes::Bytes;
use slate_types::{SlateDBError, Ulid};
use std::marker::Model;

/// A table that was built, ready to be put. Contracts see its bytes, its info, its version and its id.
#[derive(Drop)]
pub struct EncodedSsTable {
    bytes: Bytes,
    info: SsTableInfo,
    version: u16,
    id: Ulid,
}

impl Model for EncodedSsTable {
    ghost use Rattle.slate_table.specs.TableEnd.{EncodedTable};

    ghost Value = { EncodedTable };

    ghost view = { λ t. record { bytes = t.bytes; info = t.info; version = t.version; id = t.id } };
}

impl EncodedSsTable {
    pub(crate) fn new(bytes: Bytes, info: SsTableInfo, version: u16, id: Ulid) -> EncodedSsTable
        ensures bytes { result.bytes ≡ bytes }
        ensures info { result.info ≡ info }
        ensures version { result.version ≡ version }
        ensures id { result.id ≡ id }
    {
        EncodedSsTable {
            bytes,
            info,
            version,
            id,
        }
    }

    /// The whole table; it shares the buffer. The one error is `OutOfMemory`.
    pub fn remaining_as_bytes(&self) -> Result<Bytes, SlateDBError>
        ensures whole { IfOk result (λ bytes. bytes ≡ self.now.bytes) }
        ensures cause { IsOkUnless result SlateDBError.OutOfMemory }
    {
        self.bytes.clone().map_err(SlateDBError::from)
    }

    /// The id that it was built for.
    pub fn id(&self) -> Ulid
        ensures { result ≡ self.now.id }
    {
        self.id
    }

    /// Its first and its last key, and where its sections lie.
    pub fn info(&self) -> &SsTableInfo
        ensures { result.now ≡ self.now.info }
    {
        &self.info
    }

    pub(crate) fn version(&self) -> u16
        ensures { result ≡ self.now.version }
    {
        self.version
    }

    pub(crate) fn as_slice(&self) -> &[u8]
        ensures { result.now ≡ self.now.bytes }
    {
        self.bytes.as_slice()
    }
}
