//! Readers that own the store that they read.
ghost use Rattle.std.specs.Prelude.{◌≡◌, ◌≤◌, ◌⊎◌, string_bytes, Err, OnErr, IfOk, IfErr, IsOkUnless};
ghost use Rattle.slate_block.specs.BlockSpelling.{IsKnown};
ghost use Rattle.slate_table.specs.Paths.{path_of};
ghost use Rattle.slate_table.specs.InfoReading.{seen_info};
ghost use Rattle.slate_table.specs.Reading.{IsStoreFault};
ghost use Rattle.slate_table.specs.Opening.{IsOpened, MayOpen, RefusesOpen};

use crate::info::SsTableHandle;
use crate::opening::open_table;
use crate::sst_file::SstFile;
use slate_store::Store;
use slate_types::{BlockTransformer, SlateDBError, Ulid};
use std::alloc::Global;

/// Reads the tables of a store, each an object at its path below a root. The transformer is the one that the tables were
/// built with. Store and transformer are taken back by their fields.
#[derive(Drop)]
pub struct SstReader<S, T> {
    pub root_path: String,
    pub store: S,
    pub transformer: Option<T>,
}

impl<S: Store, T: BlockTransformer> SstReader<S, T> {
    /// A reader of the tables below a root. The one error is `OutOfMemory`.
    pub fn new(
        alloc: Global,
        root_path: &str,
        store: S,
        transformer: Option<T>,
    ) -> Result<SstReader<S, T>, SlateDBError>
        ensures root { IfOk result (λ reader. string_bytes reader.root_path ≡ root_path.now) }
        ensures store { IfOk result (λ reader. reader.store ≡ store) }
        ensures transformer { IfOk result (λ reader. reader.transformer ≡ transformer) }
        ensures cause { IsOkUnless result SlateDBError.OutOfMemory }
    {
        match String::from_str(alloc, root_path) {
            Ok(root_path) => Ok(SstReader {
                root_path,
                store,
                transformer,
            }),
            Err(error) => {
                drop(store);
                drop(transformer);
                Err(SlateDBError::from(error))
            }
        }
    }

    /// The table of an id, by three calls of the store: its size, its last bytes and its info. `StoreFault`, only where the
    /// store's count of faults rose. Otherwise the first of these: `CorruptTable` at 0 where there is no such object;
    /// `EmptySSTable` where it has at most 10 bytes; `InvalidVersion` where the version isn't 1, 2 or 3; `CorruptTable` at 0 where
    /// the info would begin behind its last 10 bytes or in them; `EmptyBlockMeta` where the info and its checksum have at most
    /// 4 bytes; `ChecksumMismatch`, in version 3 for this id; `CorruptTable` with the place of the first field of the info that fails;
    /// `UnsupportedCompression` with the codec's byte. Or `OutOfMemory`.
    pub fn open(&mut self, alloc: Global, id: Ulid) -> Result<SstFile, SlateDBError>
        ensures found { IfOk result (λ file. IsOpened (S.objects self.old.store) (S.acts self.old.store) (S.acts self.new.store) (path_of (string_bytes self.old.root_path) id.0) id.0 file.handle.format_version (seen_info file.handle.info)) }
        ensures known { IfOk result (λ file. IsKnown file.handle.format_version) }
        ensures id { IfOk result (λ file. file.handle.id ≡ id) }
        ensures cause { IfErr result (λ e. IsStoreFault (S.faults self.old.store) (S.faults self.new.store) e ⊎ RefusesOpen (S.objects self.old.store) (S.acts self.old.store) (S.acts self.new.store) (path_of (string_bytes self.old.root_path) id.0) id.0 e) }
        ensures calls { OnErr result (MayOpen (S.objects self.old.store) (S.acts self.old.store) (S.acts self.new.store) (path_of (string_bytes self.old.root_path) id.0)) }
        ensures objects { S.objects self.new.store ≡ S.objects self.old.store }
        ensures root { self.new.root_path ≡ self.old.root_path }
        ensures transformer { self.new.transformer ≡ self.old.transformer }
        ensures later { S.faults self.old.store ≤ S.faults self.new.store }
        ensures still { (result ≡ Err SlateDBError.StoreFault) ⊎ (S.faults self.new.store ≡ S.faults self.old.store) }
    {
        let handle = open_table(alloc, &mut self.store, self.root_path.as_str(), id)?;
        Ok(SstFile { handle })
    }

    /// The table of a handle, without a read.
    pub fn open_with_handle(&self, handle: SsTableHandle) -> SstFile
        ensures { result.handle ≡ handle }
    {
        SstFile { handle }
    }
}
