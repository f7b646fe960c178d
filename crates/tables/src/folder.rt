//! The folder whose tables are read.
ghost use Rattle.std.specs.Prelude.{◌≡◌, codes, string_bytes, IfOk};

use slate_command::{FolderStore, open_folder, tell};
use slate_table::SstReader;
use slate_types::BlockTransformer;
use std::fs;
use std::io::ErrorKind;

/// Refuses what isn't there or is no folder, by the status to end with. A store over it would have
/// no tables.
pub fn test_folder(rt: &HostRuntime, folder: &str) -> Result<(), u8> {
    match fs::metadata(rt, folder) {
        Ok(found) if found.is_dir() => Ok(()),
        Ok(_) => {
            tell(rt, 7, format_args!("{folder} is no folder"));
            Err(7)
        }
        Err(error) if error.kind() == ErrorKind::OutOfMemory => Err(20),
        Err(error) => {
            tell(rt, 7, format_args!("{folder} couldn't be read: {error}"));
            Err(7)
        }
    }
}

/// Makes a reader of the folder's tables. Opens nothing. At an error, which is want of memory, the
/// status to end with.
pub fn read_folder<'a, T: BlockTransformer>(
    rt: &'a HostRuntime,
    folder: &str,
    transformer: Option<T>,
) -> Result<SstReader<FolderStore<'a>, T>, u8>
    ensures { IfOk result (λ reader. string_bytes reader.root_path ≡ codes "db") }
{
    match open_folder(rt, folder) {
        Ok(store) => match SstReader::new(rt.alloc(), "db", store, transformer) {
            Ok(reader) => Ok(reader),
            Err(_) => Err(20),
        },
        Err(_) => Err(20),
    }
}

/// Says which call of the store failed, and why, where that is what the status means.
pub fn tell_fault<T>(rt: &HostRuntime, status: u8, reader: &SstReader<FolderStore<'_>, T>) {
    if status == 7 {
        reader.store.tell(rt, status);
    }
}
