//! Where the objects of a folder stand.
ghost use Rattle.std.specs.Prelude.{◌≡◌, ◌==◌, ◌++◌, ◌⊎◌, false, string_bytes, IfOk, IfErr, IsTrue, OnOk};
ghost use Rattle.std.specs.List.{ends_with, filter};
ghost use Rattle.std.specs.IoError.{error_kind};
ghost use Rattle.slate_store.specs.Places.{file_of, has_place, is_path, is_path_part, unfinished};
ghost use Rattle.slate_store.specs.Store.{IsRising};

use crate::PathText;
use bytes::ByteStr;
use std::alloc::{AllocError, Global};
use std::collections::BTreeSet;
use std::io::{self, ErrorKind};

/// What the name of a file ends with that is being written. No part of an object's path does.
const UNFINISHED: &str = ".tmp";

/// Where the file of an object is. No other call than `new` makes one, so that no file is reached by a path that is none.
#[derive(Drop)]
pub(crate) struct Place {
    text: String,
}

impl Place {
    /// The place of an object of the folder.
    pub(crate) fn new(alloc: Global, folder: &str, path: &str) -> io::Result<Place>
        ensures place { IfOk result (λ place. string_bytes place.text ≡ file_of folder.now path.now) }
        ensures has { OnOk result (IsTrue (has_place folder.now path.now)) }
        ensures cause { IfErr result (λ e. (error_kind e ≡ ErrorKind.OutOfMemory)
            ⊎ ((error_kind e ≡ ErrorKind.InvalidInput) × (has_place folder.now path.now ≡ false))) }
    {
        if !has_place(folder, path) {
            return Err(ErrorKind::InvalidInput.into());
        }
        let text = format!(in alloc; "{folder}/{path}")?;
        Ok(Place { text })
    }

    pub(crate) fn as_str(&self) -> &str
        ensures { result.now ≡ string_bytes self.now.text }
    {
        self.text.as_str()
    }

    /// The file as which the object is written, beside its own.
    pub(crate) fn beside(&self, alloc: Global) -> Result<String, AllocError>
        ensures { IfOk result (λ text. string_bytes text ≡ string_bytes self.now.text ++ unfinished) }
    {
        let text = self.as_str();
        format!(in alloc; "{text}{UNFINISHED}")
    }
}

fn has_place(folder: &str, path: &str) -> bool
    ensures { result ≡ has_place folder.now path.now }
{
    !folder.is_empty() && is_path(path)
}

/// Whether a path is names with a slash between two.
fn is_path(path: &str) -> bool
    ensures { result ≡ is_path path.now }
{
    path.split('/').all(is_path_part)
}

/// Whether a part of an object's path can be so: no name of a file that is being written, and none that leads elsewhere.
fn is_path_part(name: &str) -> bool
    ensures { result ≡ is_path_part name.now }
{
    !name.is_empty() && name != "." && name != ".." && !is_unfinished(name)
}

fn is_unfinished(name: &str) -> bool
    ensures { result ≡ ends_with (λ a b. a == b) name.now unfinished }
{
    name.ends_with(UNFINISHED)
}

/// Those of the names that are paths of objects, rising.
pub(crate) fn paths_among(
    alloc: Global,
    names: &BTreeSet<ByteStr>,
) -> Result<Vec<PathText>, AllocError>
    ensures paths { IfOk result (λ paths. paths.items ≡ filter is_path names.now.keys) }
    ensures order { IfOk result (λ paths. IsRising paths.items) }
{
    let mut paths = Vec::new(alloc);
    for name in names.iter() {
        if is_path(name.as_str()) {
            let text = String::from_str(alloc, name.as_str())?;
            paths.push(PathText::from_string(text))?;
        }
    }
    Ok(paths)
}
