//! The files of the runs.
ghost use Rattle.std.specs.Prelude.{◌≡◌, ◌++◌, codes, IfOk, IfSome, string_bytes};

use std::alloc::{AllocError, Global};
use std::rt::Files;
use std::{fs, io};

/// The suffix of the names of these files.
const ENDING: &str = ".events";

/// The file of the run with this name.
pub(crate) fn file_of(alloc: Global, name: &str) -> Result<String, AllocError>
    ensures { IfOk result (λ file. string_bytes file ≡ name.now ++ codes ".events") }
{
    let mut file = String::from_str(alloc, name)?;
    file.push_str(ENDING)?;
    Ok(file)
}

/// The name of the run in a file with this name, if it is a run's.
fn run_in(file: &str) -> Option<&str>
    ensures { IfSome result (λ name. file.now ≡ name.now ++ codes ".events") }
{
    file.strip_suffix(ENDING)
}

/// The names of the runs in a folder, in order.
pub(crate) fn run_names<R: Files + AllocGlobal + Clone + Drop>(
    rt: &R,
    folder: &str,
) -> io::Result<Vec<String>> {
    let mut names = Vec::new(rt.alloc());
    for entry in fs::read_dir(rt, folder)? {
        let entry = entry?;
        if let Some(name) = run_in(entry.file_name()) {
            names.push(String::from_str(rt.alloc(), name)?)?;
        }
    }
    names.sort()?;
    Ok(names)
}
