//! What folders of the machine have.
use std::alloc::Global;
use std::rt::Files;
use std::{fs, io};

/// The names of what a folder of the machine has, in the order of their bytes.
pub fn names_in<R: Files + AllocGlobal + Clone + Drop>(
    rt: &R,
    alloc: Global,
    path: &str,
) -> io::Result<Vec<String>> {
    let mut names = Vec::new(alloc);
    for entry in fs::read_dir(rt, path)? {
        names.push(String::from_str(alloc, entry?.file_name())?)?;
    }
    names.sort()?;
    Ok(names)
}
