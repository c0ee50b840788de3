//! Examples in files.

use crate::example::Example;
use std::{fs, io};

/// The file of this name and ending.
fn file(rt: &HostRuntime, folder: &str, name: &str, ending: &str) -> io::Result<Vec<u8>> {
    let path = format!(in rt.alloc(); "{folder}/{name}{ending}")?;
    fs::read(rt, path.as_str())
}

/// The names of the folder's examples, in their order.
fn names_in(rt: &HostRuntime, folder: &str) -> io::Result<Vec<String>> {
    let mut names = Vec::new(rt.alloc());
    for entry in fs::read_dir(rt, folder)? {
        let entry = entry?;
        if let Some(name) = entry.file_name().strip_suffix(".frames.txt") {
            names.push(String::from_str(rt.alloc(), name)?)?;
        }
    }
    names.sort()?;
    Ok(names)
}

/// The folder's examples, in the order of their names.
pub fn examples_in(rt: &HostRuntime, folder: &str) -> io::Result<Vec<Example>> {
    let mut examples = Vec::new(rt.alloc());
    for name in names_in(rt, folder)? {
        let lines = file(rt, folder, name.as_str(), ".frames.txt")?;
        let frames = file(rt, folder, name.as_str(), ".frames")?;
        let replies = file(rt, folder, name.as_str(), ".replies")?;
        let told = file(rt, folder, name.as_str(), ".replies.txt")?;
        examples.push(Example {
            name,
            lines,
            frames,
            replies,
            told,
        })?;
    }
    Ok(examples)
}
