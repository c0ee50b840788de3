//! Conversations in files.

use crate::trial::Trial;
use kd_types::Status;
use std::{fs, io};

/// The file of this name and ending.
fn file(rt: &HostRuntime, folder: &str, name: &str, ending: &str) -> io::Result<Vec<u8>> {
    let path = format!(in rt.alloc(); "{folder}/{name}{ending}")?;
    fs::read(rt, path.as_str())
}

/// How the run of this name ends: there is a file where it ends at bytes that are no frame.
fn end_of(rt: &HostRuntime, folder: &str, name: &str) -> io::Result<Status> {
    match file(rt, folder, name, ".cut") {
        Ok(bytes) => match str::from_utf8(&bytes)
            .ok()
            .and_then(|text| text.trim().parse::<u64>().ok())
        {
            Some(at) => Ok(Status::BadFrame { at }),
            None => Err(io::Error::from(io::ErrorKind::InvalidData)),
        },
        Err(error) if error.kind() == io::ErrorKind::NotFound => Ok(Status::Done),
        Err(error) => Err(error),
    }
}

/// The names of the folder's conversations, in their order.
fn names_in(rt: &HostRuntime, folder: &str) -> io::Result<Vec<String>> {
    let mut names = Vec::new(rt.alloc());
    for entry in fs::read_dir(rt, folder)? {
        let entry = entry?;
        if let Some(name) = entry.file_name().strip_suffix(".in") {
            names.push(String::from_str(rt.alloc(), name)?)?;
        }
    }
    names.sort()?;
    Ok(names)
}

/// The folder's conversations, in the order of their names.
pub fn trials_in(rt: &HostRuntime, folder: &str) -> io::Result<Vec<Trial>> {
    let mut trials = Vec::new(rt.alloc());
    for name in names_in(rt, folder)? {
        let input = file(rt, folder, name.as_str(), ".in")?;
        let output = file(rt, folder, name.as_str(), ".out")?;
        let end = end_of(rt, folder, name.as_str())?;
        trials.push(Trial {
            name,
            input,
            output,
            end,
        })?;
    }
    Ok(trials)
}
