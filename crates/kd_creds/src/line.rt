//! One line of a configuration.

ghost use Rattle.std.specs.Prelude.{◌≡◌, IfOk};
ghost use Rattle.kd_creds.specs.Lines.{bus_of, socket_of, rights_of, listen_line, said_by, word_bytes};
ghost use Rattle.kd_creds.specs.Numbers.{digits_number};

use crate::bloom::{is_bloom_size, is_hash_count};
use crate::number::number;
use crate::word::{is_path, rights, words};
use kd_name::bus_name_fault;
use kd_types::{Creds, Text};
use std::alloc::{AllocError, Global};

/// The first word of a line that makes a bus.
const BUS: &[u8] = b"bus";

/// The first word of a line that listens at a socket.
const SOCKET: &[u8] = b"socket";

/// What a line of a configuration says.
#[derive(Debug, PartialEq, Eq, Drop)]
pub enum ListenLine {
    /// A bus is made.
    Bus {
        /// Its name: the number of its user, a dash, and at least one byte.
        name: Text,
        /// The user whose bus it is, and who is privileged on it.
        uid: u32,
        /// How many bytes its Bloom filters have: a multiple of 8 from 8 to 512.
        size: u32,
        /// How many bits of them a string sets: 1 to 8.
        hashes: u32,
    },
    /// Callers are served at a socket.
    Socket {
        /// Where the socket stands: 1 to 100 bytes of UTF-8, without a blank.
        path: Text,
        /// The credentials of everyone who comes here.
        creds: Creds,
        /// How many callers are served, one after the other: at least 1.
        sessions: u32,
    },
}

/// What a line says; None where it breaks a rule by itself.
#[tactic(auto, unfolding(crate::specs::Lines::listen_line))]
pub(crate) fn line_of(alloc: Global, line: &[u8]) -> Result<Option<ListenLine>, AllocError>
    ensures { IfOk result (λ said. said ≡ listen_line line.now) }
{
    let words = words(alloc, line)?;
    said_by(alloc, words.as_slice())
}

fn said_by(alloc: Global, words: &[&[u8]]) -> Result<Option<ListenLine>, AllocError>
    ensures { IfOk result (λ said. said ≡ said_by (word_bytes words.now)) }
{
    match words {
        [kind, name, uid, size, hashes] => {
            if *kind == BUS {
                bus_of(alloc, name, number(uid), number(size), number(hashes))
            } else {
                Ok(None)
            }
        }
        [kind, path, uid, gid, word, sessions] => {
            if *kind == SOCKET {
                socket_of(
                    alloc,
                    path,
                    number(uid),
                    number(gid),
                    rights(word),
                    number(sessions),
                )
            } else {
                Ok(None)
            }
        }
        _ => Ok(None),
    }
}

fn bus_of(
    alloc: Global,
    name: &[u8],
    uid: Option<u32>,
    size: Option<u32>,
    hashes: Option<u32>,
) -> Result<Option<ListenLine>, AllocError>
    ensures { IfOk result (λ said. said ≡ bus_of name.now uid size hashes) }
{
    let (Some(uid), Some(size), Some(hashes)) = (uid, size, hashes) else {
        return Ok(None);
    };
    let fault = bus_name_fault(alloc, uid, name)?;
    if fault.is_none() && is_bloom_size(size) && is_hash_count(hashes) {
        let name = Text::of(alloc, name)?;
        Ok(Some(ListenLine::Bus {
            name,
            uid,
            size,
            hashes,
        }))
    } else {
        Ok(None)
    }
}

fn socket_of(
    alloc: Global,
    path: &[u8],
    uid: Option<u32>,
    gid: Option<u32>,
    privileged: Option<bool>,
    sessions: Option<u32>,
) -> Result<Option<ListenLine>, AllocError>
    ensures { IfOk result (λ said. said ≡ socket_of path.now uid gid privileged sessions) }
{
    let (Some(uid), Some(gid), Some(privileged), Some(sessions)) = (uid, gid, privileged, sessions)
    else {
        return Ok(None);
    };
    if is_path(path) && sessions >= 1 {
        let path = Text::of(alloc, path)?;
        let creds = Creds {
            uid,
            gid,
            privileged,
        };
        Ok(Some(ListenLine::Socket {
            path,
            creds,
            sessions,
        }))
    } else {
        Ok(None)
    }
}
