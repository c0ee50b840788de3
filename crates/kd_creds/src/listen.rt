//! A whole configuration.

ghost use Rattle.std.specs.Prelude.{◌≡◌, Some, None, if◌then◌else◌, count_by, IfOk, IfErr, Ok, Err};
ghost use Rattle.kd_types.specs.Words.{some_of};
ghost use Rattle.kd_creds.specs.Lines.{is_skipped};
ghost use Rattle.kd_creds.specs.Listen.{is_socket, is_bus, is_bus_called, line_may_follow, said_with, listen_of, IsMalformedAt};

use crate::error::ListenError;
use crate::line::{ListenLine, line_of};
use crate::word::cut_at;
use kd_types::Text;
use std::alloc::{AllocError, Global};

/// The most buses of a configuration: a service holds so many.
const BUSES: usize = 4;

/// The most sockets of a configuration: each takes a thread of its own.
const SOCKETS: usize = 64;

/// What the configuration says, line by line.
pub fn read_listen(alloc: Global, text: &[u8]) -> Result<Vec<ListenLine>, ListenError>
    ensures lines { IfOk result (λ said. listen_of text.now ≡ Ok said.items) }
    ensures malformed { IfErr result (λ e. IsMalformedAt e (λ at. listen_of text.now ≡ Err at)) }
{
    let mut given = Vec::new(alloc);
    let mut at = 0;
    let mut rest = Some(text);
    'lines: while let Some(here) = rest {
        let (line, behind) = cut_at(here, b'\n');
        if !add_line(alloc, &mut given, line)? {
            return Err(ListenError::Malformed { at });
        }
        at += line.len() + 1;
        rest = behind;
    }
    if has_socket(given.as_slice()) {
        Ok(given)
    } else {
        Err(ListenError::Malformed { at: text.len() })
    }
}

/// Whether a socket is given.
fn has_socket(given: &[ListenLine]) -> bool
    ensures { result ≡ some_of is_socket given.now }
{
    given.iter().any(is_socket)
}

/// Adds what the line says to what was said before; false where it breaks a rule behind that.
#[tactic(auto, unfolding(crate::specs::Listen::said_with))]
fn add_line(alloc: Global, given: &mut Vec<ListenLine>, line: &[u8]) -> Result<bool, AllocError>
    ensures { IfOk result (λ kept.
        said_with given.old.items line.now
        ≡ (if kept then Some given.new.items else None)) }
{
    if is_skipped(line) {
        return Ok(true);
    }
    let Some(said) = line_of(alloc, line)? else {
        return Ok(false);
    };
    if !may_follow(given.as_slice(), &said) {
        return Ok(false);
    }
    given.push(said)?;
    Ok(true)
}

/// Whether the line says nothing.
fn is_skipped(line: &[u8]) -> bool
    ensures { result ≡ is_skipped line.now }
{
    match line {
        [] => true,
        [first, ..] => *first == b'#',
    }
}

/// Whether the line may stand behind those that are given.
fn may_follow(given: &[ListenLine], line: &ListenLine) -> bool
    ensures { result ≡ line_may_follow given.now line.now }
{
    match line {
        ListenLine::Bus { name, .. } => !has_bus(given, name) && bus_count(given) < BUSES,
        ListenLine::Socket { .. } => socket_count(given) < SOCKETS,
    }
}

/// Whether a bus of this name is given.
fn has_bus(given: &[ListenLine], name: &Text) -> bool
    ensures { result ≡ some_of (is_bus_called name.now) given.now }
{
    given.iter().any(|line| is_bus_called(line, name))
}

fn bus_count(given: &[ListenLine]) -> usize
    ensures { result ≡ count_by is_bus given.now }
{
    given.iter().filter(|line| is_bus(line)).count()
}

fn socket_count(given: &[ListenLine]) -> usize
    ensures { result ≡ count_by is_socket given.now }
{
    given.iter().filter(|line| is_socket(line)).count()
}

fn is_bus_called(line: &ListenLine, wanted: &Text) -> bool
    ensures { result ≡ is_bus_called wanted.now line.now }
{
    match line {
        ListenLine::Bus { name, .. } => name == wanted,
        ListenLine::Socket { .. } => false,
    }
}

fn is_bus(line: &ListenLine) -> bool
    ensures { result ≡ is_bus line.now }
{
    matches!(line, ListenLine::Bus { .. })
}

fn is_socket(line: &ListenLine) -> bool
    ensures { result ≡ is_socket line.now }
{
    matches!(line, ListenLine::Socket { .. })
}
