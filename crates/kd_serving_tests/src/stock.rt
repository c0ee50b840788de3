//! Links and listeners that the tests begin with, and what is done with them.

ghost use Rattle.std.specs.Prelude.{◌≡◌, ◌+◌, ◌<◌, IfOk, OnOk};

use kd_outside::{Failed, ListListener, Listener, MemLink, MemSink, MemSource, write_whole};
use kd_types::SessionEnd;
use std::alloc::{AllocError, Global};
use std::sync::Wait;

/// A link with two bytes to be read and room for four.
pub(crate) fn a_link(alloc: Global) -> Result<MemLink, AllocError> {
    let source = MemSource::make(b"ab".to_vec(alloc)?, Vec::new(alloc), Vec::new(alloc));
    let sink = MemSink::make(vec![in alloc; 0u8; 4]?, Vec::new(alloc));
    Ok(MemLink::make(source, sink))
}

/// A listener with so many links, whose accepts of the given numbers fail.
pub(crate) fn listener_of(
    alloc: Global,
    links: usize,
    fails: Vec<u64>,
) -> Result<ListListener, AllocError>
    ensures none_gone { IfOk result (λ n. n.gave ≡ 0) }
    ensures none_back { IfOk result (λ n. n.returned ≡ 0) }
{
    let mut all = Vec::new(alloc);
    for _ in 0..links {
        all.push(a_link(alloc)?)?;
    }
    Ok(ListListener::make(all, fails))
}

/// A link that was accepted, on which these bytes were written.
pub(crate) fn link_with<R: Wait>(
    listener: &mut ListListener,
    rt: &R,
    bytes: &[u8],
) -> Result<MemLink, Failed>
    ensures gave { OnOk result (listener.new.gave ≡ listener.old.gave + 1) }
    ensures returned { listener.new.returned ≡ listener.old.returned }
{
    let mut link = listener.accept(rt)?;
    write_whole(&mut link, bytes)?;
    Ok(link)
}

/// Gives a link back.
pub(crate) fn give_link_back(listener: &mut ListListener, link: MemLink, end: SessionEnd)
    requires { listener.old.returned < listener.old.gave }
    ensures gave { listener.new.gave ≡ listener.old.gave }
    ensures returned { listener.new.returned ≡ listener.old.returned + 1 }
{
    listener.done(link, end);
}
