//! Sockets' files, bound and taken away. They tell nothing of content, and count each error.

ghost use Rattle.std.specs.Prelude.{◌≡◌, ◌+◌, ◌≤◌, ◌<◌, ◌^◌, false, IfOk, OnErr};
ghost use Rattle.kd_outside.specs.Causes.{HasCause};
ghost use Rattle.kd_outside.specs.Told.{BinderState, Binds, Lends, with_bound};
ghost use Rattle.kd_outside.specs.Edges.{untold_binder};

use crate::service::Binder;
use crate::socket::UnixListen;
use crate::system_clock::SysClock;
use crate::traits::Failed;
use std::fs::Permissions;
use std::io::ErrorKind;
use std::marker::Model;
use std::net::Net;
use std::os::unix::fs::{FileTypeExt, PermissionsExt};
use std::os::unix::net::{UnixListener, UnixStream};
use std::rt::Files;
use std::{fs, io, time};

/// Who may speak on a socket: who may write its file, and that is its owner.
const OWNER_ALONE: u32 = 0o600;

/// Binds sockets' files, each to its owner alone. One that is left over from a run that died is
/// taken over; one at which somebody listens is a fault.
#[derive(Drop)]
pub struct UnixBinder<H> {
    handle: H,
    gave: u64,
    returned: u64,
    faults: u64,
}

impl<H> Model for UnixBinder<H> {
    ghost Value = { BinderState };

    ghost view = { λ b. untold_binder b.gave b.returned b.faults };

    ghost invariant = { λ b. b.gave < 2 ^ 64 };
}

impl<H> UnixBinder<H> {
    /// A binder that bound nothing yet.
    pub fn make(handle: H) -> UnixBinder<H>
        ensures { result ≡ untold_binder 0 0 0 }
    {
        UnixBinder {
            handle,
            gave: 0,
            returned: 0,
            faults: 0,
        }
    }
}

/// Whether a socket's file stands there at which nobody listens.
fn is_left_over<H: Files + Net>(handle: &H, path: &str) -> bool {
    let Ok(metadata) = fs::symlink_metadata(handle, path) else {
        return false;
    };
    if !metadata.file_type().is_socket() {
        return false;
    }
    match UnixStream::connect(handle, path) {
        Ok(_) => false,
        Err(error) => error.kind() == ErrorKind::ConnectionRefused,
    }
}

/// A listener on a path at which nobody listens, for its owner alone.
fn listen<H: Files + Net>(handle: &H, path: &str) -> io::Result<UnixListener> {
    if is_left_over(handle, path) {
        fs::remove_file(handle, path)?;
    }
    let listener = UnixListener::bind(handle, path)?;
    if let Err(error) = fs::set_permissions(handle, path, Permissions::from_mode(OWNER_ALONE)) {
        let _ = fs::remove_file(handle, path);
        return Err(error);
    }
    Ok(listener)
}

/// The listener, and the count of those that were given, with it. A count that stands at its
/// type's end is a fault.
fn next_listener<H: Files + Net>(
    handle: &H,
    path: &str,
    gave: u64,
) -> Result<(UnixListener, u64), Failed>
    ensures { IfOk result (λ r. r.1 ≡ gave + 1) }
{
    let gave = gave.checked_add(1).ok_or(Failed)?;
    let listener = listen(handle, path).map_err(|_| Failed)?;
    Ok((listener, gave))
}

impl<H: Files + Net + time::Clock + AllocGlobal + Copy> Binder for UnixBinder<H> {
    type N = UnixListen;

    type C = SysClock<H>;

    ghost told = { λ b. b };

    fn bind(&mut self, path: &str) -> Result<UnixListen, Failed>
        ensures cause { HasCause self.old.faults self.new.faults result }
        ensures given { IfOk result (λ n. Binds self.old self.new n.listener) }
        ensures path { IfOk result (λ n. n.path ≡ path.now) }
        ensures counted { IfOk result (λ n. n.listener.returned ≤ n.listener.gave) }
        ensures failed { OnErr result (self.new ≡ record (self.old) { faults = self.new.faults }) }
    {
        let Ok((listener, gave)) = next_listener(&self.handle, path, self.gave) else {
            self.faults = self.faults.saturating_add(1);
            return Err(Failed);
        };
        self.gave = gave;
        Ok(UnixListen::of(self.handle.alloc(), listener, path))
    }

    fn clock(&mut self) -> SysClock<H>
        ensures given { Lends self.old self.new result false }
        ensures gave { self.new.gave ≡ self.old.gave }
        ensures returned { self.new.returned ≡ self.old.returned }
    {
        SysClock::make(self.handle)
    }

    /// Takes the socket's file away.
    fn back(&mut self, listener: UnixListen, clock: SysClock<H>)
        requires { self.old.returned < self.old.gave }
        ensures { self.new ≡ with_bound listener clock false self.old }
    {
        listener.take_away(&self.handle);
        self.returned += 1;
    }
}
