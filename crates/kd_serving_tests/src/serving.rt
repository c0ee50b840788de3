//! Any listener and any binder: that links and listeners may be given back is known from their
//! clauses alone.

ghost use Rattle.std.specs.Prelude.{◌≤◌};

use kd_outside::{Binder, Failed, Listener};
use kd_types::SessionEnd;
use std::sync::Wait;

/// Two links of any listener, which come back in the other order.
pub fn serve_two<N: Listener, R: Wait>(listener: &mut N, rt: &R) -> Result<(), Failed>
    requires { (N.told listener.old).returned ≤ (N.told listener.old).gave }
    ensures { (N.told listener.new).returned ≤ (N.told listener.new).gave }
{
    let first = listener.accept(rt)?;
    let Ok(second) = listener.accept(rt) else {
        listener.done(first, SessionEnd::Ended);
        return Err(Failed);
    };
    listener.done(second, SessionEnd::Ended);
    listener.done(first, SessionEnd::Spent);
    Ok(())
}

/// The same on a path, over any binder, to which listener and clock go back.
pub fn serve_on<B: Binder, R: Wait>(binder: &mut B, rt: &R, path: &str) -> Result<(), Failed>
    requires { (B.told binder.old).returned ≤ (B.told binder.old).gave }
    ensures { (B.told binder.new).returned ≤ (B.told binder.new).gave }
{
    let mut listener = binder.bind(path)?;
    let clock = binder.clock();
    let served = serve_two(&mut listener, rt);
    binder.back(listener, clock);
    served
}
