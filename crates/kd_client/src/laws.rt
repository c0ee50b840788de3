//! What holds of all clients: what one knows is told by its calls. Nothing is run here; each
//! function's contract is a law.

ghost use Rattle.std.specs.Prelude.{◌≡◌, List, [], ◌∷◌};
ghost use Rattle.kd_client.specs.Clients.{Call, after, client_after, new_client};
ghost use Rattle.kd_client.specs.declared.request.Request.{Request};
ghost use Rattle.kd_client.specs.Requests.{SettlesOne};
ghost use Rattle.kd_client.specs.Receptions.{Reception, found};

use kd_outside::Link;

/// A new client is one after no calls.
pub fn a_new_client_was_not_called<L: Link + Drop>()
    ensures { (link : L) → new_client link ≡ client_after link [] }
{}

/// A client after one more call is told by all its calls: where the next reply begins, which
/// requests wait, and how many were asked for.
pub fn a_client_is_told_by_its_calls<L: Link + Drop>()
    ensures { (link now : L) (call : Call) (calls : List Call)
        → after now call (client_after link calls) ≡ client_after now (call ∷ calls) }
{}

/// Whatever is found, a request that it answers or fails waited, and no request of its cookie waits
/// any more.
pub fn a_settled_request_waited()
    ensures { (requests : List Request) (reception : Reception)
        → SettlesOne requests (found requests reception) }
{}
