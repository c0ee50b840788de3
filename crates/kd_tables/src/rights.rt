//! The four rights, by credentials, policy and the names that somebody owns.
//!
//! What somebody owns is handed in as a list of names, so that it is asked of the registry once.

ghost use Rattle.std.specs.Prelude.{◌≡◌, ◌&&◌, ◌||◌, ◌==◌, Option, IfOk};
ghost use Rattle.kd_model.specs.Words.{some_of};
ghost use Rattle.kd_commands.specs.Rights.{bus_grants, endpoint_grants, grants, is_privileged, may_own, may_see, may_see_name, may_talk, reaches};
ghost use Rattle.kd_policy.specs.Level.{rank};
ghost use Rattle.kd_registry.specs.Changes.{names_of};

use crate::desk::Desk;
use kd_commands::Conn;
use kd_policy::{PolicyDb, Scope};
use kd_types::{ConnId, Creds, Level, Text};
use std::alloc::{AllocError, Global};

/// A level as a number: a greater one includes the lesser ones.
fn rank(level: Level) -> u8
    ensures { result ≡ rank level }
{
    match level {
        Level::See => 1,
        Level::Talk => 2,
        Level::Own => 3,
    }
}

/// Whether a level that was granted, if any, includes the wanted one.
fn reaches(wanted: Level, granted: Option<Level>) -> bool
    ensures { result ≡ reaches wanted granted }
{
    match granted {
        Some(level) => rank(wanted) <= rank(level),
        None => false,
    }
}

/// Whether the list grants the level on one of the names.
fn grants_some(
    policy: &PolicyDb,
    scope: Scope,
    wanted: Level,
    creds: &Creds,
    names: &[Text],
) -> bool
    ensures { result ≡ some_of (grants policy.now scope wanted creds.now) names.now }
{
    names.iter().any(|name| {
        reaches(
            wanted,
            policy.level(scope, name.bytes(), creds.uid, creds.gid),
        )
    })
}

impl Desk {
    /// Whether the caller may do what only the bus's creator and privileged callers may.
    pub fn is_privileged(&self, creds: &Creds) -> bool
        ensures { result ≡ is_privileged self.now creds.now }
    {
        creds.privileged || creds.uid == self.creator
    }

    fn endpoint_grants(&self, conn: &Conn, wanted: Level, names: &[Text]) -> bool
        ensures { result ≡ endpoint_grants self.now conn.now wanted names.now }
    {
        conn.endpoint == 0
            || grants_some(
                &self.policy,
                Scope::Endpoint(conn.endpoint),
                wanted,
                &conn.creds,
                names,
            )
    }

    /// Whether the connection may see that the name is owned, and its owner.
    #[tactic(auto, unfolding(kd_commands::specs::Rights::may_see_name))]
    pub fn may_see_name(&self, conn: &Conn, name: &Text) -> bool
        ensures { result ≡ may_see_name self.now conn.now name.now }
    {
        conn.endpoint == 0
            || reaches(
                Level::See,
                self.policy.level(
                    Scope::Endpoint(conn.endpoint),
                    name.bytes(),
                    conn.creds.uid,
                    conn.creds.gid,
                ),
            )
    }

    /// Whether the connection may own the name.
    #[tactic(auto, unfolding(kd_commands::specs::Rights::may_own))]
    pub fn may_own(&self, conn: &Conn, name: &Text) -> bool
        ensures { result ≡ may_own self.now conn.now name.now }
    {
        let Creds { uid, gid, .. } = conn.creds;
        let on_bus = self.is_privileged(&conn.creds)
            || reaches(
                Level::Own,
                self.policy.level(Scope::Bus, name.bytes(), uid, gid),
            );
        let endpoint = Scope::Endpoint(conn.endpoint);
        on_bus
            && (conn.endpoint == 0
                || reaches(
                    Level::Own,
                    self.policy.level(endpoint, name.bytes(), uid, gid),
                ))
    }

    /// Whether the connection may see another one.
    #[tactic(auto, unfolding(kd_commands::specs::Rights::may_see))]
    pub fn may_see(&self, alloc: Global, conn: &Conn, other: ConnId) -> Result<bool, AllocError>
        ensures { IfOk result (λ sees. sees ≡ may_see self.now conn.now other) }
    {
        if conn.endpoint == 0 {
            return Ok(true);
        }
        let names = self.registry.names_of(alloc, other)?;
        Ok(self.endpoint_grants(conn, Level::See, &names))
    }

    /// Whether the connection may send to another one.
    pub fn may_talk(&self, alloc: Global, conn: &Conn, other: &Conn) -> Result<bool, AllocError>
        ensures { IfOk result (λ talks. talks ≡ may_talk self.now conn.now other.now) }
    {
        let names = self.registry.names_of(alloc, other.id)?;
        Ok(self.talks_by(conn, other, &names))
    }

    /// Whether the connection may send to another one, which owns these names.
    #[tactic(auto, unfolding(kd_commands::specs::Rights::may_talk))]
    pub fn talks_by(&self, conn: &Conn, other: &Conn, names: &[Text]) -> bool
        requires { names.now ≡ names_of self.now.registry other.now.id }
        ensures { result ≡ may_talk self.now conn.now other.now }
    {
        let knows = self.is_privileged(&conn.creds)
            || conn.creds.uid == other.creds.uid
            || grants_some(&self.policy, Scope::Bus, Level::Talk, &conn.creds, names);
        knows && self.endpoint_grants(conn, Level::Talk, names)
    }
}
