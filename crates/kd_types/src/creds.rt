//! Who a caller is, and what kinds of connections and of rights there are.

/// The credentials of a caller, as they were handed in when it came to the bus.
#[derive(Clone, Copy, Debug, PartialEq, Eq)]
pub struct Creds {
    /// The number of the user.
    pub uid: u32,
    /// The number of the group.
    pub gid: u32,
    /// Whether the caller may do what only the bus's creator and privileged callers may.
    pub privileged: bool,
}

/// What a connection is for, after the manual page kdbus.connection.
#[derive(Clone, Copy, Debug, PartialEq, Eq)]
pub enum Kind {
    /// Sends and receives.
    Ordinary,
    /// A placeholder for one name: it receives what is sent to the name before a service owns it,
    /// and can't send.
    Activator,
    /// Holds policy entries while it is connected; it has no pool.
    Holder,
    /// Is shown every message and notice, and can't send.
    Monitor,
}

/// A right that policy grants on a name, after the manual page kdbus.policy. A greater one includes
/// the lesser ones.
#[derive(Clone, Copy, Debug, PartialEq, Eq, PartialOrd, Ord)]
pub enum Level {
    /// To see that the name is owned, and its owner.
    See,
    /// To send to the owner of the name.
    Talk,
    /// To own the name.
    Own,
}
