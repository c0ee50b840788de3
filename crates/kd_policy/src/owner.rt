//! Whose entries stand in which list.

ghost use Rattle.std.specs.Prelude.{◌≡◌};
ghost use Rattle.kd_policy.specs.Policy.{same_owner, is_in, is_endpoint};

use kd_types::ConnId;

/// Whose entries they are.
#[derive(Clone, Copy, Debug, PartialEq, Eq)]
pub enum Owner {
    /// Of a policy holder, and so of the bus.
    Conn(ConnId),
    /// Of the endpoint of this number.
    Endpoint(u8),
}

/// Which list is asked.
#[derive(Clone, Copy, Debug, PartialEq, Eq)]
pub enum Scope {
    /// That of the bus, which is made of the entries of all its policy holders.
    Bus,
    /// That of the endpoint of this number.
    Endpoint(u8),
}

impl Owner {
    /// Whether both are one owner.
    pub(crate) fn is_same(&self, other: &Owner) -> bool
        ensures { result ≡ same_owner self.now other.now }
    {
        match self {
            Owner::Conn(own) => match other {
                Owner::Conn(other) => own.0 == other.0,
                Owner::Endpoint(_) => false,
            },
            Owner::Endpoint(own) => match other {
                Owner::Endpoint(other) => own == other,
                Owner::Conn(_) => false,
            },
        }
    }

    /// Whether it is an endpoint, whose list takes no wildcards.
    pub(crate) fn is_endpoint(&self) -> bool
        ensures { result ≡ is_endpoint self.now }
    {
        matches!(self, Owner::Endpoint(_))
    }
}

impl Scope {
    /// Whether the owner's entries stand in this list.
    pub(crate) fn has(self, owner: &Owner) -> bool
        ensures { result ≡ is_in self owner.now }
    {
        match self {
            Scope::Bus => !owner.is_endpoint(),
            Scope::Endpoint(number) => owner.is_same(&Owner::Endpoint(number)),
        }
    }
}
