//! What holds of publishings along every list of events.

ghost use Rattle.kd_pairs.specs.Paired.{PublishesArePaired};

/// Each publishing that isn't gone is of the last offer before it at its pool that reserved its
/// number: by the same caller, with that offer's content, and no other stands between the two.
pub fn publishes_are_paired()
    ensures { PublishesArePaired }
{}
