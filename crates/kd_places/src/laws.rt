//! Where bytes break a format. Nothing is run here; each function's contract is a law.

ghost use Rattle.kd_places.specs.Images.{ItemPlacesAreTrue, PayloadPlacesAreTrue};
ghost use Rattle.kd_places.specs.Whole.{ImagePlacesAreOne, ImagePlacesAreTrue};
ghost use Rattle.kd_places.specs.Replies.{ReplyPlacesAreOne, ReplyPlacesAreTrue, UnitsMakeReplies};

/// A reply is its size word and its units.
pub fn units_make_replies()
    ensures { UnitsMakeReplies }
{}

/// The place that the reading of a reply answers is behind the longest beginning of the bytes that
/// can still become a whole reply; it is 0 where the size word isn't their length.
pub fn reply_places_are_true()
    ensures { ReplyPlacesAreTrue }
{}

/// Bytes have one such place at most.
pub fn reply_places_are_one()
    ensures { ReplyPlacesAreOne }
{}

/// The place that the reading of a message's items answers is behind the longest beginning of them
/// that tells something, in the order of the format.
pub fn item_places_are_true()
    ensures { ItemPlacesAreTrue }
{}

/// The place that the reading of its payloads answers is behind the payloads that are there whole,
/// each with its zeros.
pub fn payload_places_are_true()
    ensures { PayloadPlacesAreTrue }
{}

/// The place that the reading of an image answers is behind the longest beginning of the bytes that
/// can still become a whole image, of a message or of a notice; it is 0 where the size word says
/// what can't be.
pub fn image_places_are_true()
    ensures { ImagePlacesAreTrue }
{}

/// Bytes have one such place at most.
pub fn image_places_are_one()
    ensures { ImagePlacesAreOne }
{}
