//! What is done to an open pool.

ghost use Rattle.std.specs.Prelude.{◌≡◌, ◌-◌, ◌^◌, length};
ghost use Rattle.kd_acts.specs.State.{done};
ghost use Rattle.kd_acts.specs.Steps.{offer_step, post_step, settled, swept, without_handed};
ghost use Rattle.kd_tables.specs.Drafts.{IsLength};
ghost use Rattle.kd_tables.specs.Outs.{out_answer};
ghost use Rattle.kd_holds.specs.Counts.{IsPoolBelow};
ghost use Rattle.kd_holds.specs.Publishing as publishing;
ghost use Rattle.kd_holds.specs.Publishing.{publish_step};

use crate::pending::Published;
use kd_desk::{Content, Out};
use kd_pool::{Drained, Pool};
use kd_types::{ConnId, SliceNo};

/// Reserves a slice for a message. Where it needn't be placed, a refusal is counted.
#[tactic(auto, unfolding(kd_acts::specs::Steps::offer_step))]
pub(crate) fn offer(pool: &mut Pool, user: u32, len: u32, from: ConnId, must: bool) -> Out
    requires len { IsLength len }
    requires counts { IsPoolBelow (2 ^ 63 - 1) pool.old }
    ensures after { pool.new ≡ (offer_step user len from must pool.old).0 }
    ensures answer { out_answer result ≡ (offer_step user len from must pool.old).1 }
{
    match pool.offer(user, len, from) {
        Ok(number) => Out::Slice(number),
        Err(why) => {
            if !must {
                pool.miss();
            }
            Out::Refused(why)
        }
    }
}

/// Places and queues a notice, or counts it.
pub(crate) fn post(pool: &mut Pool, image: &[u8]) -> Out
    requires len { IsLength (length image.now) }
    requires counts { IsPoolBelow (2 ^ 63 - 1) pool.old }
    ensures after { pool.new ≡ (post_step image.now pool.old).0 }
    ensures answer { out_answer result ≡ (post_step image.now pool.old).1 }
{
    match pool.post(image) {
        Ok(number) => Out::Slice(number),
        Err(why) => Out::Refused(why),
    }
}

/// Places drained messages and queues them, or counts them.
pub(crate) fn settle(pool: &mut Pool, from: Drained) -> Out
    requires counts { IsPoolBelow (2 ^ 63 - 1) pool.old }
    ensures after { pool.new ≡ settled from.images (swept pool.old) }
    ensures answer { out_answer result ≡ done }
{
    pool.settle(from);
    Out::Done
}

/// Writes a message into the slice of a number, where that is reserved for just as many bytes, and
/// queues it. The slice holds the share of sealed bytes that the message takes along.
pub(crate) fn publish(pool: &mut Pool, number: SliceNo, content: Content) -> Published
    requires counts { IsPoolBelow (2 ^ 63 - 1) pool.old }
    ensures after { pool.new ≡ (publish_step number content pool.old).0 }
    ensures answer { publishing.publish_answer result
        ≡ (publish_step number content pool.old).1 }
{
    let shared = content.shared;
    let prefix = content.prefix.bytes();
    let payload = content.payload.as_slice();
    match pool.reserved(number) {
        Some(len) if len as usize == prefix.len() + payload.len() => {
            pool.publish(number, prefix, payload, shared, content.priority);
            Published::Placed
        }
        _ => Published::Gone,
    }
}

/// Gives a slice back that was received.
pub(crate) fn free(pool: &mut Pool, number: SliceNo)
    ensures { pool.new ≡ without_handed number pool.old }
{
    let _ = pool.free(number);
}
