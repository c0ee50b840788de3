//! The holder leaves the desk.

ghost use Rattle.std.specs.Prelude.{◌≡◌, ◌<◌, ◌≤◌, ◌^◌, ◌++◌, IfOk, IsTrue, None, OnErr, OnOk, Some, length};
ghost use Rattle.kd_tables.specs.Drafts.{Fits};
ghost use Rattle.kd_tables.specs.Outs.{ended_on};
ghost use Rattle.kd_holds.specs.declared.holder.Holder as code;
ghost use Rattle.kd_holds.specs.Placed.{HasKept, IsSpent, all_kept};
ghost use Rattle.kd_core.specs.Turned.{becomes, turned};
ghost use Rattle.kd_core.specs.Running.{said, stepped};
ghost use Rattle.kd_world.specs.Legal.{leave, legal};
ghost use Rattle.kd_world.specs.Callers.{hand_after, kind_after};
ghost use Rattle.kd_world.specs.Answers.{says};

use crate::caller::Caller;
use crate::event::Answer;
use crate::world::World;
use kd_desk::{Desk, Out, Plan, Who, WhoKind};
use kd_holds::{Hand, Hold, Holder, keep_all};
use kd_types::Kind;
use kd_wire::Reply;
use std::alloc::AllocError;

/// The kind of the connection that somebody is; it stays known when the connection is gone.
fn kind_after(desk: &Desk, member: &WhoKind, old: Kind) -> Kind
    ensures { result ≡ kind_after desk.now member.now old }
{
    let WhoKind::Conn { id, .. } = member else {
        return old;
    };
    match desk.conn_of(*id) {
        Some(conn) => conn.kind,
        None => old,
    }
}

/// Whoever is no connection has an empty hand.
fn clear_unless_conn(hand: &mut Hand, member: &WhoKind)
    ensures { hand.new ≡ hand_after member.now hand.old }
{
    match member {
        WhoKind::Conn { .. } => (),
        _ => hand.clear(),
    }
}

/// What a caller is when its plan is done; after a refusal that ended all, what it was.
fn becomes(plan: &Plan, was: &WhoKind, outs: &[Out]) -> WhoKind
    ensures { result ≡ becomes plan.now was.now outs.now }
{
    match plan.refusal(outs) {
        Some(_) => *was,
        None => plan.after(),
    }
}

impl Caller {
    /// What a plan of its own placed becomes pending.
    fn keep_placed(
        &mut self,
        plan: &mut Plan,
        outs: &[Out],
        pools: &[Hold],
    ) -> Result<(), AllocError>
        requires visited { length outs.now ≤ length plan.old.parts }
        ensures caller { OnOk result (self.new
            ≡ record self.old {
              pendings =
                  self.old.pendings
                  ++ all_kept pools.now plan.old.contents plan.old.parts outs.now;
            }) }
        ensures plan { OnOk result (IsSpent plan.old plan.new) }
        ensures caller_same { OnErr result (self.new ≡ self.old) }
        ensures plan_same { OnErr result (plan.new ≡ plan.old) }
    {
        self.pendings.reserve(outs.len())?;
        keep_all(&mut self.pendings, plan, outs, pools);
        Ok(())
    }

    /// It is somebody else, by the desk then.
    fn turn(&mut self, who: Who, desk: &Desk)
        ensures { self.new ≡ turned desk.now who self.old }
    {
        self.kind = kind_after(desk, &who.member, self.kind);
        clear_unless_conn(&mut self.hand, &who.member);
        self.who = who;
    }
}

/// Takes out the holder; what it placed is pending with its caller.
fn take_out(
    holder: &mut Option<Holder>,
    pools: &[Hold],
    caller: &mut Caller,
) -> Result<Holder, AllocError>
    requires held { (h : code.Holder) × (holder.old ≡ Some h)
        × (length h.outs.items ≤ length h.plan.parts) }
    ensures none { OnOk result (holder.new ≡ None) }
    ensures holder { IfOk result (λ k. (h : code.Holder) → holder.old ≡ Some h → HasKept h k) }
    ensures caller { OnOk result ((h : code.Holder) → holder.old ≡ Some h
        → caller.new
        ≡ record caller.old {
          pendings =
              caller.old.pendings
              ++ all_kept pools.now h.plan.contents h.plan.parts h.outs.items;
        }) }
    ensures holder_same { OnErr result (holder.new ≡ holder.old) }
    ensures caller_same { OnErr result (caller.new ≡ caller.old) }
{
    let Some(leaving) = holder else {
        unreachable!();
    };
    caller.keep_placed(&mut leaving.plan, &leaving.outs, pools)?;
    let Some(leaving) = holder.take() else {
        unreachable!();
    };
    Ok(leaving)
}

/// Ends the command of a holder by what the pools answered, and tells its caller who it is now.
fn end(holder: Holder, desk: &mut Desk, caller: &mut Caller) -> Reply
    requires fits { Fits desk.old holder.plan.change }
    ensures reply { result ≡ (ended_on desk.old holder.plan holder.outs.items).reply }
    ensures desk { desk.new ≡ (ended_on desk.old holder.plan holder.outs.items).next }
    ensures caller { caller.new
        ≡ turned desk.new (record {
          creds = holder.creds;
          member = becomes holder.plan holder.who.member holder.outs.items;
        }) caller.old }
{
    let Holder {
        who,
        creds,
        plan,
        outs,
        ..
    } = holder;
    let member = becomes(&plan, &who.member, &outs);
    let reply = desk.finish(plan, &outs);
    caller.turn(Who { creds, member }, desk);
    reply
}

impl World {
    /// The holder leaves the desk: its command is ended by what the pools answered, and what it
    /// placed is pending.
    #[tactic(auto, unfolding(kd_world::specs::Legal::legal))]
    pub(crate) fn leave(&mut self, caller: u64) -> Result<Answer, AllocError>
        requires may { IsTrue (legal self.old.world (leave caller)) }
        requires steps { self.old.steps < 2 ^ 54 }
        ensures ok { OnOk result (self.new ≡ stepped self.old (leave caller)) }
        ensures answer { IfOk result
            (λ a. a ≡ said (leave caller) (says self.old.world (leave caller))) }
        ensures err { OnErr result (self.new ≡ self.old) }
    {
        let me = &mut self.callers[(caller - 1) as usize];
        let holder = take_out(&mut self.holder, &self.pools, me)?;
        self.steps += 1;
        Ok(Answer::Left(end(holder, &mut self.desk, me)))
    }
}
