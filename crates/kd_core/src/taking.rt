//! A caller takes the desk.

ghost use Rattle.std.specs.Prelude.{◌≡◌, ◌<◌, ◌^◌, IfOk, IsTrue, OnErr, OnOk};
ghost use Rattle.kd_core.specs.Planned.{IsPlanned};
ghost use Rattle.kd_holds.specs.Handing.{AreInOrder};
ghost use Rattle.kd_core.specs.Running.{said, stepped};
ghost use Rattle.kd_wire.specs.WellFormed.{is_well_formed};
ghost use Rattle.kd_world.specs.Legal.{take, legal};
ghost use Rattle.kd_world.specs.Callers.{creds_after};
ghost use Rattle.kd_world.specs.Answers.{says};

use crate::buses::is_astray;
use crate::event::Answer;
use crate::world::World;
use kd_desk::{Plan, Who};
use kd_holds::{Holder, Made};
use kd_types::{Creds, Refusal};
use kd_wire::Command;
use std::alloc::{AllocError, Global};
use std::snapshot::Snapshot;

/// Who a caller is by its own word when the command is done.
fn creds_after(creds: Creds, command: &Command) -> Creds
    ensures { result ≡ creds_after creds command.now }
{
    match command {
        Command::Enter { creds } => *creds,
        _ => creds,
    }
}

impl World {
    /// What the command comes to. Who is nothing yet has to name this bus, if it names one.
    #[tactic(auto, unfolding(kd_world::specs::Planner::planned))]
    fn planned(&self, alloc: Global, who: &Who, command: Command) -> Result<Plan, Refusal>
        requires form { IsTrue (is_well_formed command) }
        ensures planned { IsPlanned self.now.world.desk who.now command result }
        ensures order { IfOk result (λ plan. AreInOrder plan.parts) }
    {
        if is_astray(who, &command) {
            return Err(Refusal::NoSuchBus { generation: 0 });
        }
        kd_desk::plan(&self.desk, alloc, who, command)
    }

    /// The caller takes the desk with a command; nobody holds it. Where the command is refused the
    /// desk stays free.
    pub(crate) fn take(
        &mut self,
        alloc: Global,
        caller: u64,
        command: Command,
    ) -> Result<Answer, AllocError>
        requires may { IsTrue (legal self.old.world (take caller command)) }
        requires steps { self.old.steps < 2 ^ 54 }
        ensures ok { OnOk result (self.new ≡ stepped self.old (take caller command)) }
        ensures answer { IfOk result (λ a.
            a ≡ said (take caller command) (says self.old.world (take caller command))) }
        ensures err { OnErr result (self.new ≡ self.old) }
    {
        let who = self.caller(caller).who;
        let creds = creds_after(who.creds, &command);
        let given = Snapshot::of(&command);
        let plan = match self.planned(alloc, &who, command) {
            Ok(plan) => plan,
            Err(why) => {
                if why == Refusal::OutOfMemory {
                    return Err(AllocError);
                }
                self.steps += 1;
                return Ok(Answer::Refused(why));
            }
        };
        let made = Made::of(alloc, &plan)?;
        self.holder = Some(Holder {
            caller,
            who,
            command: given,
            creds,
            plan,
            made,
            outs: Vec::new(alloc),
        });
        self.steps += 1;
        Ok(Answer::Taken)
    }
}
