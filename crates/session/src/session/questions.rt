// What a session answers without a change: where it stands, what it was told, what it holds, and the held plan as a file.
ghost use Rattle.std.specs.Prelude.{◌≡◌, ◌≤◌, length, IfOk};
ghost use Rattle.engine.specs.HillClimbing.{longest};
ghost use Rattle.session.specs.Account.{remaining as remaining_of};
ghost use Rattle.session.specs.Standing.{Shows, Stands, account};
ghost use Rattle.session.specs.Writing.{Accepted, Writes};

use crate::model::{Phase, Refusal};
use crate::session::{Session, Slip};
use facts::FactSet;

impl Slip {
    // The action that is ordered.
    pub fn action(&self) -> u16
        ensures value { result ≡ self.now.order.action }
    {
        self.order.action
    }

    // The number of the session that gave the order.
    pub fn session(&self) -> u16
        ensures value { result ≡ self.now.order.session }
    {
        self.order.session
    }
}

impl<'t> Session<'t> {
    // Where the session stands. Behind it there is a history of calls, and what holds wherever a history ends holds here.
    #[tactic(auto, using(crate::proofs::Shown::shows, crate::proofs::Here::stands))]
    pub fn standing(&self) -> Phase
        ensures shows { Shows result (account self.now) }
        ensures stands { Stands self.now }
    {
        self.phase
    }

    pub fn number(&self) -> u16
        ensures value { result ≡ self.now.number }
    {
        self.number
    }

    // The told state.
    pub fn state(&self) -> FactSet
        ensures value { result.words ≡ (account self.now).state }
    {
        self.state
    }

    // The told goals.
    pub fn goals(&self) -> FactSet
        ensures value { result.words ≡ (account self.now).goals }
    {
        self.goals
    }

    // The action that is out.
    #[tactic(auto, using(crate::proofs::Fields::ordered_front))]
    pub fn order_out(&self) -> Option<u16>
        ensures value { result ≡ (account self.now).out }
    {
        match self.phase {
            Phase::Ordered => self.plan.first(),
            _ => None,
        }
    }

    // The remaining actions of the plan held; none where no plan is held.
    pub fn remaining(&self) -> &[u16]
        ensures list { result.now ≡ remaining_of (account self.now).held }
        ensures short { length result.now ≤ longest }
    {
        match self.phase {
            Phase::Ready | Phase::Ordered => self.plan.remaining(),
            _ => &[],
        }
    }

    // Writes the remaining plan from the told state as a plan file, and answers the bytes used. What stands behind them stays.
    pub fn write_plan(&self, buffer: &mut [u8]) -> Result<usize, Refusal>
        ensures writes { Writes self.now.task.now (account self.now) buffer.old result buffer.new }
        ensures accepted { IfOk result (λ n. Accepted self.now.task.now (account self.now) n buffer.new) }
    {
        match self.phase {
            Phase::Ready | Phase::Ordered => {
                planfile::write(self.task, &self.state, self.plan.remaining(), buffer).map_err(
                    |_| Refusal::BufferTooShort,
                )
            }
            _ => Err(Refusal::NothingToGive),
        }
    }
}
