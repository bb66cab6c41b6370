// Settling a hand.
ghost use Rattle.std.specs.Prelude.{◌≡◌, [], None, IfErr, IfOk, OnOk};
ghost use Rattle.pj_plan.specs.Sound.{IsSoundPlan};
ghost use Rattle.pj_hand.specs.Hands.{StandsForOne};
ghost use Rattle.pj_hand.specs.Settling.{HandMakes, IsSettlingRefused, RefusesMaking, SettlesHand, giving};

use crate::Hand;
use pj_core::{Out, Stop};
use pj_value::List;

impl Hand {
    /// Settles the run: every probe that is under way is worked on and given, in order of join and ticket; then every pending ticket
    /// is taken, worked on and given, in order; each join is then swept, input by input, and all that is pending after each sweep is
    /// done; and all that was not drained is handed out. The hand stands for a history: what arrived might follow.
    ///
    /// `Limit` comes where an entry on the way brings one element more to a join or a group than may reach it; `NoMemory` where memory
    /// could not be had. Both stop the core; but where there is no memory for the work of a probe that was under way, or for the place
    /// of the one that was taken last, nothing stops, and that probe and those behind it are still held. What was gained before stays
    /// to be drained. A hand that stopped before answers that stop again and changes nothing.
    pub fn settle(&mut self) -> Result<List<Out>, Stop>
        requires { StandsForOne self.old }
        ensures ok { IfOk result (λ outs. SettlesHand self.old self.new outs) }
        ensures err { IfErr result (λ stop. IsSettlingRefused self.old.core.kept.stop self.old self.new stop) }
    {
        match self.stopped() {
            Some(stop) => Err(stop),
            None => match self.give_all() {
                Ok(()) => match self.settle_core() {
                    Ok(outs) => Ok(outs),
                    Err(stop) => Err(stop),
                },
                Err(stop) => Err(stop),
            },
        }
    }

    // Gives all that is under way, in order of join and ticket.
    fn give_all(&mut self) -> Result<(), Stop>
        requires on { self.old.core.kept.stop ≡ None }
        requires sound { IsSoundPlan self.old.core.plan.nodes }
        requires stands { StandsForOne self.old }
        ensures ok { OnOk result (HandMakes self.old self.new (giving self.old)) }
        ensures none { OnOk result (self.new.taken ≡ []) }
        ensures err { IfErr result (λ stop. RefusesMaking self.old self.new (giving self.old) stop) }
    {
        'giving: loop {
            match self.give_first() {
                Ok(true) => {}
                Ok(false) => return Ok(()),
                Err(stop) => return Err(stop),
            }
        }
    }
}
