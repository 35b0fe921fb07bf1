//! Two sessions that meet.
ghost use Rattle.std.specs.Prelude.{◌≡◌};
ghost use Rattle.run_spec.specs.Handed.{GoesOn};
ghost use Rattle.store_laws.specs.Logs.{log_of};
ghost use Rattle.store_laws.specs.Machines.{HasMore};
ghost use Rattle.shared_store.specs.Meeting.{Meets, SeesAny, StaysAny};
ghost use Rattle.shared_store.specs.Open.{commits_seen};
ghost use Rattle.shared_store.specs.Store.{IsAnyAt, IsSession, seen};

use crate::session::Session;
use crate::store::Store;
use engine_core::Core;
use hall_steps::Pass;

impl Store {
    /// Shows a pass all that another has seen: a pass without a hand is made of the one, and joined
    /// into the other.
    fn show(&self, from: &mut Pass<Core>, to: &mut Pass<Core>)
        requires from { IsAnyAt self.now from.old.seat from.old.hands }
        requires to { IsAnyAt self.now to.old.seat to.old.hands }
        ensures same { from.new.seat.me.0 ≡ from.old.seat.me.0 }
        ensures from { StaysAny self.now
            from.old.seat from.old.hands from.new.seat from.new.hands }
        ensures to { SeesAny self.now to.old.seat to.old.hands to.new.seat to.new.hands }
        ensures shows { GoesOn (log_of from.old.seat.me.0.log) (log_of to.new.seat.me.0.log) }
    {
        let note = self.hall.note(from);
        self.hall.join(to, note);
    }

    /// Two sessions show each other what they have seen of the log. Both have then seen all that
    /// either had, and the first has seen all that the second has.
    pub fn meet(&self, a: &mut Session, b: &mut Session)
        requires session_a { IsSession self.now a.old }
        requires session_b { IsSession self.now b.old }
        ensures a { Meets self.now a.old a.new }
        ensures b { Meets self.now b.old b.new }
        ensures shows_a { GoesOn (seen a.old) (seen b.new) }
        ensures shows_b { GoesOn (seen b.new) (seen a.new) }
        ensures commits_a { HasMore (commits_seen self.now a.old) (commits_seen self.now b.new) }
        ensures commits_b { HasMore (commits_seen self.now b.new) (commits_seen self.now a.new) }
    {
        self.show(&mut a.pass, &mut b.pass);
        self.show(&mut b.pass, &mut a.pass);
    }
}
