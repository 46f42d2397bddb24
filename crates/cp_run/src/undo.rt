ghost use Rattle.std.specs.Prelude.{◌≡◌};
ghost use Rattle.cp_run.specs.Shown.{back, here_of};
ghost use Rattle.cp_run.specs.Stands.{IsMoment};

use crate::moment::Moment;
use crate::run::Run;

impl Run {
    /// Takes the heap and the lists of goals back to a moment.
    pub fn undo_to(&mut self, moment: Moment)
        requires { IsMoment moment (here_of self.old) }
        ensures here { here_of self.new ≡ back moment (here_of self.old) }
        ensures state { self.new ≡ record self.old { heap = self.new.heap; goals = self.new.goals } }
    {
        self.heap.undo_to(moment.mark);
        self.goals.cut_to(moment.lists);
    }
}
