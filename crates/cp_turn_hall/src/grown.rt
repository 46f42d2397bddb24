ghost use Rattle.std.specs.Prelude.{◌≡◌, [], ◌++◌, Some};
ghost use Rattle.cp_call.specs.History.{Legal};
ghost use Rattle.cp_call.specs.Asker.{entry_added, IsFullBy, IsStill};
ghost use Rattle.cp_hall.specs.Hall.{hall_object, with_entries, IsAnswered};

use cp_call::{Asked, Call, Entry};
use cp_hall::{HallRow, ask_one};
use cp_turn::Ledgered;
use std::marker::Model;
use std::snapshot::Snapshot;

/// A shared object behind its turnstile. Contracts see it as it stood when it was put there, and the entries since.
#[derive(Drop)]
pub struct GrownRow {
    row: HallRow,
    start: Snapshot<HallRow>,
}

impl Model for GrownRow {
    ghost use Rattle.std.specs.Prelude.{◌≡◌, drop, length};
    ghost use Rattle.cp_call.specs.History.{Legal};
    ghost use Rattle.cp_hall.specs.Hall.{hall_object, with_entries};
    ghost use Rattle.cp_turn_hall.specs.Grown.{GrownView};

    ghost Value = { GrownView };

    ghost view = { λ g. record { start = g.start.value; entries = drop (length g.start.value.pred.history) g.row.pred.history } };

    ghost invariant = { λ g. (hall_object g.row ≡ with_entries (drop (length g.start.value.pred.history) g.row.pred.history) (hall_object g.start.value)) × Legal g.row.pred.kind g.row.pred.opening g.row.pred.history };
}

impl Ledgered for GrownRow {
    type Entry = Entry;

    // the object as it stood
    type Basis = HallRow;

    ghost by = { λ e. e.caller };

    ghost entries = { λ g. g.entries };

    ghost base = { λ g. g.start };
}

impl GrownRow {
    /// An object as it stands.
    pub fn new(row: HallRow) -> GrownRow
        requires { Legal row.pred.kind row.pred.opening row.pred.history }
        ensures { result ≡ record { start = row; entries = [] } }
    {
        let start = Snapshot::of(&row);
        GrownRow { row, start }
    }

    /// Asks it on behalf of a caller.
    pub fn ask(&mut self, caller: u32, call: &Call) -> Asked
        ensures grown { self.new ≡ record { start = self.old.start; entries = self.old.entries ++ entry_added caller call.now result } }
        ensures answer { IsAnswered caller call.now result (with_entries self.old.entries (hall_object self.old.start)) }
        ensures full { IsFullBy (Some (hall_object self.old.start).object) (self.old.start.pred.history ++ self.new.entries) caller call.now result }
        ensures still { IsStill (Some (hall_object self.old.start).object) (self.old.start.pred.history ++ self.new.entries) caller call.now result }
        ensures legal { Legal self.old.start.pred.kind self.old.start.pred.opening (self.old.start.pred.history ++ self.new.entries) }
    {
        ask_one(&mut self.row.pred, caller, call)
    }

    /// The object with all its entries.
    pub fn into_row(self) -> HallRow
        ensures row { hall_object result ≡ with_entries self.entries (hall_object self.start) }
        ensures legal { Legal result.pred.kind result.pred.opening result.pred.history }
    {
        let GrownRow { row, start: _ } = self;
        row
    }
}
