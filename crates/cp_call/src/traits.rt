ghost use Rattle.std.specs.Prelude.{◌≡◌, ◌≢◌, ◌+◌, ◌<◌, ◌≤◌, ◌⊎◌, min, ℕ, Bool, true, false, List, [], ◌∷◌, ◌++◌, length, IsTrue, IfOk, OnOk, OnErr, slice_get};
ghost use Rattle.cp_term.specs.declared.cell.Cell.{Cell};
ghost use Rattle.cp_call.specs.declared.call.Entry.{Entry};
ghost use Rattle.cp_call.specs.declared.item.Input.{Input};
ghost use Rattle.cp_call.specs.declared.item.Next.{Next};
ghost use Rattle.cp_call.specs.declared.item.RemoteCall.{RemoteCall};
ghost use Rattle.cp_call.specs.declared.item.RemoteReply.{RemoteReply};
ghost use Rattle.cp_call.specs.declared.outcome.OutEntry.{OutEntry};
ghost use Rattle.cp_call.specs.Sound.{Object, own_entries};
ghost use Rattle.cp_call.specs.Machine.{IsDue, IsInForm, IsEnginesCall};
ghost use Rattle.cp_list.specs.Lists.{IsPrefix};
ghost use Rattle.cp_call.specs.Asker.{entry_added, looked_after, IsFullBy, IsStill, IsRefusal};

use crate::asked::Asked;
use crate::call::Call;
use crate::item::{Input, Next, PutReply, RemoteCall, RemoteReply};
use cp_io::Bytes;
use cp_term::Term;
use std::alloc::AllocError;

/// What goals do, as a definition. A code is plain data: a program with its step budget, say.
pub trait Asks {
    /// What the goals are run by.
    type Code;

    // How many shared objects the code has: the two lists of goals at least.
    ghost objects: { Self.Code → ℕ };

    ghost has_lists: { (code : Self.Code) → 2 ≤ objects code };

    // What a goal does next, once it was handed these inputs since it was started.
    ghost asks: { Self.Code → List Cell → List Input → Next };
}

/// What runs goals, one at a time, as its rule says.
pub trait Machine: Drop {
    type Rule: Asks;

    // The code that it runs. No call changes it.
    ghost code: { Self → Self.Rule.Code };

    // What its goal does next, once it was handed these inputs more: all that is left of the goal.
    ghost continuation: { Self → List Input → Next };

    // Whether memory has stopped it: it answers so until a goal is started.
    ghost failed: { Self → Bool };

    /// Drops what the machine held, and begins the goal. After a refusal the machine has failed until it is started anew.
    fn start(&mut self, goal: &Term) -> Result<Next, AllocError>
        ensures code { Self.code self.new ≡ Self.code self.old }
        ensures starts { OnOk result ((more : List Input) → Self.continuation self.new more ≡ Self.Rule.asks (Self.code self.old) goal.now more) }
        ensures next { IfOk result (λ next. next ≡ Self.Rule.asks (Self.code self.old) goal.now []) }
        ensures form { IfOk result (IsInForm (Self.Rule.objects (Self.code self.old))) }
        ensures ok { OnOk result (failed self.new ≡ false) }
        ensures err { OnErr result (failed self.new ≡ true) };

    /// Hands the goal what it asked for.
    fn step(&mut self, input: Input) -> Result<Next, AllocError>
        requires due { failed self.old ≡ false → IsDue (Self.continuation self.old []) input }
        ensures ok { OnOk result ((failed self.old ≡ false) × (failed self.new ≡ false)) }
        ensures err { OnErr result (failed self.new ≡ true) }
        ensures code { Self.code self.new ≡ Self.code self.old }
        ensures continues { OnOk result ((more : List Input) → Self.continuation self.new more ≡ Self.continuation self.old (input ∷ more)) }
        ensures next { IfOk result (λ next. next ≡ Self.continuation self.old (input ∷ [])) }
        ensures form { IfOk result (IsInForm (Self.Rule.objects (Self.code self.old))) };
}

/// What asks shared objects on behalf of callers.
pub trait Asker {
    // The shared objects by number, as they began.
    ghost objects: { Self → List Object };

    // Whether it asks for the caller of this number.
    ghost serves: { Self → ℕ → Bool };

    // What it has seen for a caller of the history of an object: the first entries of it, up to the caller's last
    // own one at least.
    ghost seen: { Self → ℕ → ℕ → List Entry };

    // How often a caller has looked at an object in vain since it was parked there, and the number at which this
    // count stands still.
    ghost looked: { Self → ℕ → ℕ → ℕ };

    ghost last_look: { ℕ };

    // How many turns it has taken at an object, where each call is a turn of its own, and the number at which this
    // count stands still.
    ghost turns: { Self → ℕ → ℕ };

    ghost last_turn: { ℕ };

    // What of an asker stays at every call, as the hall that it asks.
    ghost stays: { Self → Self → Type 0 };

    /// Asks an object on behalf of a caller.
    fn ask(&mut self, object: u32, caller: u32, call: &Call) -> Asked
        requires object { object < length (objects self.old) }
        requires caller { IsTrue (serves self.old caller) }
        ensures objects { objects self.new ≡ objects self.old }
        ensures serves { (n : ℕ) → serves self.new n ≡ serves self.old n }

        // What it has seen grows at its end alone, and the caller's own part of it by the call and its reply.
        ensures seen { (n p : ℕ) → IsPrefix (seen self.old n p) (seen self.new n p) }
        ensures mine { own_entries caller (seen self.new caller object) ≡ own_entries caller (seen self.old caller object) ++ entry_added caller call.now result }
        ensures others { (n p : ℕ) → ((n ≢ caller) ⊎ (p ≢ object)) → own_entries n (seen self.new n p) ≡ own_entries n (seen self.old n p) }

        ensures looked { looked self.new caller object ≡ looked_after last_look result (looked self.old caller object) }
        ensures others_looked { (n p : ℕ) → ((n ≢ caller) ⊎ (p ≢ object)) → looked self.new n p ≡ looked self.old n p }

        ensures full { IsFullBy (slice_get (objects self.old) object) (seen self.new caller object) caller call.now result }
        ensures still { IsStill (slice_get (objects self.old) object) (seen self.new caller object) caller call.now result }

        // A refusal is of a turn of this very call.
        ensures turned { IsRefusal result → min (turns self.old object + 1) last_turn ≤ turns self.new object }
        ensures stays { stays self.old self.new };

    ghost stays_here: { (s : Self) → stays s s };

    ghost stays_on: { (r : Self) (s : Self) (t : Self) → stays r s → stays s t → stays r t };
}

/// What writes on the output port on behalf of engines.
pub trait Writer {
    // Whether it writes for the engine of this number.
    ghost serves: { Self → ℕ → Bool };

    // What it has written for an engine, each write with its reply.
    ghost wrote: { Self → ℕ → List OutEntry };

    // What of a writer stays at every call, as the port that it writes on.
    ghost stays: { Self → Self → Type 0 };

    fn write(&mut self, engine: u32, bytes: &Bytes) -> Result<PutReply, AllocError>
        requires { IsTrue (serves self.old engine) }
        ensures serves { (n : ℕ) → serves self.new n ≡ serves self.old n }
        ensures ok { IfOk result (λ reply. wrote self.new engine ≡ wrote self.old engine ++ record { engine = engine; bytes = bytes.now; reply = reply } ∷ []) }
        ensures err { OnErr result (wrote self.new engine ≡ wrote self.old engine) }
        ensures others { (n : ℕ) → n ≢ engine → wrote self.new n ≡ wrote self.old n }
        ensures stays { stays self.old self.new };

    ghost stays_here: { (s : Self) → stays s s };

    ghost stays_on: { (r : Self) (s : Self) (t : Self) → stays r s → stays s t → stays r t };
}

/// What calls remote goals.
pub trait Caller: Drop {
    // From this caller, the call was given this reply, which left that caller.
    ghost went: { Self → RemoteCall → RemoteReply → Self → Type 0 };

    fn remote(&mut self, call: &RemoteCall) -> Result<RemoteReply, AllocError>
        requires { IsEnginesCall call.now }
        ensures { IfOk result (λ reply. went self.old call.now reply self.new) };
}
