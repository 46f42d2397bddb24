ghost use Rattle.std.specs.Prelude.{◌≡◌, ◌<◌, true, false, length, is_some, IfOk, OnOk};
ghost use Rattle.cp_code.specs.Code.{Code};
ghost use Rattle.cp_code.specs.Programs.{or_fail};
ghost use Rattle.cp_code.specs.Machine.{goal_move, body_move};
ghost use Rattle.cp_control.specs.Control.{body_read, HasParts};
ghost use Rattle.cp_run.specs.Shown.{shown, moved};
ghost use Rattle.cp_run.specs.Stands.{Holds, Stands};
ghost use Rattle.cp_control.specs.Control.{is_of_parts};

use crate::run::Run;
use cp_control::Control;
use cp_heap::Ref;
use cp_term::Name;
use std::alloc::AllocError;

impl Run {
    /// Runs a charged goal that is control over its parts, and answers whether it is. A conjunction is none, since it is not
    /// charged; neither are `call`, `catch`, `throw` and `findall`.
    pub fn run_control(
        &mut self,
        seer: &Name,
        at: Ref,
        control: Control,
        own: u64,
        rest: u32,
        level: u64,
    ) -> Result<bool, AllocError>
        requires holds { Holds self.old }
        requires rest { rest < length self.old.goals }
        requires at { at.at < length self.old.heap.terms }
        requires parts { HasParts at.at control }
        requires goal { is_some (body_read self.old.heap.terms at.at control seer.now) ≡ true }
        ensures answer { IfOk result (λ ran. ran ≡ is_of_parts control) }
        ensures moved { IfOk result (λ ran. ran ≡ true → (code : Code) → shown code self.new ≡ moved code self.old rest level (goal_move code (or_fail (body_read self.old.heap.terms at.at control seer.now)) own)) }
        ensures stands { IfOk result (λ ran. ran ≡ true → Stands self.new) }
        ensures kept { IfOk result (λ ran. ran ≡ false → self.new ≡ self.old) }
    {
        match control {
            Control::Cut => {
                self.run_cut(own, rest, level);
                Ok(true)
            }
            Control::True => {
                self.run_true(own, rest, level);
                Ok(true)
            }
            Control::Fail => {
                self.run_fail(own, rest, level);
                Ok(true)
            }
            Control::Either(a, b) => {
                self.either_at(seer, a, b, own, rest, level)?;
                Ok(true)
            }
            Control::Choose(c, t, e) => {
                self.choose_at(seer, c, t, e, own, rest, level)?;
                Ok(true)
            }
            Control::IfThen(c, t) => {
                self.if_then_at(seer, c, t, own, rest, level)?;
                Ok(true)
            }
            Control::Not(g) => {
                self.not_at(seer, g, own, rest, level)?;
                Ok(true)
            }
            Control::Both(_, _)
            | Control::Call(_, _, _)
            | Control::Catch(_, _, _)
            | Control::Throw(_)
            | Control::FindAll(_, _, _)
            | Control::Within(_, _)
            | Control::Plain
            | Control::NoGoal => Ok(false),
        }
    }
}
