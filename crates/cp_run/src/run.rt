ghost use Rattle.std.specs.Prelude.{◌≡◌, ◌<◌, ◌≤◌, ◌∷◌, [], suc, length, reverse, get_or, IfOk, OnOk};
ghost use Rattle.cp_code.specs.Code.{Code};
ghost use Rattle.cp_code.specs.Machine as machine;
ghost use Rattle.cp_code.specs.Machine.{drop_to};
ghost use Rattle.cp_run.specs.Shown.{back, bound, goals_shown, here_of, frames_shown, frames_of};
ghost use Rattle.cp_run.specs.Entering.{alternative_frame, answering_frame};
ghost use Rattle.cp_run.specs.Stands.{HasItem, IsMoment, FramesStand, Holds, IsPut, IsPushed, AreDropped, is_opened};

use crate::frame::Frame;
use crate::goals::Goals;
use crate::item::Item;
use crate::moment::Moment;
use crate::point::Point;
use cp_heap::{Heap, Ref};
use cp_request::RemoteAnswer;
use cp_term::{Name, PredName, Terms};
use std::alloc::{AllocError, Global};

/// A goal that is run.
#[derive(Drop)]
pub struct Run {
    pub alloc: Global,
    pub heap: Heap,
    pub goals: Goals,
    pub frames: Vec<Frame>,
    pub point: Point,
    /// How many more goals it may run.
    pub units: u32,
    /// What the innermost findall has taken so far.
    pub copies: Terms,
}

impl Run {
    /// A run that has no goals, with so many units.
    pub fn new(alloc: Global, units: u32) -> Run
        ensures state { result ≡ record { alloc = alloc; heap = record { terms = []; trail = []; variables = 0; names = [] }; goals = [] ∷ []; frames = result.frames; point = Point.Fails; units = units; copies = [] } }
        ensures frames { result.frames.items ≡ [] }
        ensures holds { Holds result }
    {
        Run {
            alloc,
            heap: Heap::new(alloc),
            goals: Goals::new(alloc),
            frames: Vec::new(alloc),
            point: Point::Fails,
            units,
            copies: Terms::new(alloc),
        }
    }

    /// Where it stood; it has no more to give.
    pub fn leave(&mut self) -> Point
        ensures point { result ≡ self.old.point }
        ensures state { self.new ≡ record self.old { point = Point.Fails } }
    {
        std::mem::replace(&mut self.point, Point::Fails)
    }

    /// Where it stands from now on.
    pub fn go(&mut self, point: Point)
        ensures { self.new ≡ record self.old { point = point } }
    {
        self.point = point;
    }

    /// How far it has grown.
    pub fn moment(&self) -> Moment
        requires { Holds self.now }
        ensures now { IsMoment result (here_of self.now) }
        ensures whole { back result (here_of self.now) ≡ here_of self.now }
        ensures terms { length self.now.heap.terms ≤ result.mark.terms }
        ensures lists { length self.now.goals ≤ result.lists }
    {
        Moment {
            mark: self.heap.mark(),
            lists: self.goals.len(),
        }
    }

    /// Puts an item in front of a list of goals.
    pub fn put(&mut self, item: Item, rest: u32) -> Result<u32, AllocError>
        requires holds { Holds self.old }
        requires rest { rest < length self.old.goals }
        requires item { HasItem self.old.heap.terms item }
        ensures holds { OnOk result (Holds self.new) }
        ensures put { IfOk result (λ n. IsPut self.old self.new item rest n) }
    {
        let n = self.goals.push(item, rest)?;
        Ok(n)
    }

    /// Other goals are to be run when those in hand have no more to give.
    pub fn push_alternative(&mut self, goals: u32, level: u64) -> Result<(), AllocError>
        requires holds { Holds self.old }
        requires goals { goals < length self.old.goals }
        ensures holds { OnOk result (Holds self.new) }
        ensures pushed { OnOk result (IsPushed self.old self.new (λ code. machine.Alternative (goals_shown (here_of self.old) goals) (bound (here_of self.old)) self.old.heap.variables level)) }
    {
        let moment = self.moment();
        self.frames.push(Frame::Alternative {
            moment,
            goals,
            level,
        })?;
        Ok(())
    }

    /// Other goals are to be run when those in hand have no more to give, as things were at a moment.
    pub fn push_alternative_at(
        &mut self,
        moment: Moment,
        goals: u32,
        level: u64,
    ) -> Result<(), AllocError>
        requires holds { Holds self.old }
        requires moment { IsMoment moment (here_of self.old) }
        requires goals { goals < moment.lists }
        requires frames { FramesStand (back moment (here_of self.old)) (reverse self.old.frames.items) }
        ensures holds { OnOk result (Holds self.new) }
        ensures state { OnOk result (self.new ≡ record self.old { frames = self.new.frames }) }
        ensures frames { OnOk result ((code : Code) → frames_of code self.new ≡ alternative_frame (here_of self.old) moment goals level ∷ frames_shown code (back moment (here_of self.old)) (reverse self.old.frames.items)) }
    {
        self.frames.push(Frame::Alternative {
            moment,
            goals,
            level,
        })?;
        Ok(())
    }

    /// A level is opened.
    pub fn push_opened(&mut self, level: u64) -> Result<(), AllocError>
        requires { Holds self.old }
        ensures holds { OnOk result (Holds self.new) }
        ensures pushed { OnOk result (IsPushed self.old self.new (λ code. machine.Mark level)) }
    {
        self.frames.push(Frame::Opened { level })?;
        Ok(())
    }

    /// A `catch` that the module `seer` sees, over what it protects.
    pub fn push_catching(
        &mut self,
        seer: Name,
        ball: Ref,
        recovery: Ref,
        rest: u32,
        level: u64,
    ) -> Result<(), AllocError>
        requires holds { Holds self.old }
        requires ball { ball.at < length self.old.heap.terms }
        requires recovery { recovery.at < length self.old.heap.terms }
        requires rest { rest < length self.old.goals }
        ensures holds { OnOk result (Holds self.new) }
        ensures pushed { OnOk result (IsPushed self.old self.new (λ code. machine.Catching (suc level) seer (get_or self.old.heap.terms ball.at []) (get_or self.old.heap.terms recovery.at []) (goals_shown (here_of self.old) rest) (bound (here_of self.old)) self.old.heap.variables level)) }
    {
        let moment = self.moment();
        self.frames.push(Frame::Catching {
            moment,
            seer,
            ball,
            recovery,
            rest,
            level,
        })?;
        Ok(())
    }

    /// A findall, over its goal. The copies of the one around it are `outer`.
    pub fn push_gathering(
        &mut self,
        outer: Terms,
        list: Ref,
        rest: u32,
        level: u64,
    ) -> Result<(), AllocError>
        requires holds { Holds self.old }
        requires list { list.at < length self.old.heap.terms }
        requires rest { rest < length self.old.goals }
        ensures holds { OnOk result (Holds self.new) }
        ensures pushed { OnOk result (IsPushed self.old self.new (λ code. machine.Gathering outer (get_or self.old.heap.terms list.at []) (goals_shown (here_of self.old) rest) (bound (here_of self.old)) self.old.heap.variables level)) }
    {
        let moment = self.moment();
        self.frames.push(Frame::Gathering {
            moment,
            outer,
            result: list,
            rest,
            level,
        })?;
        Ok(())
    }

    /// The answers of a remote call from this one on are to be given, as things were at a moment.
    pub fn push_answering(
        &mut self,
        moment: Moment,
        pred: PredName,
        answer: RemoteAnswer,
        from: u32,
        goal: Ref,
        rest: u32,
        level: u64,
    ) -> Result<(), AllocError>
        requires holds { Holds self.old }
        requires moment { IsMoment moment (here_of self.old) }
        requires goal { goal.at < moment.mark.terms }
        requires rest { rest < moment.lists }
        requires frames { FramesStand (back moment (here_of self.old)) (reverse self.old.frames.items) }
        ensures holds { OnOk result (Holds self.new) }
        ensures state { OnOk result (self.new ≡ record self.old { frames = self.new.frames }) }
        ensures frames { OnOk result ((code : Code) → frames_of code self.new ≡ answering_frame (here_of self.old) moment pred answer from goal.at rest level ∷ frames_shown code (back moment (here_of self.old)) (reverse self.old.frames.items)) }
    {
        self.frames.push(Frame::Answering {
            moment,
            pred,
            answer,
            from,
            goal,
            rest,
            level,
        })?;
        Ok(())
    }

    /// Drops the frames down to the mark of a level.
    pub fn cut_to(&mut self, level: u64)
        requires { Holds self.old }
        ensures holds { Holds self.new }
        ensures state { self.new ≡ record self.old { frames = self.new.frames } }
        ensures frames { (code : Code) → frames_of code self.new ≡ drop_to level (frames_of code self.old) }
    {
        drop_frames(&mut self.frames, level);
    }
}

/// Drops the frames down to the mark of a level.
fn drop_frames(frames: &mut Vec<Frame>, level: u64)
    ensures { AreDropped level (reverse frames.old.items) (reverse frames.new.items) }
{
    'cut: while let Some(frame) = frames.pop() {
        if opens(&frame, level) {
            frames.push_reserved(frame);
            return;
        }
        drop_frame(frame);
    }
}

fn drop_frame(_frame: Frame) {}

/// Whether the frame is the mark of a level.
fn opens(frame: &Frame, level: u64) -> bool
    ensures { result ≡ is_opened level frame.now }
{
    match frame {
        Frame::Opened { level: opened } => *opened == level,
        Frame::Alternative { .. } => false,
        Frame::Clauses { .. } => false,
        Frame::Catching { .. } => false,
        Frame::Gathering { .. } => false,
        Frame::Answering { .. } => false,
    }
}
