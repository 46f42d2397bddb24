use crate::program::Program;
use cp_call::Asks;

/// A program with the step budget of each goal.
#[derive(Drop)]
pub struct ProgramCode {
    pub program: Program,
    pub steps: u32,
}

/// What the goals of a program do, by the definition of resolution.
pub struct ByTree;

impl Asks for ByTree {
    type Code = ProgramCode;

    ghost use Rattle.cp_code.specs.Programs.{code_of, objects_of, objects_of-lists};
    ghost use Rattle.cp_code.specs.Tree.{asks};

    ghost objects = { λ code. objects_of code.program };

    ghost has_lists = { λ code. objects_of-lists code.program };

    ghost asks = { λ code. asks (code_of code.program code.steps) };
}
