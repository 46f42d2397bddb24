// Laws of the definition of resolution, for the crates above.
ghost use Rattle.cp_code.specs.Candidates.{OthersDoNotUnify, OthersAreLeftOut, NoneFindNothing, OthersAreMovedOver, NoneMovesToAFailure};
ghost use Rattle.cp_code.specs.Lawful.{AsksAreInForm, ProgramsAskInForm};
ghost use Rattle.cp_code.specs.Laws.{MachineComesToAnAnswer, MachineComesToTheAnswer, DepthIsEnough, HasIsItsRow, HasIsLeast, TreeIsRow, InstrumentedAsks, InstrumentedAgain, ProgramsArePlain, InstrumentedProgramAsks, DoneTreeIsFailure, DoneIsFailure, FailureIsDone, EndsAreNamed, MachineAsksAsTheTree, MoreUnitsChangeNothing, FirstStateMeansTheTree, MovesKeepTheMeaning, InputsKeepTheMeaning};

/// The tree of a list of goals is what the table says of its first goal, with the trees of the other lists of goals: the
/// depth to which the definition goes down is never met.
pub fn a_tree_is_its_row()
    ensures { TreeIsRow }
{}

/// A program whose checked predicates are made their tests and the call of the predicate as it was asks just what the program
/// with its assertions asks, on every list of inputs; and doing it again changes nothing. A program as it is loaded has no
/// predicate that was made so, and so the first holds of every loaded program.
pub fn instrumenting_keeps_what_is_asked()
    ensures asks { InstrumentedAsks }
    ensures again { InstrumentedAgain }
    ensures programs { ProgramsArePlain }
    ensures loaded { InstrumentedProgramAsks }
{}

/// A tree that ends Done without an answer is failure: all that the goal could do was tried, and nothing is left. A worker
/// that runs the goal tells `fail` of it, and it does so only where no more answers are left: a goal that has an answer is told
/// as `true`, one that used up its units as `steps`, and one that threw a term that nothing caught as `ball(B)`.
pub fn done_is_failure()
    ensures tree { DoneTreeIsFailure }
    ensures fails { DoneIsFailure }
    ensures only { FailureIsDone }
{}

/// A tree ends by a cut or a throw only to levels and catchers that its goals name, or that it opened itself.
pub fn ends_are_named()
    ensures { EndsAreNamed }
{}

/// The machine that walks a tree with the goals in hand and a stack of frames asks, once it has taken all inputs, what the
/// goal's tree asks on them. The law says nothing of a machine that has not come so far.
pub fn the_machine_asks_as_the_tree()
    ensures { MachineAsksAsTheTree }
{}

/// A tree that does not end for want of units is the same with more of them, which are left over.
pub fn more_units_change_nothing()
    ensures { MoreUnitsChangeNothing }
{}

/// A goal unifies with no clause whose first argument cannot match its own. So the tree of a call is the same where only the
/// clauses are tried that `Program::candidates` gives, and the machine moves over the others without a unit.
pub fn candidates_are_enough()
    ensures alone { OthersDoNotUnify }
    ensures some { OthersAreLeftOut }
    ensures none { NoneFindNothing }
    ensures moves { OthersAreMovedOver }
    ensures fails { NoneMovesToAFailure }
{}

/// What a term has by the properties of the language and the regular types of a program is the least that the clauses of the
/// types say: the depth to which the definition goes down is never met.
pub fn properties_are_the_least()
    ensures depth { DepthIsEnough }
    ensures row { HasIsItsRow }
    ensures least { HasIsLeast }
{}

/// What a state of the machine stands for is what is asked next, on each list of inputs that are still to come. The first
/// state stands for the goal's tree; a move keeps it; and the machine, when it is ready, asks it and takes the next input.
pub fn the_machine_keeps_its_meaning()
    ensures first { FirstStateMeansTheTree }
    ensures moves { MovesKeepTheMeaning }
    ensures inputs { InputsKeepTheMeaning }
{}

/// From every state, and on every list of inputs, the machine comes to a request, an answer or an end. So from its first state
/// it comes to what the goal's tree asks.
pub fn the_machine_comes_to_an_answer()
    ensures every { MachineComesToAnAnswer }
    ensures tree { MachineComesToTheAnswer }
{}

/// What goals ask is in form, as a machine that runs them has to say of its requests: they ask shared objects that there are;
/// their answers, the balls that end them and what they call of other modules have at most 4,096 cells; and what they call
/// there are atoms and compounds.
pub fn goals_ask_in_form()
    ensures code { AsksAreInForm }
    ensures program { ProgramsAskInForm }
{}
