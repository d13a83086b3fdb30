// The marked machine without what lies above its top. No code of the engine runs here; its functions name what is proved of the two forms.
// Stays one function for each promise: the documents name a promise by its function, and one with many clauses would be no plainer.
#![tactic(auto)]

ghost use Rattle.stack.specs.Law.{StepIsTheStacks, StepOfAnyState, RunIsTheStacks, RunOfAnyState, StatesAreWhole, BeginningIsTheStacks, AboveDoesNotMatter, LeftoversDoNotMatter};

// One step on whole cells is one on the stack: the same answer, and the cells are the new stack laid over the old ones.
pub fn step_is_the_stacks() -> u8
    ensures whole { StatesAreWhole }
    ensures step { StepIsTheStacks }
    ensures any { StepOfAnyState }
{
    0
}

// A run on whole cells is a run of the stack, from any state whose top lies within its cells, and from the beginning.
pub fn run_is_the_stacks() -> u8
    ensures beginning { BeginningIsTheStacks }
    ensures run { RunIsTheStacks }
    ensures any { RunOfAnyState }
{
    0
}

// What the cells held before, and what lies above the top, does not matter to a run.
pub fn leftovers_do_not_matter() -> u8
    ensures above { AboveDoesNotMatter }
    ensures begin { LeftoversDoNotMatter }
{
    0
}
