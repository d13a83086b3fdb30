// What is proved of evaluation and of the machine: an image's run is its rule set's evaluation. No code of the engine runs here; each function names in its contract what is proved of the definitions.
// Stays one function for each promise: the documents name a promise by its function, and one with many clauses would be no plainer.
#![tactic(auto)]

ghost use Rattle.theory.specs.Runs.{DeeperSame, FinishesAsEvaluated, StopsAsEvaluated, TooDeepRunsOut, EndedStays, SomeAllowanceEnds, EndedAsEvaluated};

// Deeper calls change no outcome of evaluation but 'too deep'.
pub fn deeper_same() -> u8
    ensures { DeeperSame }
{
    0
}

// A run comes to the result that evaluation comes to, or out of room.
pub fn finishes_as_evaluated() -> u8
    ensures { FinishesAsEvaluated }
{
    0
}

// A run comes to the stop that evaluation comes to, or out of room.
pub fn stops_as_evaluated() -> u8
    ensures { StopsAsEvaluated }
{
    0
}

// Calls nested deeper than the cells can hold bring the run out of room.
pub fn too_deep_runs_out() -> u8
    ensures { TooDeepRunsOut }
{
    0
}

// A run that has ended stays as it is.
pub fn ended_stays() -> u8
    ensures { EndedStays }
{
    0
}

// Some allowance ends the run of a rule set whose evaluation is not in trouble.
pub fn some_allowance_ends() -> u8
    ensures { SomeAllowanceEnds }
{
    0
}

// A run that has ended ended as evaluation does, or out of room.
pub fn ended_as_evaluated() -> u8
    ensures { EndedAsEvaluated }
{
    0
}
