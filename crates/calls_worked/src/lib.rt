// Lists of calls worked out by hand, which the definitions of the calls must come to. No code of the engine runs here.
// Stays one function for each promise: the documents name a promise by its function, and one with many clauses would be no plainer.
#![tactic(auto)]

ghost use Rattle.calls_worked.specs.Cases as cases;
ghost use Rattle.calls_worked.specs.Lists.{CutAsYouLike, TooFewCells, LeftoversMakeNoDifference};
ghost use Rattle.calls_worked.specs.Sample.{Worked};

// A list with calls that are turned down among them has these answers, its run is a run of an admitted rule set, and it ends with 7 after 6 steps.
pub fn sample_has_its_run() -> u8
    ensures { Worked }
{
    0
}

// A run cut in pieces, calls between that are turned down, a second run over what the first left.
pub fn lists_as_worked_out() -> u8
    ensures cut { CutAsYouLike }
    ensures few { TooFewCells }
    ensures leftovers { LeftoversMakeNoDifference }
{
    0
}

// Rule sets from node table to ending.
pub fn rule_sets_as_worked_out() -> u8
    ensures { cases.Worked }
{
    0
}
