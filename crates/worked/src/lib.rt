// Runs worked out by hand, which the definitions of the marked machine must come to.
#![tactic(auto)]

ghost use Rattle.worked.specs.Runs.{Worked};

// How many runs the list has.
pub fn runs_as_worked_out() -> u8
    ensures { Worked }
{
    7
}
