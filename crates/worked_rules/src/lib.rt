// Rule sets worked out by hand, which evaluation and the runs of their images must come to.
#![tactic(auto)]

ghost use Rattle.worked_rules.specs.Samples.{Worked};

// What each rule set evaluates to, and how its run ends.
pub fn evaluated_as_worked_out() -> u8
    ensures { Worked }
{
    0
}
