// What holds of every run of the image of a program that the typing rules admit. No code of the engine runs here; the function names what is proved of the definitions.
#![tactic(auto)]

ghost use Rattle.promises.specs.Promises.{NeverInTrouble, NamedEndings, ReachesEvaluation, EndsAsEvaluated, SomeAllowanceEndsIt};

// No run is in trouble; each ends with what its type promises, stops for a cause whose condition holds, or uses up its allowance; and it ends as evaluation does, or out of room.
pub fn admitted_runs_keep_their_promises() -> u8
    ensures trouble { NeverInTrouble }
    ensures endings { NamedEndings }
    ensures reaches { ReachesEvaluation }
    ensures ended { EndsAsEvaluated }
    ensures ends { SomeAllowanceEndsIt }
{
    0
}
