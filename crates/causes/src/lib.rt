// Why a run stops. No code of the engine runs here; the function names what is proved of the machine.
#![tactic(auto)]

ghost use Rattle.causes.specs.Causes.{StoppedForACause};

// A step that stops stops for a cause whose condition holds where it stopped.
pub fn stopped_for_a_cause() -> u8
    ensures { StoppedForACause }
{
    0
}
