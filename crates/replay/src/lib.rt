// A run whose host is changed, or is another, from one piece to the next is the run of one script of answers. No code of the engine runs here; the function names what is proved.
#![tactic(auto)]

ghost use Rattle.replay.specs.Script.{PiecesAreOneScript};

// Whatever the hosts of its pieces are, a run in pieces is the run of one script of answers.
pub fn pieces_are_one_script() -> u8
    ensures { PiecesAreOneScript }
{
    0
}
