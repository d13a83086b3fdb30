// A run with an allowance.
ghost use Rattle.std.specs.Prelude.{◌≤◌};
ghost use Rattle.machine.specs.Contexts.{SameCells, state_of};
ghost use Rattle.machine.specs.Run.{IsRun, ran};

use crate::context::Context;
use crate::registers::{Flow, Outcome, Ran};
use host::Host;
use image::fetch::Image;

impl Context<'_> {
    // Steps until the run ends or halts, or its allowance is used up.
    pub fn run<H: Host>(&mut self, image: Image, host: &mut H, allowance: u32) -> Ran
        ensures run { IsRun (ran image.entry.words.now image.entry.header allowance (H.means host.old) (state_of self.old)) result self.new.machine self.new.cells.now (H.means host.new) }
        ensures same { SameCells self.old self.new }
        ensures most { result.steps ≤ allowance }
    {
        for steps in 0..allowance {
            match self.step(image, host) {
                Ok(Flow::Next) => {}
                Ok(Flow::Ended(value)) => {
                    let outcome = Outcome::Finished(value);
                    return Ran {
                        steps: steps + 1,
                        outcome,
                    };
                }
                Err(halt) => {
                    let outcome = Outcome::Halted(halt, self.machine.counter);
                    return Ran { steps, outcome };
                }
            }
        }
        Ran {
            steps: allowance,
            outcome: Outcome::Paused,
        }
    }
}
