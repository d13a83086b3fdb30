// Playing lists of calls.
ghost use Rattle.std.specs.Prelude.{◌≡◌, min, length};
ghost use Rattle.calls.specs.Called.{Called};
ghost use Rattle.calls.specs.Played.{CarriesOn, Wrote, world_of};
ghost use Rattle.calls.specs.Law.{AdmittedHasRules, RunsItsImage, NeverInTrouble, NamedEndings, RunsAsOne, SameRuns, CanGoOn, CanGoFar, ReachesEvaluation, EndsAsEvaluated, SomeAllowanceEndsIt};

use crate::call::{Answer, Call};
use engine::record::Record;
use host::Host;
use language::faults::Fault;
use machine::cells::Cell;

// One call.
fn one<H: Host>(
    work: &mut Record,
    buffer: &mut [u32],
    cells: &mut [Cell],
    host: &mut H,
    call: Call,
) -> Result<Answer, Fault>
    ensures { Called call.entry (world_of buffer.old cells.old work.old.stage (H.means host.old)) result (world_of buffer.new cells.new work.new.stage (H.means host.new)) }
{
    match call {
        Call::Admit(table) => Ok(Answer::Admitted(work.admit(buffer, cells, table)?)),
        Call::Bring(words) => Ok(Answer::Brought(work.bring(buffer, cells, words)?)),
        Call::Begin => {
            work.begin(buffer, cells)?;
            Ok(Answer::Begun)
        }
        Call::Continue(allowance) => {
            Ok(Answer::Continued(work.resume(buffer, cells, host, allowance)?))
        }
        Call::Clear => {
            work.clear();
            Ok(Answer::Cleared)
        }
    }
}

// Plays calls one after another, as many as there are places for answers; answers how many it played.
pub fn play<H: Host>(
    work: &mut Record,
    buffer: &mut [u32],
    cells: &mut [Cell],
    host: &mut H,
    calls: &[Call],
    answers: &mut [Result<Answer, Fault>],
) -> usize
    ensures count { result ≡ min (length calls.now) (length answers.old) }
    ensures wrote { Wrote calls.now result (world_of buffer.old cells.old work.old.stage (H.means host.old)) (world_of buffer.new cells.new work.new.stage (H.means host.new)) answers.old answers.new }
    ensures onward { CarriesOn }
    ensures rules { AdmittedHasRules }
    ensures image { RunsItsImage }
    ensures trouble { NeverInTrouble }
    ensures endings { NamedEndings }
    ensures one { RunsAsOne }
    ensures same { SameRuns }
    ensures further { CanGoOn }
    ensures far { CanGoFar }
    ensures reaches { ReachesEvaluation }
    ensures ended { EndsAsEvaluated }
    ensures ends { SomeAllowanceEndsIt }
{
    let count = calls.len().min(answers.len());
    // Stays by place: over `answers.iter_mut().zip(calls)` the invariant has no name for the answers.
    for (k, call) in calls[..count].iter().enumerate() {
        answers[k] = one(work, buffer, cells, host, *call);
    }
    count
}
