// Runs shown step by step.
use crate::session::Session;
use crate::texts::{Reply, Spaced};
use crate::traced::{Instruction, working};
use calls::call::{Answer, Call};
use engine::record::calls::MOST_STEPS;
use engine::record::{Loaded, Stage};
use language::faults::Fault;
use machine::registers::{Machine, Outcome, Ran};

// The instruction at the counter, and the working values that its step left.
fn print_step(
    rt: &HostRuntime,
    session: &Session,
    loaded: Loaded,
    before: Machine,
) -> anyhow::Result<()> {
    let after = match session.stage() {
        Stage::Running(_, machine) => machine,
        Stage::Blank | Stage::Ready(_) | Stage::Ended(_, _) => before,
    };
    let counter = before.counter;
    let instruction = Instruction::at(session.buffer(), loaded.image.header, counter);
    let values = Spaced(working(after, session.cells()));
    println!(rt; "{counter}: {instruction} ->{values}")?;
    Ok(())
}

// One step of a run that can go on, printed if it was carried out.
fn step(rt: &HostRuntime, session: &mut Session) -> anyhow::Result<Result<Answer, Fault>> {
    let stage = session.stage();
    let answer = session.play(Call::Continue(1));
    if let (Stage::Running(loaded, machine), Ok(Answer::Continued(ran))) = (stage, answer) {
        if ran.steps > 0 {
            print_step(rt, session, loaded, machine)?;
        }
    }
    Ok(answer)
}

// Continues a run one step at a time. What `continue` refuses is refused here.
pub fn trace(rt: &HostRuntime, session: &mut Session, most: u32) -> anyhow::Result<()> {
    let first = if most > MOST_STEPS { u32::MAX } else { 0 };
    let mut answer = session.play(Call::Continue(first));
    let mut steps: u32 = 0;
    for _ in 0..most {
        let Ok(
            Answer::Continued(
                Ran {
                    outcome: Outcome::Paused,
                    ..
                },
            ),
        ) = answer
        else {
            break;
        };
        answer = step(rt, session)?;
        if let Ok(Answer::Continued(ran)) = answer {
            steps = steps.saturating_add(ran.steps);
            answer = Ok(Answer::Continued(Ran { steps, ..ran }));
        }
    }
    let reply = Reply(answer);
    println!(rt; "trace: {reply}")?;
    Ok(())
}
