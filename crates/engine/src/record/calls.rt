// The calls on a work area: bring, begin, resume (which programs call continue) and clear.
ghost use Rattle.std.specs.Prelude.{◌≡◌, true, length, IfOk};
ghost use Rattle.engine.specs.Sound.{fits, soundly};
ghost use Rattle.engine.specs.Calls.{LeftArea, LeftResumed, allowed, area, bringing, beginning, loaded, resuming, standing, told};
ghost use Rattle.engine.specs.declared.record.Stage.TheVariants.{Blank};

use crate::record::{Loaded, Record, Stage};
use host::Host;
use image::accept::accept;
use image::fetch::Image;
use language::faults::{BeginRefusal, Cause, ContinueRefusal, Fault};
use machine::cells::Cell;
use machine::context::Context;
use machine::registers::{Machine, Outcome, Ran};

// The most steps that one call may take.
pub const MOST_STEPS: u32 = 1_000_000;

// Stays a row of parameters, `buffer`, `cells` and `host`: memory is lent anew with each call, and each call lends only what it touches.
impl Record {
    // A new record: nothing in the area.
    pub fn new() -> Record
        ensures { result.stage ≡ Blank }
    {
        Record {
            stage: Stage::Blank,
        }
    }

    // Makes the record blank.
    pub fn clear(&mut self)
        ensures { self.new.stage ≡ Blank }
    {
        self.stage = Stage::Blank;
    }

    // Takes a foreign image into the buffer; answers how many words it has.
    pub fn bring(
        &mut self,
        buffer: &mut [u32],
        cells: &[Cell],
        words: &[u32],
    ) -> Result<usize, Fault>
        ensures answer { result ≡ told (length words.now) (bringing words.now (area buffer.old cells.now self.old.stage)) }
        ensures after { LeftArea (bringing words.now (area buffer.old cells.now self.old.stage)) (area buffer.old cells.now self.old.stage) buffer.new cells.now self.new.stage }
    {
        let image = accept(words)?;
        if buffer.len() < words.len() {
            return Err(Cause::Buffer.into());
        }
        buffer[..words.len()].copy_from_slice(words);
        self.stage = Stage::Ready(Loaded::new(image, buffer, cells));
        Ok(words.len())
    }

    // Lays the program's frame, from any stage but blank.
    pub fn begin(&mut self, buffer: &[u32], cells: &mut [Cell]) -> Result<(), Fault>
        ensures answer { result ≡ told tt (beginning (area buffer.now cells.old self.old.stage)) }
        ensures after { LeftArea (beginning (area buffer.now cells.old self.old.stage)) (area buffer.now cells.old self.old.stage) buffer.now cells.new self.new.stage }
    {
        let loaded = self.stage.loaded()?;
        if !loaded.same_lengths(buffer, cells) {
            return Err(BeginRefusal::OtherLengths.into());
        }
        let machine = Machine::begin(loaded.image.others, cells)?;
        self.stage = Stage::Running(loaded, machine);
        Ok(())
    }

    // Goes on with a run, or answers once more how it ended.
    pub fn resume<H: Host>(
        &mut self,
        buffer: &[u32],
        cells: &mut [Cell],
        host: &mut H,
        allowance: u32,
    ) -> Result<Ran, Fault>
        ensures { LeftResumed (resuming allowance (H.means host.old) (area buffer.now cells.old self.old.stage)) result (area buffer.now cells.old self.old.stage) (H.means host.old) buffer.now cells.new self.new.stage (H.means host.new) }
    {
        match self.stage {
            Stage::Blank | Stage::Ready(_) => Err(ContinueRefusal::NotBegun.into()),
            Stage::Running(loaded, machine) => {
                loaded.allow(buffer, cells, allowance)?;
                let image = Image {
                    words: buffer,
                    header: loaded.image.header,
                };
                let mut context = Context { machine, cells };
                let ran = context.run(image, host, allowance);
                self.stage = loaded.standing(ran.outcome, context.machine);
                Ok(ran)
            }
            Stage::Ended(loaded, outcome) => {
                loaded.allow(buffer, cells, allowance)?;
                Ok(Ran { steps: 0, outcome })
            }
        }
    }
}

impl Loaded {
    // Whether a run may go on: the lengths, then the allowance.
    fn allow(&self, buffer: &[u32], cells: &[Cell], allowance: u32) -> Result<(), Fault>
        ensures { result ≡ allowed self.now (length buffer.now) (length cells.now) allowance }
    {
        if !self.same_lengths(buffer, cells) {
            return Err(ContinueRefusal::OtherLengths.into());
        }
        if allowance > MOST_STEPS {
            return Err(ContinueRefusal::Allowance.into());
        }
        Ok(())
    }

    // How the record stands after a run: one that has not paused has ended.
    fn standing(self, outcome: Outcome, machine: Machine) -> Stage
        ensures { result ≡ standing self outcome machine }
    {
        match outcome {
            Outcome::Paused => Stage::Running(self, machine),
            ended => Stage::Ended(self, ended),
        }
    }
}

impl Stage {
    // What begin finds: anything but a blank record.
    fn loaded(self) -> Result<Loaded, Fault>
        ensures value { result ≡ loaded self }
        ensures sound { soundly self ≡ true → IfOk result (λ l. fits l ≡ true) }
    {
        match self {
            Stage::Blank => Err(BeginRefusal::Blank.into()),
            Stage::Ready(loaded) | Stage::Running(loaded, _) | Stage::Ended(loaded, _) => Ok(
                loaded,
            ),
        }
    }
}
