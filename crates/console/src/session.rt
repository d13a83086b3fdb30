// A work area and a host, and what the commands make of them.
use crate::area::Area;
use crate::served::Served;
use crate::texts::{Reply, Spaced};
use calls::call::{Answer, Call};
use engine::record::Stage;
use host::one_line::OneLine;
use language::faults::Fault;
use machine::cells::Cell;
use record_host::check::check;
use record_host::record::RecordHost;
use script::command::{Command, Line};
use script::problem::Problem;
use std::alloc::{AllocError, Global};
use std::fmt;
use worksheet::sheet::Worksheet;

#[derive(Drop)]
pub struct Session {
    heap: Global,
    area: Area,
    // the host that runs ask, if one was made
    host: Option<Served>,
}

impl Session {
    // An area of no words and no cells, and no host.
    pub fn new(heap: Global) -> Session {
        Session {
            heap,
            area: Area::new(heap),
            host: None,
        }
    }

    // Plays a call. Without a host only calls are played that ask none.
    pub fn play(&mut self, call: Call) -> Result<Answer, Fault> {
        match &mut self.host {
            Some(Served::Declared(host)) => self.area.play(host, call),
            Some(Served::Filled(sheet)) => self.area.play(sheet, call),
            None => {
                let mut host = OneLine::default();
                self.area.play(&mut host, call)
            }
        }
    }

    // The area's record and memory, as a trace shows them.
    pub fn stage(&self) -> Stage {
        self.area.record.stage()
    }

    pub fn buffer(&self) -> &[u32] {
        self.area.buffer.as_slice()
    }

    pub fn cells(&self) -> &[Cell] {
        self.area.cells.as_slice()
    }

    pub fn has_host(&self) -> bool {
        self.host.is_some()
    }

    // The answer to a command that may be turned down.
    fn reply<T: fmt::Display + Drop>(
        &self,
        name: &str,
        answer: Result<T, Fault>,
    ) -> Result<String, Problem> {
        let reply = Reply(answer);
        Ok(format!(in self.heap; "{name}: {reply}")?)
    }

    // A new area, filled with a number.
    fn make_area(&mut self, words: u32, cells: u32, fill: i32) -> Result<String, Problem> {
        self.area = Area::filled(self.heap, words, cells, fill)?;
        Ok(format!(in self.heap; "area: {words} words, {cells} cells")?)
    }

    fn make_record(
        &mut self,
        accounts: u32,
        lines: u32,
        words: &[u32],
    ) -> Result<&'static str, Fault> {
        let checked = check(words, accounts, lines)?;
        self.host = Some(Served::Declared(RecordHost::new(checked)));
        Ok("made")
    }

    fn make_worksheet(&mut self, accounts: u32, lines: u32) -> Result<&'static str, Fault> {
        self.host = Some(Served::Filled(Worksheet::new(accounts, lines)?));
        Ok("made")
    }

    // The worksheet, if the host is one.
    fn sheet(&mut self) -> Result<&mut Worksheet, Problem> {
        let Some(Served::Filled(sheet)) = &mut self.host else {
            return Err(Problem::NoWorksheet);
        };
        Ok(sheet)
    }

    // The words of the area's image, if it has one.
    fn image(&self) -> Option<&[u32]> {
        let loaded = match self.stage() {
            Stage::Blank => return None,
            Stage::Ready(loaded) | Stage::Running(loaded, _) | Stage::Ended(loaded, _) => loaded,
        };
        self.buffer()
            .get(..2 + 2 * loaded.image.header.count as usize)
    }

    fn image_text(&self) -> Result<String, AllocError> {
        match self.image() {
            Some(words) => {
                let words = Spaced(words);
                format!(in self.heap; "image:{words}")
            }
            None => format!(in self.heap; "image: none"),
        }
    }

    fn totals_text(&self) -> Result<String, Problem> {
        let host = self.host.as_ref().ok_or(Problem::NoHost)?;
        let lines = host.lines();
        let mut text = format!(in self.heap; "totals: lines {lines}")?;
        for account in 0..=u8::MAX {
            let Some(total) = host.total(account) else {
                break;
            };
            write!(text, ", {account}={total}")?;
        }
        Ok(text)
    }

    fn played_text(&mut self, name: &str, call: Call) -> Result<String, Problem> {
        let answer = self.play(call);
        self.reply(name, answer)
    }

    // Carries out a line that writes one answer.
    pub fn answer(&mut self, line: &Line) -> Result<String, Problem> {
        match line.command {
            Command::Area { words, cells, fill } => self.make_area(words, cells, fill),
            Command::Record { accounts, lines } => {
                let made = self.make_record(accounts, lines, line.words.as_slice());
                self.reply("record", made)
            }
            Command::Worksheet { accounts, lines } => {
                let made = self.make_worksheet(accounts, lines);
                self.reply("worksheet", made)
            }
            Command::Amount { field, value } => {
                let set = self.sheet()?.set_amount(field, value);
                self.reply("amount", set.map(|()| "set"))
            }
            Command::Flag { field, flag } => {
                let set = self.sheet()?.set_flag(field, flag);
                self.reply("flag", set.map(|()| "set"))
            }
            Command::Bring => self.played_text("bring", Call::Bring(line.words.as_slice())),
            Command::Begin => self.played_text("begin", Call::Begin),
            Command::Continue { allowance } | Command::Trace { steps: allowance } => {
                if !self.has_host() {
                    return Err(Problem::NoHost);
                }
                self.played_text("continue", Call::Continue(allowance))
            }
            Command::Clear => self.played_text("clear", Call::Clear),
            Command::Image => Ok(self.image_text()?),
            Command::Totals => self.totals_text(),
            Command::State => {
                let stage = self.stage();
                Ok(format!(in self.heap; "state: {stage}")?)
            }
        }
    }
}
