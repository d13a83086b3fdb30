// The smallest host: one field, one account, one charge line. For examples and tests.
ghost use Rattle.std.specs.Prelude.{◌≡◌};
ghost use Rattle.host.specs.OneLine.{meaning};

use crate::Host;
use language::faults::Stop;

#[derive(Clone, Copy, PartialEq, Eq, Debug, Default)]
pub struct OneLine {
    pub field: u8,
    pub amount: i32,
    pub flag: bool,
    pub account: u8,
    // what was posted, once something was
    pub posted: Option<i32>,
}

impl Host for OneLine {
    ghost means = { meaning };

    // Stays beside the one for flags: the trait asks for both, and they answer with values of two types.
    fn amount(&self, field: u8) -> Result<i32, Stop> {
        if field == self.field {
            return Ok(self.amount);
        }
        Err(Stop::NothingThere)
    }

    fn flag(&self, field: u8) -> Result<bool, Stop> {
        if field == self.field {
            return Ok(self.flag);
        }
        Err(Stop::NothingThere)
    }

    fn post(&mut self, account: u8, value: i32) -> Result<(), Stop> {
        if account != self.account || self.posted.is_some() {
            return Err(Stop::PostingRefused);
        }
        self.posted = Some(value);
        Ok(())
    }
}
