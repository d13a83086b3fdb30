// What a record shows.
ghost use Rattle.std.specs.Prelude.{◌≡◌};

use crate::record::{Record, Stage};

impl Record {
    // How the area stands.
    pub fn stage(&self) -> Stage
        ensures { result ≡ self.now.stage }
    {
        self.stage
    }
}
