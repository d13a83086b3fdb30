// Which variables are set: one more, those of two branches, and the test at a read.
ghost use Rattle.std.specs.Prelude.{◌≡◌, ◌<◌};
ghost use Rattle.walk.specs.Sets.{none_set, marked, both, must_be_set};

use crate::flags::Flags;
use language::faults::{Fault, WalkRefusal};

impl Flags {
    // None is set.
    pub fn none() -> Flags
        ensures { result.set ≡ none_set }
    {
        Flags { set: [false; 256] }
    }

    // One more is set, or one is not.
    pub fn mark(&self, k: usize, flag: bool) -> Flags
        requires { k < 256 }
        ensures { result.set ≡ marked self.now.set k flag }
    {
        let mut set = self.set;
        set[k] = flag;
        Flags { set }
    }

    // Those that both branches leave set.
    pub(crate) fn both(&self, other: &Flags) -> Flags
        ensures { result.set ≡ both self.now.set other.now.set }
    {
        let mut set = [false; 256];
        // Stays by place: `array::from_fn` forgets what its closure captured, and a `zip` what the array holds.
        for (k, flag) in set.iter_mut().enumerate() {
            *flag = self.set[k] && other.set[k];
        }
        Flags { set }
    }

    // A variable that is read must be set.
    pub(crate) fn must_be_set(&self, place: u32, k: usize) -> Result<(), Fault>
        requires { k < 256 }
        ensures { result ≡ must_be_set place self.now.set k }
    {
        if self.set[k] {
            Ok(())
        } else {
            Err(WalkRefusal::NotSet.at(place))
        }
    }
}
