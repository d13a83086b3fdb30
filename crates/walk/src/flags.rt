// Which variables are set at a point of the walk.
ghost use Rattle.std.specs.Prelude.{◌≡◌, length};

// A flag for each entry of the name list, by its index.
#[derive(Clone, Copy, PartialEq, Eq, Debug)]
pub struct Flags {
    pub(crate) set: [bool; 256],
    ghost whole: { length set ≡ 256 },
}
