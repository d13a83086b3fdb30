// Why something was turned down or a run came to a stop, by name; each has a layer and a number.
ghost use Rattle.std.specs.Prelude.{◌≡◌};
ghost use Rattle.language.specs.declared.faults.Halt.TheVariants.{Stopped, Troubled};
ghost use Rattle.language.specs.declared.faults.Cause.TheVariants as causes;
ghost use Rattle.language.specs.Numbers.{layer_of, number_of};

use std::error::Error;
use std::fmt;

// An instruction that no admitted rule set ever meets.
#[derive(Clone, Copy, PartialEq, Eq, Debug)]
pub enum Trouble {
    Unlawful = 51,
    Unset = 52,
    WrongMark = 53,
    NoFrame = 54,
}

// A cause that ends a run: the rule set, the declaration or the memory at hand asks for it.
#[derive(Clone, Copy, PartialEq, Eq, Debug)]
pub enum Stop {
    DivisorZero = 41,
    OutOfRange = 42,
    NoRoom = 43,
    NoSuchNumber = 44,
    NothingThere = 45,
    PostingRefused = 46,
}

// Why an instruction was not carried out.
#[derive(Clone, Copy, PartialEq, Eq, Debug)]
pub enum Halt {
    Troubled(Trouble),
    Stopped(Stop),
}

impl From<Stop> for Halt {
    ghost from_gives = { λ s h. h ≡ Stopped s };

    fn from(value: Stop) -> Halt {
        Halt::Stopped(value)
    }
}

impl From<Trouble> for Halt {
    ghost from_gives = { λ t h. h ≡ Troubled t };

    fn from(value: Trouble) -> Halt {
        Halt::Troubled(value)
    }
}

// Why the walk over a table refuses it.
#[derive(Clone, Copy, PartialEq, Eq, Debug)]
pub enum WalkRefusal {
    DeclaredTwice = 12,
    Undeclared = 13,
    WrongKind = 14,
    WrongType = 15,
    WrongCount = 16,
    NotSet = 17,
    TooManyNames = 18,
    TooDeep = 19,
}

// Why a run cannot begin.
#[derive(Clone, Copy, PartialEq, Eq, Debug)]
pub enum BeginRefusal {
    Blank = 31,
    OtherLengths = 36,
    CellCount = 32,
}

// Why a run cannot be continued.
#[derive(Clone, Copy, PartialEq, Eq, Debug)]
pub enum ContinueRefusal {
    NotBegun = 34,
    OtherLengths = 36,
    Allowance = 35,
}

// Why a host cannot be made, or a row of a worksheet cannot be set.
#[derive(Clone, Copy, PartialEq, Eq, Debug)]
pub enum HostRefusal {
    OtherRecord = 61,
    Limits = 62,
    Row = 63,
}

// Everything that can be turned down, by the layer that finds it.
#[derive(Clone, Copy, PartialEq, Eq, Debug)]
pub enum Cause {
    Table,
    Walk(WalkRefusal),
    Buffer,
    Bring,
    Begin(BeginRefusal),
    Continue(ContinueRefusal),
    Step(Halt),
    Host(HostRefusal),
}

// The layers, in the order in which a rule set meets them.
#[derive(Clone, Copy, PartialEq, Eq, Debug)]
pub enum Layer {
    Table,
    Walk,
    Buffer,
    Bring,
    Begin,
    Continue,
    Step,
    Host,
}

// A fault reaches the caller whole: its cause, which has a layer and a number, and its place.
#[derive(Clone, Copy, PartialEq, Eq, Debug)]
pub struct Fault {
    pub cause: Cause,
    pub place: u32,
}

// A fault of a call, and not of a node or a code, names no place.
// Stays written out, one `From` for each refusal: a generic one would overlap with the one from a cause, and no macro of the repository may write an impl.
impl From<Cause> for Fault {
    ghost from_gives = { λ c f. f ≡ record { cause = c; place = 0 } };

    fn from(value: Cause) -> Fault {
        value.at(0)
    }
}

impl From<BeginRefusal> for Fault {
    ghost from_gives = { λ r f. f ≡ record { cause = causes.Begin r; place = 0 } };

    fn from(value: BeginRefusal) -> Fault {
        Cause::Begin(value).at(0)
    }
}

impl From<ContinueRefusal> for Fault {
    ghost from_gives = { λ r f. f ≡ record { cause = causes.Continue r; place = 0 } };

    fn from(value: ContinueRefusal) -> Fault {
        Cause::Continue(value).at(0)
    }
}

impl From<HostRefusal> for Fault {
    ghost from_gives = { λ r f. f ≡ record { cause = causes.Host r; place = 0 } };

    fn from(value: HostRefusal) -> Fault {
        Cause::Host(value).at(0)
    }
}

impl WalkRefusal {
    // Refused at the place of a node.
    pub fn at(self, place: u32) -> Fault
        ensures { result ≡ record { cause = causes.Walk self; place = place } }
    {
        Cause::Walk(self).at(place)
    }
}

impl Cause {
    // The fault of this cause at a place.
    pub fn at(self, place: u32) -> Fault
        ensures { result ≡ record { cause = self; place = place } }
    {
        Fault { cause: self, place }
    }

    pub fn layer(self) -> Layer
        ensures { result ≡ layer_of self }
    {
        match self {
            Cause::Table => Layer::Table,
            Cause::Walk(_) => Layer::Walk,
            Cause::Buffer => Layer::Buffer,
            Cause::Bring => Layer::Bring,
            Cause::Begin(_) => Layer::Begin,
            Cause::Continue(_) => Layer::Continue,
            Cause::Step(_) => Layer::Step,
            Cause::Host(_) => Layer::Host,
        }
    }

    // Stays a number to look at: it is what programs show and documents list; nothing is decided by it.
    pub fn number(self) -> u8
        ensures { result ≡ number_of self }
    {
        match self {
            Cause::Table => 11,
            Cause::Walk(refusal) => refusal as u8,
            Cause::Buffer => 20,
            Cause::Bring => 33,
            Cause::Begin(refusal) => refusal as u8,
            Cause::Continue(refusal) => refusal as u8,
            Cause::Step(Halt::Troubled(trouble)) => trouble as u8,
            Cause::Step(Halt::Stopped(stop)) => stop as u8,
            Cause::Host(refusal) => refusal as u8,
        }
    }
}

impl fmt::Display for Layer {
    fn fmt<W: fmt::Write>(&self, f: &mut fmt::Formatter<W>) -> fmt::Result {
        f.write_str(match self {
            Layer::Table => "table",
            Layer::Walk => "walk",
            Layer::Buffer => "buffer",
            Layer::Bring => "bring",
            Layer::Begin => "begin",
            Layer::Continue => "continue",
            Layer::Step => "step",
            Layer::Host => "host",
        })
    }
}

// A fault as programs show it: its layer, its number and its place.
impl fmt::Display for Fault {
    fn fmt<W: fmt::Write>(&self, f: &mut fmt::Formatter<W>) -> fmt::Result {
        write!(
            f,
            "{} {} at {}",
            self.cause.layer(),
            self.cause.number(),
            self.place
        )
    }
}

impl Error for Fault {}
