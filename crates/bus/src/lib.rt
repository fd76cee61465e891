//! A bus of 36-bit real addresses, in frames of 1,024 bytes: what every bus does, and two buses as one.
#![tactic(auto)]

ghost use Rattle.std.specs.Prelude.{◌≡◌, if◌then◌else◌};
ghost use Rattle.bus.specs.Join.{joined, model_of};
ghost use Rattle.bus.specs.Laws.{joined_lawful};
ghost use Rattle.bus.specs.Model.{Model, read_of, write_of, after, well_formed};
ghost use Rattle.bus.specs.Rules.{Lawful, is_absence};
ghost use Rattle.bus.specs.declared.Direction.{Direction};

/// How many bytes a frame has. Frames begin at the multiples of it.
pub const FRAME: u64 = 1024;

// A number and no enum: each bus has codes of its own.
/// Why an access is denied: a number from 1 to 254, of which a bus has its own but for `ABSENT` and `MALFORMED`.
pub type Code = u8;

/// The frame is absent: of the well-formed accesses of a frame all get this code, or none does.
pub const ABSENT: Code = 1;

/// The access is not well-formed. This code comes before any other.
pub const MALFORMED: Code = 254;

/// Which way an access goes.
#[derive(Clone, Copy, PartialEq, Eq, Debug)]
pub enum Direction {
    Read,
    Write,
}

// No struct for an address and a width: any numbers may be asked, and the rules speak of each alone.
/// What every bus does.
///
/// A real address has 36 bits, and a frame is 1,024 bytes at a multiple of 1,024. A bus is known by its
/// model: the bytes of each frame, and a wiring that never changes. The wiring says which frames are
/// absent, with which code each access is denied, if it is, and by which rule a write alters its frame.
/// An access is an address, a width in bytes and a direction; any numbers may be asked.
///
/// - A served read answers the big-endian value of its bytes. It alters nothing.
/// - A served write alters its own frame by the frame's rule, and no other frame.
/// - A denied access answers its code, from 1 to 254. It alters nothing, and neither does a question.
/// - A width other than 1, 2 or 4, an address that is no multiple of the width, or one of 2^36 or more is
///   denied with 254, before any other code.
/// - Code 1 says that the frame is absent: of the well-formed accesses of a frame all get it, or none does.
///   A byte of an absent frame counts as zero, and the frames from 2^26 on are absent.
pub trait Bus {
    /// The model: bytes and wiring.
    ghost model: { Self → Model };

    /// What was lent to the bus and no access alters: a `Unit` where nothing was.
    ghost Loan: { Type 0 };

    /// The loan as it stands.
    ghost lent: { Self → Loan };

    /// The code with which an access is denied, or `None` where it is served.
    fn denial(&self, direction: Direction, address: u64, width: u32) -> Option<Code>
        ensures answer { result ≡ (model self.now).wiring.denial direction address width }
        ensures state { model self.exit.now ≡ model self.entry.now };

    /// The big-endian value of the `width` bytes from `address` on, or the code of the denial.
    fn read(&self, address: u64, width: u32) -> Result<u32, Code>
        ensures answer { result ≡ read_of (model self.now) address width }
        ensures state { model self.exit.now ≡ model self.entry.now };

    /// Alters the frame of `address` by its rule, or answers the code of the denial.
    fn write(&mut self, address: u64, width: u32, value: u32) -> Result<(), Code>
        ensures answer { result ≡ write_of (model self.old) address width }
        ensures state { model self.new ≡ after (model self.old) address width value }
        ensures loan { lent self.new ≡ lent self.old };

    /// The model keeps the bus rules.
    ghost lawful: { (b : Self) → Lawful (model b) };
}

/// Whether the width is 1, 2 or 4, and the address a multiple of it below 2^36.
pub fn well_formed(address: u64, width: u32) -> bool
    ensures { result ≡ well_formed address width }
{
    matches!(width, 1 | 2 | 4) && address % u64::from(width) == 0 && address < 1 << 36
}

/// Two buses as one: what the left denies with `ABSENT` goes to the right. So the left hides the right
/// frame by frame.
#[derive(PartialEq, Eq, Debug, Drop)]
pub struct Joined<L, R> {
    pub left: L,
    pub right: R,
}

impl<L: Bus, R: Bus> Joined<L, R> {
    /// Joins the two.
    pub fn new(left: L, right: R) -> Self
        ensures parts { (result.left ≡ left) × (result.right ≡ right) }
        ensures state { model_of L.Bus.model R.Bus.model result ≡ joined (L.Bus.model left) (R.Bus.model right) }
    {
        Joined { left, right }
    }
}

impl<L: Bus, R: Bus> Bus for Joined<L, R> {
    ghost model = { model_of L.Bus.model R.Bus.model };

    ghost Loan = { L.Bus.Loan × R.Bus.Loan };

    ghost lent = { λ j. (L.Bus.lent j.left, R.Bus.lent j.right) };

    fn denial(&self, direction: Direction, address: u64, width: u32) -> Option<Code> {
        match self.left.denial(direction, address, width) {
            Some(ABSENT) => self.right.denial(direction, address, width),
            answer => answer,
        }
    }

    fn read(&self, address: u64, width: u32) -> Result<u32, Code> {
        match self.left.read(address, width) {
            Err(ABSENT) => self.right.read(address, width),
            answer => answer,
        }
    }

    fn write(&mut self, address: u64, width: u32, value: u32) -> Result<(), Code> {
        match self.left.write(address, width, value) {
            Err(ABSENT) => self.right.write(address, width, value),
            answer => answer,
        }
    }

    ghost lawful = { λ j. joined_lawful (L.Bus.model j.left) (R.Bus.model j.right) (L.Bus.lawful j.left) (R.Bus.lawful j.right) };
}
