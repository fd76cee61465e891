//! The branches on the working registers.
ghost use Rattle.std.specs.Prelude.{◌≡◌, ℕ, ◌%◌, ◌<◌};
ghost use Rattle.cpu.specs.Branches.{linked, aimed, branch, count_after, taken, resolved, branch_conditional, register_target, branch_register};
ghost use Rattle.cpu.specs.Deeds.{Finishes};
ghost use Rattle.cpu.specs.Registers.{after};

use crate::deed::Deed;
use crate::registers::Working;
use isa::instruction::{Branch, BranchConditional, BranchRegister, BranchTarget};
use word::condition;
use word::sign::extend;

// The options are the field's bits as the word holds them, read by their weights. A test is built by its fields' names:
// both are numbers, and the arguments of a constructor could stand the wrong way round.
/// What a conditional branch asks: its options BO, and BI, the bit of the condition register that they test.
#[derive(Clone, Copy)]
struct Test {
    options: u32,
    bit: u32,
}

impl Working {
    /// The next instruction's address.
    pub(crate) fn after(&self) -> u32
        ensures { result ≡ after self.now }
    {
        self.pc.wrapping_add(4)
    }

    /// The next instruction's address into LR, where LK asks for it.
    fn link(&mut self, lk: bool)
        ensures { self.new ≡ linked lk self.old }
    {
        if lk {
            self.lr = self.after();
        }
    }

    /// The target of a displacement, or with AA the displacement itself.
    fn aim(&self, absolute: bool, displacement: u32) -> u32
        ensures { result ≡ aimed absolute displacement self.now }
    {
        if absolute {
            displacement
        } else {
            self.pc.wrapping_add(displacement)
        }
    }

    /// b.
    pub(crate) fn branch(&mut self, i: Branch) -> Deed
        ensures { Finishes result self.new (branch i self.old) }
    {
        let target = self.aim(i.absolute, extend::<26>(i.displacement.wrapping_mul(4)));
        self.link(i.link);
        self.pc = target;
        Deed::Finished
    }

    /// CTR, less one where BO asks for it.
    fn count_after(&self, options: u32) -> u32
        ensures { result ≡ count_after options self.now }
    {
        if options / 4 % 2 == 1 {
            self.ctr
        } else {
            self.ctr.wrapping_sub(1)
        }
    }

    /// Whether a branch is taken.
    fn takes(&self, test: Test) -> bool
        ensures { result ≡ taken test.options test.bit self.now }
    {
        let Test { options, bit } = test;
        let count = options / 4 % 2 == 1
            || (self.count_after(options) == 0) == (options / 2 % 2 == 1);
        let condition = options / 16 % 2 == 1
            || condition::bit(self.cr, bit) == (options / 8 % 2 == 1);
        count && condition
    }

    /// A conditional branch to a target.
    fn resolve(&mut self, test: Test, lk: bool, target: u32) -> Deed
        ensures { Finishes result self.new (resolved test.options test.bit lk target self.old) }
    {
        let counter = if self.takes(test) {
            target
        } else {
            self.after()
        };
        self.link(lk);
        self.ctr = self.count_after(test.options);
        self.pc = counter;
        Deed::Finished
    }

    /// bc.
    pub(crate) fn branch_conditional(&mut self, i: BranchConditional) -> Deed
        ensures { Finishes result self.new (branch_conditional i self.old) }
    {
        let target = self.aim(i.absolute, extend::<16>(i.displacement.wrapping_mul(4)));
        let test = Test {
            options: i.options,
            bit: i.bit,
        };
        self.resolve(test, i.link, target)
    }

    /// The target that a register holds.
    fn register_target(&self, target: BranchTarget) -> u32
        ensures { result ≡ register_target target self.now }
    {
        match target {
            BranchTarget::Link => self.lr / 4 * 4,
            BranchTarget::Count => self.ctr / 4 * 4,
        }
    }

    /// bclr, bcctr.
    pub(crate) fn branch_register(&mut self, i: BranchRegister) -> Deed
        ensures { Finishes result self.new (branch_register i self.old) }
    {
        let target = self.register_target(i.target);
        let test = Test {
            options: i.options,
            bit: i.bit,
        };
        self.resolve(test, i.link, target)
    }
}
