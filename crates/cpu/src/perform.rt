//! The register part of every instruction.
ghost use Rattle.std.specs.Prelude.{◌≡◌, ℕ, ◌%◌, ◌<◌};
ghost use Rattle.cpu.specs.Kept.{Kept};
ghost use Rattle.cpu.specs.Effects.{seen_of, effected, effect, effect_of, tlb_search, store_conditional, trapping, bare, move, move_special, tlb_word, Waits, Leaves};

use crate::deed::{Deed, Privileged};
use crate::registers::{Shown, Working};
use crate::special::{NoSuchRegister, privileged_number};
use isa::instruction::{
    BareOp, Instruction, Move, MoveOp, MoveSpecial, Offset, SpecialOp, StoreConditional, TlbSearch,
    TlbWord, TlbWordOp,
};
use word::condition;
use word::sign::extend;

impl Working {
    /// A trap, or the next instruction.
    fn trap_if(&mut self, traps: bool) -> Deed
        ensures { Leaves result self.old self.new (trapping traps self.old) }
    {
        if traps { Deed::Trap } else { self.proceed() }
    }

    /// stwcx.: a store where the reservation is set, and otherwise only its translation.
    fn store_conditional(&self, i: StoreConditional) -> Deed
        ensures { Leaves result self.now self.now (store_conditional i self.now) }
    {
        if self.reserved {
            Deed::Store(self.storing_conditional(i))
        } else {
            Deed::Probe {
                address: self.address(i.ra, Offset::Index(i.rb)),
            }
        }
    }

    /// rfi, isync, msync, tlbsync.
    fn bare(&mut self, op: BareOp) -> Deed
        ensures { Leaves result self.old self.new (bare op self.old) }
    {
        match op {
            BareOp::Rfi => Deed::Privileged(Privileged::Return),
            BareOp::Isync | BareOp::Msync => self.proceed(),
            BareOp::Tlbsync => Deed::Privileged(Privileged::Synchronize),
        }
    }

    /// mfcr, mfmsr, mtmsr, wrtee.
    fn move_register(&mut self, i: Move) -> Deed
        ensures { Leaves result self.old self.new (move i.op i.register self.old) }
    {
        let value = self.word(i.register);
        match i.op {
            MoveOp::Mfcr => self.move_from_condition(i.register),
            MoveOp::Mfmsr => Deed::Privileged(Privileged::ReadMsr { rt: i.register }),
            MoveOp::Mtmsr => Deed::Privileged(Privileged::WriteMsr { value }),
            MoveOp::Wrtee => Deed::Privileged(Privileged::WriteExternalEnable {
                enable: value / 0x8000 % 2 == 1,
            }),
        }
    }

    /// mfspr.
    fn move_from_special(&mut self, shown: &Shown, rt: u32, number: u32) -> Deed
        ensures { Leaves result self.old self.new (move_special SpecialOp.Mfspr rt number self.old shown.now) }
    {
        if privileged_number(number) {
            return Deed::Privileged(Privileged::ReadSpecial { rt, number });
        }
        match self.special(shown, number) {
            Some(value) => {
                self.set_word(rt, value);
                self.proceed()
            }
            None => Deed::Illegal,
        }
    }

    /// mtspr.
    fn move_to_special(&mut self, shown: &Shown, rs: u32, number: u32) -> Deed
        ensures { Leaves result self.old self.new (move_special SpecialOp.Mtspr rs number self.old shown.now) }
    {
        let value = self.word(rs);
        if privileged_number(number) {
            return Deed::Privileged(Privileged::WriteSpecial { number, value });
        }
        match self.set_special(number, value) {
            Ok(()) => self.proceed(),
            Err(NoSuchRegister) => Deed::Illegal,
        }
    }

    /// mfspr, mtspr.
    fn move_special(&mut self, shown: &Shown, i: MoveSpecial) -> Deed
        ensures { Leaves result self.old self.new (move_special i.op i.register i.number self.old shown.now) }
    {
        match i.op {
            SpecialOp::Mfspr => self.move_from_special(shown, i.register, i.number),
            SpecialOp::Mtspr => self.move_to_special(shown, i.register, i.number),
        }
    }

    /// tlbre, tlbwe.
    fn tlb_word(&self, i: TlbWord) -> Privileged
        ensures { result ≡ tlb_word i.op i.register i.ra i.word self.now }
    {
        let entry = self.word(i.ra) % 64;
        match i.op {
            TlbWordOp::Tlbre => Privileged::ReadEntry {
                rt: i.register,
                entry,
                word: i.word,
            },
            TlbWordOp::Tlbwe => Privileged::WriteEntry {
                entry,
                word: i.word,
                value: self.word(i.register),
            },
        }
    }

    /// tlbsx, tlbsx.
    fn tlb_search(&self, i: TlbSearch) -> Privileged
        ensures { result ≡ tlb_search i self.now }
    {
        Privileged::SearchEntries {
            rt: i.rt,
            address: self.address(i.ra, Offset::Index(i.rb)),
            rc: i.rc,
        }
    }

    /// The register part of an instruction, one arm for each format.
    fn perform_format(&mut self, shown: &Shown, instruction: Instruction) -> Deed
        ensures { Leaves result self.old self.new (effected instruction self.old shown.now) }
    {
        match instruction {
            Instruction::Immediate(i) => self.immediate(i),
            Instruction::LogicalImmediate(i) => self.logical_immediate(i),
            Instruction::CompareImmediate(i) => self.compare_immediate(i),
            Instruction::TrapImmediate(i) => {
                self.trap_if(condition::traps(
                    i.conditions,
                    self.word(i.ra),
                    extend::<16>(i.immediate),
                ))
            }
            Instruction::Load(i) => Deed::Load(self.loading(i)),
            Instruction::Store(i) => Deed::Store(self.storing(i)),
            Instruction::Branch(i) => self.branch(i),
            Instruction::BranchConditional(i) => self.branch_conditional(i),
            Instruction::BranchRegister(i) => self.branch_register(i),
            Instruction::SystemCall => Deed::Call,
            Instruction::Rotate(i) => self.rotate(i),
            Instruction::ConditionLogical(i) => self.condition_logical(i),
            Instruction::MoveConditionField(i) => self.move_condition_field(i),
            Instruction::Bare { op } => self.bare(op),
            Instruction::Arithmetic(i) => self.arithmetic(i),
            Instruction::ArithmeticUnary(i) => self.arithmetic_unary(i),
            Instruction::MultiplyHigh(i) => self.multiply_high(i),
            Instruction::Logical(i) => self.logical(i),
            Instruction::LogicalUnary(i) => self.logical_unary(i),
            Instruction::ShiftRightImmediate(i) => self.shift_right_immediate(i),
            Instruction::Select(i) => self.select(i),
            Instruction::Compare(i) => self.compare(i),
            Instruction::Trap(i) => self.trap_if(condition::traps(
                i.conditions,
                self.word(i.ra),
                self.word(i.rb),
            )),
            Instruction::LoadIndexed(i) => Deed::Load(self.loading_indexed(i)),
            Instruction::StoreIndexed(i) => Deed::Store(self.storing_indexed(i)),
            Instruction::StoreConditional(i) => self.store_conditional(i),
            Instruction::MoveFromXer { field } => self.move_from_xer(field),
            Instruction::Move(i) => self.move_register(i),
            Instruction::WriteExternalEnable { enable } => Deed::Privileged(
                Privileged::WriteExternalEnable { enable },
            ),
            Instruction::MoveToConditionFields(i) => self.move_to_condition_fields(i),
            Instruction::MoveSpecial(i) => self.move_special(shown, i),
            Instruction::TlbWord(i) => Deed::Privileged(self.tlb_word(i)),
            Instruction::TlbSearch(i) => Deed::Privileged(self.tlb_search(i)),
            Instruction::Barrier { ordering: _ } => self.proceed(),
        }
    }

    // `Kept` stands in the clause and not in the type: anyone may build `Working`, with any counter.
    /// The register part of an instruction: it is done, or what is left to do is told and no register is altered yet.
    #[tactic(auto, using(crate::proofs::Kept::kept, crate::proofs::Kept::deed_kept), unfolding(crate::specs::Effects::effect))]
    pub fn perform(&mut self, shown: &Shown, instruction: Instruction) -> Deed
        ensures same { effect_of result self.new ≡ effect instruction (seen_of self.old shown.now) }
        ensures waits { Waits result self.old self.new }
        ensures kept { Kept self.old → Kept self.new }
    {
        self.perform_format(shown, instruction)
    }
}
