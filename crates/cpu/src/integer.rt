//! The integer instructions on the working registers.
ghost use Rattle.std.specs.Prelude.{◌≡◌, ℕ, ◌<◌};
ghost use Rattle.cpu.specs.Registers.{gpr_of, base_of, with_gpr, next};
ghost use Rattle.cpu.specs.Deeds.{Finishes};
ghost use Rattle.cpu.specs.Integer.{xer_after, with_cr0, with_answer, completed, immediate, immediate_operand, immediate_records, logical_immediate, logical_immediate_records, arithmetic, arithmetic_unary, multiply_high, logical, logical_unary, shift_right_immediate, rotate, rotate_amount, select, compared, with_comparison, compare, comparand, compare_immediate};

use crate::deed::Deed;
use crate::operation::{
    arithmetic_outcome, arithmetic_unary_outcome, immediate_outcome, logical_immediate_value,
    logical_outcome, logical_unary_value, multiply_high_value, plain, rotate_value,
};
use crate::registers::{Working, Xer};
use isa::instruction::{
    Arithmetic, ArithmeticUnary, Compare, CompareImmediate, Comparison, Immediate, ImmediateOp,
    Logical, LogicalImmediate, LogicalImmediateOp, LogicalUnary, MultiplyHigh, Register, Rotate,
    RotateOp, Select, ShiftRightImmediate,
};
use word::arithmetic::Outcome;
use word::sign::extend;
use word::{condition, shift};

impl Xer {
    /// XER after an outcome: the carry always, the overflow bits where OE asks for them.
    fn after(self, oe: bool, outcome: Outcome) -> Xer
        ensures { result ≡ xer_after oe outcome self }
    {
        Xer {
            so: self.so || (oe && outcome.overflow),
            ov: if oe { outcome.overflow } else { self.ov },
            ca: outcome.carry,
            count: self.count,
        }
    }
}

impl Working {
    /// The word of a register, named by the low five bits of a number.
    pub fn word(&self, number: Register) -> u32
        ensures { result ≡ gpr_of self.now number }
    {
        self.gpr[(number % 32) as usize]
    }

    /// A word to a register, named by the low five bits of a number.
    pub fn set_word(&mut self, number: Register, value: u32)
        ensures { self.new ≡ with_gpr self.old number value }
    {
        let index = (number % 32) as usize;
        self.gpr[index] = value;
    }

    /// A base register's word: zero for register 0.
    pub(crate) fn base(&self, number: Register) -> u32
        ensures { result ≡ base_of self.now number }
    {
        if number == 0 { 0 } else { self.word(number) }
    }

    /// To the next instruction.
    pub fn advance(&mut self)
        ensures { self.new ≡ next self.old }
    {
        self.pc = self.after();
    }

    // `Finishes` is in the contract of every such instruction, with the registers that it leaves: a shorter form would hide
    // which.
    /// To the next instruction, with nothing left to do.
    pub(crate) fn proceed(&mut self) -> Deed
        ensures { Finishes result self.new (next self.old) }
    {
        self.advance();
        Deed::Finished
    }

    /// Condition field 0 from a result.
    fn record(&mut self, value: u32)
        ensures { self.new ≡ with_cr0 self.old value }
    {
        let field = condition::compare_signed(value, 0) + u32::from(self.xer.so);
        self.cr = condition::with_field(self.cr, 0, field);
    }

    /// Condition field 0 from an answer: 0, 0, whether it is yes, and SO.
    pub fn record_answer(&mut self, answer: bool)
        ensures { self.new ≡ with_answer self.old answer }
    {
        let field = u32::from(answer) * 2 + u32::from(self.xer.so);
        self.cr = condition::with_field(self.cr, 0, field);
    }

    /// An outcome to its register, to XER and, with Rc, to condition field 0.
    #[tactic(auto, unfolding(crate::specs::Integer::completed))]
    fn complete(&mut self, target: Register, outcome: Outcome, oe: bool, rc: bool)
        ensures { self.new ≡ completed target outcome oe rc self.old }
    {
        self.xer = self.xer.after(oe, outcome);
        self.set_word(target, outcome.value);
        if rc {
            self.record(outcome.value);
        }
    }

    /// The operand of arithmetic with an immediate.
    fn immediate_operand(&self, op: ImmediateOp, ra: Register) -> u32
        ensures { result ≡ immediate_operand op self.now ra }
    {
        match op {
            ImmediateOp::Addi | ImmediateOp::Addis => self.base(ra),
            ImmediateOp::Addic
            | ImmediateOp::AddicRecord
            | ImmediateOp::Subfic
            | ImmediateOp::Mulli => self.word(ra),
        }
    }

    /// addi, addis, addic, addic., subfic, mulli.
    pub(crate) fn immediate(&mut self, i: Immediate) -> Deed
        ensures { Finishes result self.new (next (immediate i self.old)) }
    {
        let a = self.immediate_operand(i.op, i.ra);
        let outcome = immediate_outcome(i.op, a, i.immediate, self.xer.ca);
        self.complete(i.rt, outcome, false, immediate_records(i.op));
        self.proceed()
    }

    /// andi., andis., ori, oris, xori, xoris.
    pub(crate) fn logical_immediate(&mut self, i: LogicalImmediate) -> Deed
        ensures { Finishes result self.new (next (logical_immediate i self.old)) }
    {
        let value = logical_immediate_value(i.op, self.word(i.rs), i.immediate);
        self.complete(
            i.ra,
            plain(value, self.xer.ca),
            false,
            logical_immediate_records(i.op),
        );
        self.proceed()
    }

    /// add, addc, adde, subf, subfc, subfe, mullw, divw, divwu.
    pub(crate) fn arithmetic(&mut self, i: Arithmetic) -> Deed
        ensures { Finishes result self.new (next (arithmetic i self.old)) }
    {
        let outcome = arithmetic_outcome(i.op, self.word(i.ra), self.word(i.rb), self.xer.ca);
        self.complete(i.rt, outcome, i.oe, i.rc);
        self.proceed()
    }

    /// addme, addze, subfme, subfze, neg.
    pub(crate) fn arithmetic_unary(&mut self, i: ArithmeticUnary) -> Deed
        ensures { Finishes result self.new (next (arithmetic_unary i self.old)) }
    {
        let outcome = arithmetic_unary_outcome(i.op, self.word(i.ra), self.xer.ca);
        self.complete(i.rt, outcome, i.oe, i.rc);
        self.proceed()
    }

    /// mulhw, mulhwu.
    pub(crate) fn multiply_high(&mut self, i: MultiplyHigh) -> Deed
        ensures { Finishes result self.new (next (multiply_high i self.old)) }
    {
        let value = multiply_high_value(i.op, self.word(i.ra), self.word(i.rb));
        self.complete(i.rt, plain(value, self.xer.ca), false, i.rc);
        self.proceed()
    }

    /// and, andc, nand, or, orc, nor, xor, eqv, slw, srw, sraw.
    pub(crate) fn logical(&mut self, i: Logical) -> Deed
        ensures { Finishes result self.new (next (logical i self.old)) }
    {
        let outcome = logical_outcome(i.op, self.word(i.rs), self.word(i.rb), self.xer.ca);
        self.complete(i.ra, outcome, false, i.rc);
        self.proceed()
    }

    /// extsb, extsh, cntlzw.
    pub(crate) fn logical_unary(&mut self, i: LogicalUnary) -> Deed
        ensures { Finishes result self.new (next (logical_unary i self.old)) }
    {
        let value = logical_unary_value(i.op, self.word(i.rs));
        self.complete(i.ra, plain(value, self.xer.ca), false, i.rc);
        self.proceed()
    }

    /// srawi.
    pub(crate) fn shift_right_immediate(&mut self, i: ShiftRightImmediate) -> Deed
        ensures { Finishes result self.new (next (shift_right_immediate i self.old)) }
    {
        let outcome = shift::shift_algebraic(self.word(i.rs), i.amount);
        self.complete(i.ra, outcome, false, i.rc);
        self.proceed()
    }

    /// By how much a rotation rotates.
    fn rotate_amount(&self, op: RotateOp, amount: u32) -> u32
        ensures { result ≡ rotate_amount op self.now amount }
    {
        match op {
            RotateOp::Rlwimi | RotateOp::Rlwinm => amount,
            RotateOp::Rlwnm => self.word(amount),
        }
    }

    /// rlwimi, rlwinm, rlwnm.
    pub(crate) fn rotate(&mut self, i: Rotate) -> Deed
        ensures { Finishes result self.new (next (rotate i self.old)) }
    {
        let rotated = shift::rotate(self.word(i.rs), self.rotate_amount(i.op, i.amount));
        let mask = shift::mask_between(i.begin, i.end);
        let value = rotate_value(i.op, self.word(i.ra), rotated, mask);
        self.complete(i.ra, plain(value, self.xer.ca), false, i.rc);
        self.proceed()
    }

    /// isel.
    pub(crate) fn select(&mut self, i: Select) -> Deed
        ensures { Finishes result self.new (next (select i self.old)) }
    {
        let value = if condition::bit(self.cr, i.bit) {
            self.base(i.ra)
        } else {
            self.word(i.rb)
        };
        self.set_word(i.rt, value);
        self.proceed()
    }

    /// A comparison's result into a condition field.
    fn compare_into(&mut self, comparison: Comparison, field: u32, a: u32, b: u32)
        ensures { self.new ≡ with_comparison self.old comparison field a b }
    {
        let order = match comparison {
            Comparison::Signed => condition::compare_signed(a, b),
            Comparison::Unsigned => condition::compare(a, b),
        };
        self.cr = condition::with_field(self.cr, field, order + u32::from(self.xer.so));
    }

    /// cmp, cmpl.
    pub(crate) fn compare(&mut self, i: Compare) -> Deed
        ensures { Finishes result self.new (next (compare i self.old)) }
    {
        self.compare_into(i.comparison, i.field, self.word(i.ra), self.word(i.rb));
        self.proceed()
    }

    /// cmpi, cmpli.
    pub(crate) fn compare_immediate(&mut self, i: CompareImmediate) -> Deed
        ensures { Finishes result self.new (next (compare_immediate i self.old)) }
    {
        self.compare_into(
            i.comparison,
            i.field,
            self.word(i.ra),
            comparand(i.comparison, i.immediate),
        );
        self.proceed()
    }
}

/// Whether arithmetic with an immediate sets condition field 0.
fn immediate_records(op: ImmediateOp) -> bool
    ensures { result ≡ immediate_records op }
{
    matches!(op, ImmediateOp::AddicRecord)
}

/// Whether logic with an immediate sets condition field 0.
fn logical_immediate_records(op: LogicalImmediateOp) -> bool
    ensures { result ≡ logical_immediate_records op }
{
    matches!(
        op,
        LogicalImmediateOp::AndiRecord | LogicalImmediateOp::AndisRecord
    )
}

/// The word that an immediate is compared as.
fn comparand(comparison: Comparison, immediate: u32) -> u32
    ensures { result ≡ comparand comparison immediate }
{
    match comparison {
        Comparison::Signed => extend::<16>(immediate),
        Comparison::Unsigned => immediate % 0x1_0000,
    }
}
