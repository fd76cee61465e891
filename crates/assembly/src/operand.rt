//! The operands of instructions.
use isa::instruction::*;
use std::fmt;

/// An operand.
#[derive(Clone, Copy)]
pub enum Operand {
    /// A general register.
    Gpr(u32),
    /// A general register, or the value zero in place of register 0.
    Base(u32),
    /// A number without a sign.
    Number(u32),
    /// A number with a sign.
    Signed(i32),
    /// A displacement with a sign, and the base that it is added to.
    Memory(i32, u32),
    /// The address that a branch goes to.
    Address(u32),
    /// The distance in bytes, with a sign, from a branch to its target.
    Distance(i32),
}

use Operand::{Address, Base, Distance, Gpr, Memory, Number, Signed};

impl fmt::Display for Operand {
    fn fmt<W: fmt::Write>(&self, f: &mut fmt::Formatter<W>) -> fmt::Result {
        match *self {
            Gpr(number) => write!(f, "r{number}"),
            Base(number) => base(f, number),
            Number(number) => write!(f, "{number}"),
            Signed(number) => write!(f, "{number}"),
            Memory(displacement, number) => {
                write!(f, "{displacement}(")?;
                base(f, number)?;
                write!(f, ")")
            }
            Address(address) => write!(f, "0x{address:08X}"),
            Distance(distance) => write!(f, ".{distance:+}"),
        }
    }
}

/// Writes a register, or the value zero in place of register 0.
fn base<W: fmt::Write>(f: &mut fmt::Formatter<W>, number: u32) -> fmt::Result {
    if number == 0 {
        write!(f, "0")
    } else {
        write!(f, "r{number}")
    }
}

// `extend` of word would drop what a field of an instruction that no word stands for has above its bits, which is shown
// as it is.
/// A field with its sign; the field's sign bit counts for `half`.
fn extended(field: u32, half: u32) -> i32 {
    let low = if field < half {
        field
    } else {
        field.wrapping_sub(half).wrapping_sub(half)
    };
    low.cast_signed()
}

/// A field of 16 bits with its sign.
fn short(field: u32) -> i32 {
    extended(field, 0x8000)
}

/// A field of 16 bits as a number with a sign.
fn immediate(field: u32) -> Operand {
    Signed(short(field))
}

/// The target of a branch, from a field that counts words and whose sign bit counts for `half`.
fn target(displacement: u32, half: u32, absolute: bool) -> Operand {
    let bytes = extended(displacement, half).wrapping_mul(4);
    if absolute {
        Address(bytes.cast_unsigned())
    } else {
        Distance(bytes)
    }
}

/// Writes operands, with a space before the first and a comma before each other.
fn list<W: fmt::Write>(f: &mut fmt::Formatter<W>, operands: &[Operand]) -> fmt::Result {
    let mut mark = " ";
    for operand in operands {
        write!(f, "{mark}{operand}")?;
        mark = ",";
    }
    Ok(())
}

/// Writes the operands of a load or a store: the register, and the base with its offset.
fn access<W: fmt::Write>(
    f: &mut fmt::Formatter<W>,
    register: u32,
    base: u32,
    offset: Offset,
) -> fmt::Result {
    match offset {
        Offset::Displacement(d) => list(f, &[Gpr(register), Memory(short(d), base)]),
        Offset::Index(rb) => list(f, &indexed(register, base, rb)),
    }
}

/// The operands of an instruction that adds an index to a base.
fn indexed(register: u32, base: u32, index: u32) -> [Operand; 3] {
    [Gpr(register), Base(base), Gpr(index)]
}

/// What an immediate is added to, subtracted from or multiplied by.
fn first_term(i: Immediate) -> Operand {
    match i.op {
        ImmediateOp::Addi | ImmediateOp::Addis => Base(i.ra),
        ImmediateOp::Addic | ImmediateOp::AddicRecord | ImmediateOp::Subfic | ImmediateOp::Mulli =>
            Gpr(i.ra),
    }
}

/// The operands of a comparison with an immediate, which has a sign where the comparison has one.
fn compared(i: CompareImmediate) -> [Operand; 4] {
    let value = match i.comparison {
        Comparison::Signed => immediate(i.immediate),
        Comparison::Unsigned => Number(i.immediate),
    };
    [Number(i.field), Number(0), Gpr(i.ra), value]
}

/// The operands of a trap on an immediate.
fn trapped(i: TrapImmediate) -> [Operand; 3] {
    [Number(i.conditions), Gpr(i.ra), immediate(i.immediate)]
}

/// The operands of a conditional branch.
fn conditional(i: BranchConditional) -> [Operand; 3] {
    let target = target(i.displacement, 0x2000, i.absolute);
    [Number(i.options), Number(i.bit), target]
}

/// The operands of a rotation, whose amount is a number or a register.
fn rotated(i: Rotate) -> [Operand; 5] {
    let amount = match i.op {
        RotateOp::Rlwimi | RotateOp::Rlwinm => Number(i.amount),
        RotateOp::Rlwnm => Gpr(i.amount),
    };
    [Gpr(i.ra), Gpr(i.rs), amount, Number(i.begin), Number(i.end)]
}

/// The operands of logic on bits of the condition register.
fn combined(i: ConditionLogical) -> [Operand; 3] {
    [Number(i.target), Number(i.first), Number(i.second)]
}

/// The operands of a move of a special purpose register: what is written stands first.
fn moved(i: MoveSpecial) -> [Operand; 2] {
    match i.op {
        SpecialOp::Mfspr => [Gpr(i.register), Number(i.number)],
        SpecialOp::Mtspr => [Number(i.number), Gpr(i.register)],
    }
}

/// Writes the operands of an instruction, in their order.
pub fn operands<W: fmt::Write>(f: &mut fmt::Formatter<W>, instruction: Instruction) -> fmt::Result {
    match instruction {
        Instruction::Immediate(i) => list(f, &[Gpr(i.rt), first_term(i), immediate(i.immediate)]),
        Instruction::LogicalImmediate(i) => list(f, &[Gpr(i.ra), Gpr(i.rs), Number(i.immediate)]),
        Instruction::CompareImmediate(i) => list(f, &compared(i)),
        Instruction::TrapImmediate(i) => list(f, &trapped(i)),
        Instruction::Load(i) => access(f, i.rt, i.ra, i.offset),
        Instruction::Store(i) => access(f, i.rs, i.ra, i.offset),
        Instruction::Branch(i) => list(f, &[target(i.displacement, 0x80_0000, i.absolute)]),
        Instruction::BranchConditional(i) => list(f, &conditional(i)),
        Instruction::BranchRegister(i) => list(f, &[Number(i.options), Number(i.bit)]),
        Instruction::SystemCall => Ok(()),
        Instruction::Rotate(i) => list(f, &rotated(i)),
        Instruction::ConditionLogical(i) => list(f, &combined(i)),
        Instruction::MoveConditionField(i) => list(f, &[Number(i.to), Number(i.from)]),
        Instruction::Bare { .. } => Ok(()),
        Instruction::Arithmetic(i) => list(f, &[Gpr(i.rt), Gpr(i.ra), Gpr(i.rb)]),
        Instruction::ArithmeticUnary(i) => list(f, &[Gpr(i.rt), Gpr(i.ra)]),
        Instruction::MultiplyHigh(i) => list(f, &[Gpr(i.rt), Gpr(i.ra), Gpr(i.rb)]),
        Instruction::Logical(i) => list(f, &[Gpr(i.ra), Gpr(i.rs), Gpr(i.rb)]),
        Instruction::LogicalUnary(i) => list(f, &[Gpr(i.ra), Gpr(i.rs)]),
        Instruction::ShiftRightImmediate(i) => list(f, &[Gpr(i.ra), Gpr(i.rs), Number(i.amount)]),
        Instruction::Select(i) => list(f, &[Gpr(i.rt), Base(i.ra), Gpr(i.rb), Number(i.bit)]),
        Instruction::Compare(i) => list(f, &[Number(i.field), Number(0), Gpr(i.ra), Gpr(i.rb)]),
        Instruction::Trap(i) => list(f, &[Number(i.conditions), Gpr(i.ra), Gpr(i.rb)]),
        Instruction::LoadIndexed(i) => list(f, &indexed(i.rt, i.ra, i.rb)),
        Instruction::StoreIndexed(i) => list(f, &indexed(i.rs, i.ra, i.rb)),
        Instruction::StoreConditional(i) => list(f, &indexed(i.rs, i.ra, i.rb)),
        Instruction::MoveFromXer { field } => list(f, &[Number(field)]),
        Instruction::Move(i) => list(f, &[Gpr(i.register)]),
        Instruction::WriteExternalEnable { enable } => list(f, &[Number(u32::from(enable))]),
        Instruction::MoveToConditionFields(i) => list(f, &[Number(i.mask), Gpr(i.rs)]),
        Instruction::MoveSpecial(i) => list(f, &moved(i)),
        Instruction::TlbWord(i) => list(f, &[Gpr(i.register), Gpr(i.ra), Number(i.word)]),
        Instruction::TlbSearch(i) => list(f, &indexed(i.rt, i.ra, i.rb)),
        Instruction::Barrier { ordering } => list(f, &[Number(ordering)]),
    }
}
