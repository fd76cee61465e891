//! The word of an instruction.
ghost use Rattle.std.specs.Prelude.{◌≡◌};
ghost use Rattle.isa.specs.Encoded.{encoded, access_word};
ghost use Rattle.isa.specs.Lossless.{Lossless};

use crate::fields::{extended_form, half_form};
use crate::instruction::*;
use crate::opcodes::Access;
use crate::valid::{valid_branch, valid_load, valid_options, valid_store};

/// The word that reads back to an instruction, or none where no word does. Nothing is lost: the word reads as the
/// instruction again.
#[tactic(auto, using(crate::proofs::Round::lossless))]
pub fn encode(instruction: Instruction) -> Option<u32>
    ensures is { result ≡ encoded instruction }
    ensures lossless { Lossless }
{
    word_of(instruction)
}

/// The word of a load or a store, whose registers are checked elsewhere: of the register that it moves, its base and its
/// offset.
// The base, the offset and the update are fields of `Load` and of `Store`, beside their register: a struct of the three
// would be built for the two calls and taken apart here.
fn access_word<O: Access>(
    op: O,
    register: Register,
    base: Register,
    offset: Offset,
    update: bool,
) -> Option<u32>
    ensures { result ≡ access_word (O.opcode_of op) (O.extended_of op) register base offset update }
{
    match offset {
        Offset::Displacement(d) => half_form(op.opcode() + u32::from(update), register, base, d),
        Offset::Index(rb) => extended_form(
            31,
            register,
            base,
            rb,
            op.extended() + 32 * u32::from(update),
            false,
        ),
    }
}

/// The word of an instruction, one arm for each format.
fn word_of(instruction: Instruction) -> Option<u32>
    ensures { result ≡ encoded instruction }
{
    match instruction {
        Instruction::Immediate(i) => half_form(i.op as u32, i.rt, i.ra, i.immediate),
        Instruction::LogicalImmediate(i) => half_form(i.op as u32, i.rs, i.ra, i.immediate),
        Instruction::CompareImmediate(i) if i.field < 8 => half_form(
            i.comparison.opcode(),
            i.field * 4,
            i.ra,
            i.immediate,
        ),
        Instruction::TrapImmediate(i) => half_form(3, i.conditions, i.ra, i.immediate),
        Instruction::Load(i) if valid_load(i.update, i.rt, i.ra) => {
            access_word(i.op, i.rt, i.ra, i.offset, i.update)
        }
        Instruction::Store(i) if valid_store(i.update, i.ra) => {
            access_word(i.op, i.rs, i.ra, i.offset, i.update)
        }
        Instruction::Branch(i) if i.displacement < 0x100_0000 => {
            Some(0x4800_0000 + i.displacement * 4 + u32::from(i.absolute) * 2 + u32::from(i.link))
        }
        Instruction::BranchConditional(i) if valid_options(i.options) && i.displacement < 0x4000 =>
            {
                half_form(
                    16,
                    i.options,
                    i.bit,
                    i.displacement * 4 + u32::from(i.absolute) * 2 + u32::from(i.link),
                )
            }
        Instruction::BranchRegister(i) if valid_branch(i.target, i.options) => extended_form(
            19,
            i.options,
            i.bit,
            0,
            i.target as u32,
            i.link,
        ),
        Instruction::SystemCall => Some(0x4400_0002),
        Instruction::Rotate(i) if i.begin < 32 && i.end < 32 => {
            extended_form(
                i.op as u32,
                i.rs,
                i.ra,
                i.amount,
                i.begin * 32 + i.end,
                i.rc,
            )
        }
        Instruction::ConditionLogical(i) => extended_form(
            19,
            i.target,
            i.first,
            i.second,
            i.op as u32,
            false,
        ),
        Instruction::MoveConditionField(i) if i.to < 8 && i.from < 8 => extended_form(
            19,
            i.to * 4,
            i.from * 4,
            0,
            0,
            false,
        ),
        Instruction::Bare { op } => extended_form(op.opcode(), 0, 0, 0, op as u32, false),
        Instruction::Arithmetic(i) => extended_form(
            31,
            i.rt,
            i.ra,
            i.rb,
            i.op as u32 + 512 * u32::from(i.oe),
            i.rc,
        ),
        Instruction::ArithmeticUnary(i) => extended_form(
            31,
            i.rt,
            i.ra,
            0,
            i.op as u32 + 512 * u32::from(i.oe),
            i.rc,
        ),
        Instruction::MultiplyHigh(i) => extended_form(31, i.rt, i.ra, i.rb, i.op as u32, i.rc),
        Instruction::Logical(i) => extended_form(31, i.rs, i.ra, i.rb, i.op as u32, i.rc),
        Instruction::LogicalUnary(i) => extended_form(31, i.rs, i.ra, 0, i.op as u32, i.rc),
        Instruction::ShiftRightImmediate(i) => extended_form(31, i.rs, i.ra, i.amount, 824, i.rc),
        Instruction::Select(i) if i.bit < 32 => extended_form(
            31,
            i.rt,
            i.ra,
            i.rb,
            i.bit * 32 + 15,
            false,
        ),
        Instruction::Compare(i) if i.field < 8 => extended_form(
            31,
            i.field * 4,
            i.ra,
            i.rb,
            i.comparison as u32,
            false,
        ),
        Instruction::Trap(i) => extended_form(31, i.conditions, i.ra, i.rb, 4, false),
        Instruction::LoadIndexed(i) => extended_form(31, i.rt, i.ra, i.rb, i.op as u32, false),
        Instruction::StoreIndexed(i) => extended_form(31, i.rs, i.ra, i.rb, i.op as u32, false),
        Instruction::StoreConditional(i) => extended_form(31, i.rs, i.ra, i.rb, 150, true),
        Instruction::MoveFromXer { field } if field < 8 => extended_form(
            31,
            field * 4,
            0,
            0,
            512,
            false,
        ),
        Instruction::Move(i) => extended_form(31, i.register, 0, 0, i.op as u32, false),
        Instruction::WriteExternalEnable { enable } => extended_form(
            31,
            0,
            0,
            u32::from(enable) * 16,
            163,
            false,
        ),
        Instruction::MoveToConditionFields(i) if i.mask < 256 => extended_form(
            31,
            i.rs,
            i.mask / 16,
            i.mask % 16 * 2,
            144,
            false,
        ),
        Instruction::MoveSpecial(i) if i.number < 1024 => extended_form(
            31,
            i.register,
            i.number % 32,
            i.number / 32,
            i.op as u32,
            false,
        ),
        Instruction::TlbWord(i) if i.word < 3 => extended_form(
            31,
            i.register,
            i.ra,
            i.word,
            i.op as u32,
            false,
        ),
        Instruction::TlbSearch(i) => extended_form(31, i.rt, i.ra, i.rb, 914, i.rc),
        Instruction::Barrier { ordering } => extended_form(31, ordering, 0, 0, 854, false),
        _ => None,
    }
}
