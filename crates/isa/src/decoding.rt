//! The instruction of a word.
ghost use Rattle.std.specs.Prelude.{◌≡◌, ℕ, ◌<◌};
ghost use Rattle.isa.specs.Decoded.{bare, load_of, store_of, by_nineteen, by_extended, by_primary, decoded};
ghost use Rattle.isa.specs.Fields.{fields_of};
ghost use Rattle.isa.specs.Lossless.{Lossless};
ghost use Rattle.isa.specs.Ranges.{DecodedInRange};

use crate::fields;
use crate::fields::Fields;
use crate::instruction::*;
use crate::table::{Extended, Nineteen, Primary, extended_at, nineteen_at, primary_at};
use crate::valid::{valid_branch, valid_load, valid_options, valid_store};

/// Whether a word without operands has its reserved bits zero.
fn bare(f: Fields) -> bool
    ensures { result ≡ bare f }
{
    f.first == 0 && f.second == 0 && f.third == 0 && !f.last
}

// A load and a store stay two functions, as their structs name the register differently: a load writes rt, and a store
// reads rs.

/// A load, where its registers are valid.
fn read_load(op: LoadOp, update: bool, offset: Offset, f: Fields) -> Option<Instruction>
    ensures { result ≡ load_of op update offset f }
{
    valid_load(update, f.first, f.second).then_some(Instruction::Load(Load {
        op,
        rt: f.first,
        ra: f.second,
        offset,
        update,
    }))
}

/// A store, where its base is valid.
fn read_store(op: StoreOp, update: bool, offset: Offset, f: Fields) -> Option<Instruction>
    ensures { result ≡ store_of op update offset f }
{
    valid_store(update, f.second).then_some(Instruction::Store(Store {
        op,
        rs: f.first,
        ra: f.second,
        offset,
        update,
    }))
}

/// The instruction of a word under the primary opcode 19.
fn by_nineteen(form: Nineteen, f: Fields) -> Option<Instruction>
    ensures { result ≡ by_nineteen form f }
{
    match form {
        Nineteen::Branch(target) if f.third == 0 && valid_branch(target, f.first) => Some(
            Instruction::BranchRegister(BranchRegister {
                target,
                options: f.first,
                bit: f.second,
                link: f.last,
            }),
        ),
        Nineteen::ConditionLogical(op) if !f.last => Some(Instruction::ConditionLogical(
            ConditionLogical {
                op,
                target: f.first,
                first: f.second,
                second: f.third,
            },
        )),
        Nineteen::Bare(op) if bare(f) => Some(Instruction::Bare { op }),
        Nineteen::MoveConditionField
            if f.first % 4 == 0 && f.second % 4 == 0 && f.third == 0 && !f.last => Some(
            Instruction::MoveConditionField(MoveConditionField {
                to: f.first / 4,
                from: f.second / 4,
            }),
        ),
        _ => None,
    }
}

/// The instruction of a word under the primary opcode 31.
fn by_extended(form: Extended, f: Fields) -> Option<Instruction>
    requires { (f.third < 32) × (f.second < 32) }
    ensures { result ≡ by_extended form f }
{
    match form {
        Extended::Arithmetic(op, oe) => {
            Some(Instruction::Arithmetic(Arithmetic {
                op,
                rt: f.first,
                ra: f.second,
                rb: f.third,
                oe,
                rc: f.last,
            }))
        }
        Extended::ArithmeticUnary(op, oe) if f.third == 0 => Some(Instruction::ArithmeticUnary(
            ArithmeticUnary {
                op,
                rt: f.first,
                ra: f.second,
                oe,
                rc: f.last,
            },
        )),
        Extended::MultiplyHigh(op) => {
            Some(Instruction::MultiplyHigh(MultiplyHigh {
                op,
                rt: f.first,
                ra: f.second,
                rb: f.third,
                rc: f.last,
            }))
        }
        Extended::Logical(op) => Some(Instruction::Logical(Logical {
            op,
            ra: f.second,
            rs: f.first,
            rb: f.third,
            rc: f.last,
        })),
        Extended::LogicalUnary(op) if f.third == 0 => Some(Instruction::LogicalUnary(
            LogicalUnary {
                op,
                ra: f.second,
                rs: f.first,
                rc: f.last,
            },
        )),
        Extended::ShiftRightImmediate => {
            Some(Instruction::ShiftRightImmediate(ShiftRightImmediate {
                ra: f.second,
                rs: f.first,
                amount: f.third,
                rc: f.last,
            }))
        }
        Extended::Select if !f.last => Some(Instruction::Select(Select {
            rt: f.first,
            ra: f.second,
            rb: f.third,
            bit: f.extended / 32,
        })),
        Extended::Compare(comparison) if f.first % 4 == 0 && !f.last => Some(Instruction::Compare(
            Compare {
                comparison,
                field: f.first / 4,
                ra: f.second,
                rb: f.third,
            },
        )),
        Extended::Trap if !f.last => Some(Instruction::Trap(Trap {
            conditions: f.first,
            ra: f.second,
            rb: f.third,
        })),
        Extended::Load(op, update) if !f.last => read_load(op, update, Offset::Index(f.third), f),
        Extended::Store(op, update) if !f.last => read_store(op, update, Offset::Index(f.third), f),
        Extended::LoadIndexed(op) if !f.last => Some(Instruction::LoadIndexed(LoadIndexed {
            op,
            rt: f.first,
            ra: f.second,
            rb: f.third,
        })),
        Extended::StoreIndexed(op) if !f.last => Some(Instruction::StoreIndexed(StoreIndexed {
            op,
            rs: f.first,
            ra: f.second,
            rb: f.third,
        })),
        Extended::StoreConditional if f.last => Some(Instruction::StoreConditional(
            StoreConditional {
                rs: f.first,
                ra: f.second,
                rb: f.third,
            },
        )),
        Extended::MoveFromXer if f.first % 4 == 0 && f.second == 0 && f.third == 0 && !f.last =>
            Some(Instruction::MoveFromXer { field: f.first / 4 }),
        Extended::Move(op) if f.second == 0 && f.third == 0 && !f.last => Some(Instruction::Move(
            Move {
                op,
                register: f.first,
            },
        )),
        Extended::WriteExternalEnable
            if f.first == 0 && f.second == 0 && f.third % 16 == 0 && !f.last => Some(
            Instruction::WriteExternalEnable {
                enable: f.third / 16 == 1,
            },
        ),
        Extended::MoveToConditionFields if f.second < 16 && f.third % 2 == 0 && !f.last => Some(
            Instruction::MoveToConditionFields(MoveToConditionFields {
                mask: f.second * 16 + f.third / 2,
                rs: f.first,
            }),
        ),
        Extended::MoveSpecial(op) if !f.last => Some(Instruction::MoveSpecial(MoveSpecial {
            op,
            register: f.first,
            number: f.third * 32 + f.second,
        })),
        Extended::TlbWord(op) if f.third < 3 && !f.last => Some(Instruction::TlbWord(TlbWord {
            op,
            register: f.first,
            ra: f.second,
            word: f.third,
        })),
        Extended::TlbSearch => {
            Some(Instruction::TlbSearch(TlbSearch {
                rt: f.first,
                ra: f.second,
                rb: f.third,
                rc: f.last,
            }))
        }
        Extended::Barrier if f.second == 0 && f.third == 0 && !f.last => Some(Instruction::Barrier {
            ordering: f.first,
        }),
        Extended::Bare(op) if bare(f) => Some(Instruction::Bare { op }),
        _ => None,
    }
}

/// The instruction of a word by its primary opcode.
fn by_primary(form: Primary, word: u32) -> Option<Instruction>
    ensures { result ≡ by_primary form word (fields_of word) }
{
    let f = fields::split(word);
    match form {
        Primary::Immediate(op) => Some(Instruction::Immediate(Immediate {
            op,
            rt: f.first,
            ra: f.second,
            immediate: f.low,
        })),
        Primary::LogicalImmediate(op) => {
            Some(Instruction::LogicalImmediate(LogicalImmediate {
                op,
                ra: f.second,
                rs: f.first,
                immediate: f.low,
            }))
        }
        Primary::CompareImmediate(comparison) if f.first % 4 == 0 => Some(
            Instruction::CompareImmediate(CompareImmediate {
                comparison,
                field: f.first / 4,
                ra: f.second,
                immediate: f.low,
            }),
        ),
        Primary::TrapImmediate => {
            Some(Instruction::TrapImmediate(TrapImmediate {
                conditions: f.first,
                ra: f.second,
                immediate: f.low,
            }))
        }
        Primary::Rotate(op) => Some(Instruction::Rotate(Rotate {
            op,
            ra: f.second,
            rs: f.first,
            amount: f.third,
            begin: f.extended / 32,
            end: f.extended % 32,
            rc: f.last,
        })),
        Primary::Load(op, update) => read_load(op, update, Offset::Displacement(f.low), f),
        Primary::Store(op, update) => read_store(op, update, Offset::Displacement(f.low), f),
        Primary::BranchConditional if valid_options(f.first) => Some(
            Instruction::BranchConditional(BranchConditional {
                options: f.first,
                bit: f.second,
                displacement: f.low / 4,
                absolute: f.low / 2 % 2 == 1,
                link: f.last,
            }),
        ),
        Primary::SystemCall if word == 0x4400_0002 => Some(Instruction::SystemCall),
        Primary::Branch => Some(Instruction::Branch(Branch {
            displacement: word / 4 % 0x100_0000,
            absolute: word / 2 % 2 == 1,
            link: f.last,
        })),
        Primary::Nineteen => by_nineteen(nineteen_at(f.extended)?, f),
        Primary::Extended => by_extended(extended_at(f.extended)?, f),
        _ => None,
    }
}

/// The instruction of a word, or none where the word is illegal. Nothing is lost: the instruction is written as the
/// word again, and its fields are in range.
#[tactic(auto, using(crate::proofs::Round::lossless), unfolding(crate::specs::Decoded::decoded))]
pub fn decode(word: u32) -> Option<Instruction>
    ensures is { result ≡ decoded word }
    ensures in_range { DecodedInRange result }
    ensures lossless { Lossless }
{
    by_primary(primary_at(word / 0x400_0000)?, word)
}
