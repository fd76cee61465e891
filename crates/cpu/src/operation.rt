//! What an integer operation gives, as functions of its operands.
ghost use Rattle.std.specs.Prelude.{◌≡◌, ℕ, ◌<◌};
ghost use Rattle.cpu.specs.Operations.{keeping, plain, of_quotient, immediate_outcome, arithmetic_outcome, arithmetic_unary_outcome, multiply_high_value, logical_outcome, logical_unary_value, logical_immediate_value, rotate_value};

use isa::instruction::{
    ArithmeticOp, ArithmeticUnaryOp, ImmediateOp, LogicalImmediateOp, LogicalOp, LogicalUnaryOp,
    MultiplyHighOp, RotateOp,
};
use word::arithmetic::{Outcome, add};
use word::condition::merge;
use word::product::{
    divide, divide_signed, multiply, multiply_high, multiply_high_signed, multiply_overflows,
};
use word::shift::{leading_zeros, shift_algebraic, shift_left, shift_right};
use word::sign::{extend, invert};

/// An outcome that leaves the carry as it was.
fn keeping(outcome: Outcome, carry: bool) -> Outcome
    ensures { result ≡ keeping outcome carry }
{
    Outcome { carry, ..outcome }
}

/// A word that leaves the carry as it was, without overflow.
pub fn plain(value: u32, carry: bool) -> Outcome
    ensures { result ≡ plain value carry }
{
    Outcome {
        value,
        carry,
        overflow: false,
    }
}

/// A quotient: where it is undefined, zero and an overflow.
fn quotient(value: Option<u32>, carry: bool) -> Outcome
    ensures { result ≡ of_quotient value carry }
{
    match value {
        Some(value) => plain(value, carry),
        None => Outcome {
            overflow: true,
            ..plain(0, carry)
        },
    }
}

/// Arithmetic on an operand and an immediate of sixteen bits.
pub fn immediate_outcome(op: ImmediateOp, a: u32, immediate: u32, carry: bool) -> Outcome
    ensures { result ≡ immediate_outcome op a immediate carry }
{
    let signed = extend::<16>(immediate);
    match op {
        ImmediateOp::Addi => plain(a.wrapping_add(signed), carry),
        ImmediateOp::Addis => plain(a.wrapping_add(immediate % 0x1_0000 * 0x1_0000), carry),
        ImmediateOp::Addic | ImmediateOp::AddicRecord => add(a, signed, false),
        ImmediateOp::Subfic => add(invert(a), signed, true),
        ImmediateOp::Mulli => plain(multiply(a, signed), carry),
    }
}

/// Arithmetic on two operands.
pub fn arithmetic_outcome(op: ArithmeticOp, a: u32, b: u32, carry: bool) -> Outcome
    ensures { result ≡ arithmetic_outcome op a b carry }
{
    match op {
        ArithmeticOp::Add => keeping(add(a, b, false), carry),
        ArithmeticOp::Addc => add(a, b, false),
        ArithmeticOp::Adde => add(a, b, carry),
        ArithmeticOp::Subf => keeping(add(invert(a), b, true), carry),
        ArithmeticOp::Subfc => add(invert(a), b, true),
        ArithmeticOp::Subfe => add(invert(a), b, carry),
        ArithmeticOp::Mullw => Outcome {
            overflow: multiply_overflows(a, b),
            ..plain(multiply(a, b), carry)
        },
        ArithmeticOp::Divw => quotient(divide_signed(a, b), carry),
        ArithmeticOp::Divwu => quotient(divide(a, b), carry),
    }
}

/// Arithmetic on one operand.
pub fn arithmetic_unary_outcome(op: ArithmeticUnaryOp, a: u32, carry: bool) -> Outcome
    ensures { result ≡ arithmetic_unary_outcome op a carry }
{
    match op {
        ArithmeticUnaryOp::Addme => add(a, 0xFFFF_FFFF, carry),
        ArithmeticUnaryOp::Addze => add(a, 0, carry),
        ArithmeticUnaryOp::Subfme => add(invert(a), 0xFFFF_FFFF, carry),
        ArithmeticUnaryOp::Subfze => add(invert(a), 0, carry),
        ArithmeticUnaryOp::Neg => keeping(add(invert(a), 0, true), carry),
    }
}

/// The upper half of a product.
pub fn multiply_high_value(op: MultiplyHighOp, a: u32, b: u32) -> u32
    ensures { result ≡ multiply_high_value op a b }
{
    match op {
        MultiplyHighOp::Mulhw => multiply_high_signed(a, b),
        MultiplyHighOp::Mulhwu => multiply_high(a, b),
    }
}

/// Logic and shifts on two operands.
pub fn logical_outcome(op: LogicalOp, s: u32, b: u32, carry: bool) -> Outcome
    ensures { result ≡ logical_outcome op s b carry }
{
    match op {
        LogicalOp::And => plain(s & b, carry),
        LogicalOp::Andc => plain(s & invert(b), carry),
        LogicalOp::Nand => plain(invert(s & b), carry),
        LogicalOp::Or => plain(s | b, carry),
        LogicalOp::Orc => plain(s | invert(b), carry),
        LogicalOp::Nor => plain(invert(s | b), carry),
        LogicalOp::Xor => plain(s ^ b, carry),
        LogicalOp::Eqv => plain(invert(s ^ b), carry),
        LogicalOp::Slw => plain(shift_left(s, b), carry),
        LogicalOp::Srw => plain(shift_right(s, b), carry),
        LogicalOp::Sraw => shift_algebraic(s, b),
    }
}

/// Logic on one operand.
pub fn logical_unary_value(op: LogicalUnaryOp, s: u32) -> u32
    ensures { result ≡ logical_unary_value op s }
{
    match op {
        LogicalUnaryOp::Extsb => extend::<8>(s),
        LogicalUnaryOp::Extsh => extend::<16>(s),
        LogicalUnaryOp::Cntlzw => leading_zeros(s),
    }
}

/// Logic on an operand and an immediate of sixteen bits.
pub fn logical_immediate_value(op: LogicalImmediateOp, s: u32, immediate: u32) -> u32
    ensures { result ≡ logical_immediate_value op s immediate }
{
    let low = immediate % 0x1_0000;
    let high = low * 0x1_0000;
    match op {
        LogicalImmediateOp::AndiRecord => s & low,
        LogicalImmediateOp::AndisRecord => s & high,
        LogicalImmediateOp::Ori => s | low,
        LogicalImmediateOp::Oris => s | high,
        LogicalImmediateOp::Xori => s ^ low,
        LogicalImmediateOp::Xoris => s ^ high,
    }
}

/// A rotated word under a mask: inserted into the old word, or alone.
pub fn rotate_value(op: RotateOp, old: u32, rotated: u32, mask: u32) -> u32
    ensures { result ≡ rotate_value op old rotated mask }
{
    match op {
        RotateOp::Rlwimi => merge(old, rotated, mask),
        RotateOp::Rlwinm | RotateOp::Rlwnm => rotated & mask,
    }
}
