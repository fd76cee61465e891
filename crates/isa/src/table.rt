//! What each opcode stands for.
ghost use Rattle.std.specs.Prelude.{◌≡◌};
ghost use Rattle.isa.specs.Listed.{primary_at, nineteen_at, extended_at};

use crate::instruction::{
    ArithmeticOp, ArithmeticUnaryOp, BareOp, BranchTarget, Comparison, ConditionOp, ImmediateOp,
    LoadIndexedOp, LoadOp, LogicalImmediateOp, LogicalOp, LogicalUnaryOp, MoveOp, MultiplyHighOp,
    RotateOp, SpecialOp, StoreIndexedOp, StoreOp, TlbWordOp,
};

/// The form of a primary opcode; the flag is the update of a load or a store.
#[derive(Clone, Copy)]
pub enum Primary {
    Immediate(ImmediateOp),
    LogicalImmediate(LogicalImmediateOp),
    CompareImmediate(Comparison),
    TrapImmediate,
    Rotate(RotateOp),
    Load(LoadOp, bool),
    Store(StoreOp, bool),
    BranchConditional,
    SystemCall,
    Branch,
    /// The instructions that an extended opcode tells apart, under 19.
    Nineteen,
    /// The instructions that an extended opcode tells apart, under 31.
    Extended,
}

/// The form of a primary opcode; none where no instruction has it.
#[tactic(auto, unfolding(crate::specs::Listed::primary_at))]
pub fn primary_at(number: u32) -> Option<Primary>
    ensures { result ≡ primary_at number }
{
    match number {
        3 => Some(Primary::TrapImmediate),
        7 => Some(Primary::Immediate(ImmediateOp::Mulli)),
        8 => Some(Primary::Immediate(ImmediateOp::Subfic)),
        10 => Some(Primary::CompareImmediate(Comparison::Unsigned)),
        11 => Some(Primary::CompareImmediate(Comparison::Signed)),
        12 => Some(Primary::Immediate(ImmediateOp::Addic)),
        13 => Some(Primary::Immediate(ImmediateOp::AddicRecord)),
        14 => Some(Primary::Immediate(ImmediateOp::Addi)),
        15 => Some(Primary::Immediate(ImmediateOp::Addis)),
        16 => Some(Primary::BranchConditional),
        17 => Some(Primary::SystemCall),
        18 => Some(Primary::Branch),
        19 => Some(Primary::Nineteen),
        20 => Some(Primary::Rotate(RotateOp::Rlwimi)),
        21 => Some(Primary::Rotate(RotateOp::Rlwinm)),
        23 => Some(Primary::Rotate(RotateOp::Rlwnm)),
        24 => Some(Primary::LogicalImmediate(LogicalImmediateOp::Ori)),
        25 => Some(Primary::LogicalImmediate(LogicalImmediateOp::Oris)),
        26 => Some(Primary::LogicalImmediate(LogicalImmediateOp::Xori)),
        27 => Some(Primary::LogicalImmediate(LogicalImmediateOp::Xoris)),
        28 => Some(Primary::LogicalImmediate(LogicalImmediateOp::AndiRecord)),
        29 => Some(Primary::LogicalImmediate(LogicalImmediateOp::AndisRecord)),
        31 => Some(Primary::Extended),
        32 => Some(Primary::Load(LoadOp::Lwz, false)),
        33 => Some(Primary::Load(LoadOp::Lwz, true)),
        34 => Some(Primary::Load(LoadOp::Lbz, false)),
        35 => Some(Primary::Load(LoadOp::Lbz, true)),
        36 => Some(Primary::Store(StoreOp::Stw, false)),
        37 => Some(Primary::Store(StoreOp::Stw, true)),
        38 => Some(Primary::Store(StoreOp::Stb, false)),
        39 => Some(Primary::Store(StoreOp::Stb, true)),
        40 => Some(Primary::Load(LoadOp::Lhz, false)),
        41 => Some(Primary::Load(LoadOp::Lhz, true)),
        42 => Some(Primary::Load(LoadOp::Lha, false)),
        43 => Some(Primary::Load(LoadOp::Lha, true)),
        44 => Some(Primary::Store(StoreOp::Sth, false)),
        45 => Some(Primary::Store(StoreOp::Sth, true)),
        _ => None,
    }
}

/// The form of an extended opcode under the primary opcode 19.
#[derive(Clone, Copy)]
pub enum Nineteen {
    Branch(BranchTarget),
    ConditionLogical(ConditionOp),
    Bare(BareOp),
    MoveConditionField,
}

/// The form of an extended opcode under the primary opcode 19; none where no instruction has it.
pub fn nineteen_at(number: u32) -> Option<Nineteen>
    ensures { result ≡ nineteen_at number }
{
    match number {
        0 => Some(Nineteen::MoveConditionField),
        16 => Some(Nineteen::Branch(BranchTarget::Link)),
        33 => Some(Nineteen::ConditionLogical(ConditionOp::Crnor)),
        50 => Some(Nineteen::Bare(BareOp::Rfi)),
        129 => Some(Nineteen::ConditionLogical(ConditionOp::Crandc)),
        150 => Some(Nineteen::Bare(BareOp::Isync)),
        193 => Some(Nineteen::ConditionLogical(ConditionOp::Crxor)),
        225 => Some(Nineteen::ConditionLogical(ConditionOp::Crnand)),
        257 => Some(Nineteen::ConditionLogical(ConditionOp::Crand)),
        289 => Some(Nineteen::ConditionLogical(ConditionOp::Creqv)),
        417 => Some(Nineteen::ConditionLogical(ConditionOp::Crorc)),
        449 => Some(Nineteen::ConditionLogical(ConditionOp::Cror)),
        528 => Some(Nineteen::Branch(BranchTarget::Count)),
        _ => None,
    }
}

/// The form of an extended opcode under the primary opcode 31; the flag is the OE bit of an arithmetic form, and the
/// update of a load or a store.
#[derive(Clone, Copy)]
pub enum Extended {
    Arithmetic(ArithmeticOp, bool),
    ArithmeticUnary(ArithmeticUnaryOp, bool),
    MultiplyHigh(MultiplyHighOp),
    Logical(LogicalOp),
    LogicalUnary(LogicalUnaryOp),
    ShiftRightImmediate,
    Select,
    Compare(Comparison),
    Trap,
    Load(LoadOp, bool),
    Store(StoreOp, bool),
    LoadIndexed(LoadIndexedOp),
    StoreIndexed(StoreIndexedOp),
    StoreConditional,
    MoveFromXer,
    Move(MoveOp),
    WriteExternalEnable,
    MoveToConditionFields,
    MoveSpecial(SpecialOp),
    TlbWord(TlbWordOp),
    TlbSearch,
    Barrier,
    Bare(BareOp),
}

/// The form of an extended opcode under the primary opcode 31; none where no instruction has it.
#[tactic(auto, unfolding(crate::specs::Listed::extended_at))]
pub fn extended_at(number: u32) -> Option<Extended>
    ensures { result ≡ extended_at number }
{
    if number % 32 == 15 {
        return Some(Extended::Select);
    }
    match number {
        0 => Some(Extended::Compare(Comparison::Signed)),
        4 => Some(Extended::Trap),
        8 => Some(Extended::Arithmetic(ArithmeticOp::Subfc, false)),
        10 => Some(Extended::Arithmetic(ArithmeticOp::Addc, false)),
        11 => Some(Extended::MultiplyHigh(MultiplyHighOp::Mulhwu)),
        19 => Some(Extended::Move(MoveOp::Mfcr)),
        20 => Some(Extended::LoadIndexed(LoadIndexedOp::Lwarx)),
        23 => Some(Extended::Load(LoadOp::Lwz, false)),
        24 => Some(Extended::Logical(LogicalOp::Slw)),
        26 => Some(Extended::LogicalUnary(LogicalUnaryOp::Cntlzw)),
        28 => Some(Extended::Logical(LogicalOp::And)),
        32 => Some(Extended::Compare(Comparison::Unsigned)),
        40 => Some(Extended::Arithmetic(ArithmeticOp::Subf, false)),
        55 => Some(Extended::Load(LoadOp::Lwz, true)),
        60 => Some(Extended::Logical(LogicalOp::Andc)),
        75 => Some(Extended::MultiplyHigh(MultiplyHighOp::Mulhw)),
        83 => Some(Extended::Move(MoveOp::Mfmsr)),
        87 => Some(Extended::Load(LoadOp::Lbz, false)),
        104 => Some(Extended::ArithmeticUnary(ArithmeticUnaryOp::Neg, false)),
        119 => Some(Extended::Load(LoadOp::Lbz, true)),
        124 => Some(Extended::Logical(LogicalOp::Nor)),
        131 => Some(Extended::Move(MoveOp::Wrtee)),
        136 => Some(Extended::Arithmetic(ArithmeticOp::Subfe, false)),
        138 => Some(Extended::Arithmetic(ArithmeticOp::Adde, false)),
        144 => Some(Extended::MoveToConditionFields),
        146 => Some(Extended::Move(MoveOp::Mtmsr)),
        150 => Some(Extended::StoreConditional),
        151 => Some(Extended::Store(StoreOp::Stw, false)),
        163 => Some(Extended::WriteExternalEnable),
        183 => Some(Extended::Store(StoreOp::Stw, true)),
        200 => Some(Extended::ArithmeticUnary(ArithmeticUnaryOp::Subfze, false)),
        202 => Some(Extended::ArithmeticUnary(ArithmeticUnaryOp::Addze, false)),
        215 => Some(Extended::Store(StoreOp::Stb, false)),
        232 => Some(Extended::ArithmeticUnary(ArithmeticUnaryOp::Subfme, false)),
        234 => Some(Extended::ArithmeticUnary(ArithmeticUnaryOp::Addme, false)),
        235 => Some(Extended::Arithmetic(ArithmeticOp::Mullw, false)),
        247 => Some(Extended::Store(StoreOp::Stb, true)),
        266 => Some(Extended::Arithmetic(ArithmeticOp::Add, false)),
        279 => Some(Extended::Load(LoadOp::Lhz, false)),
        284 => Some(Extended::Logical(LogicalOp::Eqv)),
        311 => Some(Extended::Load(LoadOp::Lhz, true)),
        316 => Some(Extended::Logical(LogicalOp::Xor)),
        339 => Some(Extended::MoveSpecial(SpecialOp::Mfspr)),
        343 => Some(Extended::Load(LoadOp::Lha, false)),
        375 => Some(Extended::Load(LoadOp::Lha, true)),
        407 => Some(Extended::Store(StoreOp::Sth, false)),
        412 => Some(Extended::Logical(LogicalOp::Orc)),
        439 => Some(Extended::Store(StoreOp::Sth, true)),
        444 => Some(Extended::Logical(LogicalOp::Or)),
        459 => Some(Extended::Arithmetic(ArithmeticOp::Divwu, false)),
        467 => Some(Extended::MoveSpecial(SpecialOp::Mtspr)),
        476 => Some(Extended::Logical(LogicalOp::Nand)),
        491 => Some(Extended::Arithmetic(ArithmeticOp::Divw, false)),
        512 => Some(Extended::MoveFromXer),
        520 => Some(Extended::Arithmetic(ArithmeticOp::Subfc, true)),
        522 => Some(Extended::Arithmetic(ArithmeticOp::Addc, true)),
        534 => Some(Extended::LoadIndexed(LoadIndexedOp::Lwbrx)),
        536 => Some(Extended::Logical(LogicalOp::Srw)),
        552 => Some(Extended::Arithmetic(ArithmeticOp::Subf, true)),
        566 => Some(Extended::Bare(BareOp::Tlbsync)),
        598 => Some(Extended::Bare(BareOp::Msync)),
        616 => Some(Extended::ArithmeticUnary(ArithmeticUnaryOp::Neg, true)),
        648 => Some(Extended::Arithmetic(ArithmeticOp::Subfe, true)),
        650 => Some(Extended::Arithmetic(ArithmeticOp::Adde, true)),
        662 => Some(Extended::StoreIndexed(StoreIndexedOp::Stwbrx)),
        712 => Some(Extended::ArithmeticUnary(ArithmeticUnaryOp::Subfze, true)),
        714 => Some(Extended::ArithmeticUnary(ArithmeticUnaryOp::Addze, true)),
        744 => Some(Extended::ArithmeticUnary(ArithmeticUnaryOp::Subfme, true)),
        746 => Some(Extended::ArithmeticUnary(ArithmeticUnaryOp::Addme, true)),
        747 => Some(Extended::Arithmetic(ArithmeticOp::Mullw, true)),
        778 => Some(Extended::Arithmetic(ArithmeticOp::Add, true)),
        790 => Some(Extended::LoadIndexed(LoadIndexedOp::Lhbrx)),
        792 => Some(Extended::Logical(LogicalOp::Sraw)),
        824 => Some(Extended::ShiftRightImmediate),
        854 => Some(Extended::Barrier),
        914 => Some(Extended::TlbSearch),
        918 => Some(Extended::StoreIndexed(StoreIndexedOp::Sthbrx)),
        922 => Some(Extended::LogicalUnary(LogicalUnaryOp::Extsh)),
        946 => Some(Extended::TlbWord(TlbWordOp::Tlbre)),
        954 => Some(Extended::LogicalUnary(LogicalUnaryOp::Extsb)),
        971 => Some(Extended::Arithmetic(ArithmeticOp::Divwu, true)),
        978 => Some(Extended::TlbWord(TlbWordOp::Tlbwe)),
        1003 => Some(Extended::Arithmetic(ArithmeticOp::Divw, true)),
        _ => None,
    }
}
