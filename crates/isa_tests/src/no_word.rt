//! Instructions that no word stands for: each is one that has a word, but for one of its fields.
use isa::instruction::*;
use isa::{decode, encode};
use std::test::Fail;

const ADDI: Immediate = Immediate {
    op: ImmediateOp::Addi,
    rt: 3,
    ra: 4,
    immediate: 5,
};

const ORI: LogicalImmediate = LogicalImmediate {
    op: LogicalImmediateOp::Ori,
    ra: 3,
    rs: 4,
    immediate: 5,
};

const CMPI: CompareImmediate = CompareImmediate {
    comparison: Comparison::Signed,
    field: 7,
    ra: 3,
    immediate: 4,
};

const TWI: TrapImmediate = TrapImmediate {
    conditions: 31,
    ra: 3,
    immediate: 4,
};

const LWZU: Load = Load {
    op: LoadOp::Lwz,
    rt: 3,
    ra: 4,
    offset: Offset::Displacement(8),
    update: true,
};

const STHU: Store = Store {
    op: StoreOp::Sth,
    rs: 3,
    ra: 4,
    offset: Offset::Index(5),
    update: true,
};

const B: Branch = Branch {
    displacement: 1,
    absolute: false,
    link: false,
};

const BC: BranchConditional = BranchConditional {
    options: 12,
    bit: 2,
    displacement: 2,
    absolute: false,
    link: false,
};

const BCCTR: BranchRegister = BranchRegister {
    target: BranchTarget::Count,
    options: 20,
    bit: 0,
    link: false,
};

const RLWINM: Rotate = Rotate {
    op: RotateOp::Rlwinm,
    ra: 3,
    rs: 4,
    amount: 5,
    begin: 0,
    end: 31,
    rc: false,
};

const CRAND: ConditionLogical = ConditionLogical {
    op: ConditionOp::Crand,
    target: 0,
    first: 1,
    second: 2,
};

const MCRF: MoveConditionField = MoveConditionField { to: 7, from: 0 };

const ADD: Arithmetic = Arithmetic {
    op: ArithmeticOp::Add,
    rt: 3,
    ra: 4,
    rb: 5,
    oe: true,
    rc: true,
};

const SRAWI: ShiftRightImmediate = ShiftRightImmediate {
    ra: 3,
    rs: 4,
    amount: 31,
    rc: false,
};

const ISEL: Select = Select {
    rt: 3,
    ra: 0,
    rb: 4,
    bit: 31,
};

const CMP: Compare = Compare {
    comparison: Comparison::Signed,
    field: 7,
    ra: 3,
    rb: 4,
};

const MTCRF: MoveToConditionFields = MoveToConditionFields { mask: 255, rs: 3 };

const MTSPR: MoveSpecial = MoveSpecial {
    op: SpecialOp::Mtspr,
    register: 3,
    number: 1023,
};

const TLBRE: TlbWord = TlbWord {
    op: TlbWordOp::Tlbre,
    register: 3,
    ra: 4,
    word: 2,
};

/// Instructions that have a word, which reads as the instruction again.
static SOUND: [Instruction; 22] = [
    Instruction::Immediate(ADDI),
    Instruction::LogicalImmediate(ORI),
    Instruction::CompareImmediate(CMPI),
    Instruction::TrapImmediate(TWI),
    Instruction::Load(LWZU),
    Instruction::Store(STHU),
    Instruction::Branch(B),
    Instruction::BranchConditional(BC),
    Instruction::BranchRegister(BCCTR),
    Instruction::Rotate(RLWINM),
    Instruction::ConditionLogical(CRAND),
    Instruction::MoveConditionField(MCRF),
    Instruction::Arithmetic(ADD),
    Instruction::ShiftRightImmediate(SRAWI),
    Instruction::Select(ISEL),
    Instruction::Compare(CMP),
    Instruction::MoveToConditionFields(MTCRF),
    Instruction::MoveSpecial(MTSPR),
    Instruction::TlbWord(TLBRE),
    Instruction::MoveFromXer { field: 7 },
    Instruction::Barrier { ordering: 31 },
    Instruction::SystemCall,
];

/// Instructions that have none, with what is wrong.
static UNSOUND: [(Instruction, &str); 33] = [
    (
        Instruction::Immediate(Immediate { rt: 32, ..ADDI }),
        "addi into a register of 32",
    ),
    (
        Instruction::Immediate(Immediate { ra: 32, ..ADDI }),
        "addi from a register of 32",
    ),
    (
        Instruction::Immediate(Immediate {
            immediate: 65536,
            ..ADDI
        }),
        "addi of an immediate of 65,536",
    ),
    (
        Instruction::LogicalImmediate(LogicalImmediate {
            immediate: 65536,
            ..ORI
        }),
        "ori of an immediate of 65,536",
    ),
    (
        Instruction::CompareImmediate(CompareImmediate { field: 8, ..CMPI }),
        "cmpi into a field of 8",
    ),
    (
        Instruction::TrapImmediate(TrapImmediate {
            conditions: 32,
            ..TWI
        }),
        "twi on conditions of 32",
    ),
    (
        Instruction::Load(Load {
            offset: Offset::Displacement(65536),
            ..LWZU
        }),
        "lwzu at a displacement of 65,536",
    ),
    (
        Instruction::Load(Load {
            offset: Offset::Index(32),
            ..LWZU
        }),
        "lwzux at an index register of 32",
    ),
    (
        Instruction::Load(Load { ra: 0, ..LWZU }),
        "lwzu without a base",
    ),
    (
        Instruction::Load(Load { ra: 3, ..LWZU }),
        "lwzu into its base",
    ),
    (
        Instruction::Store(Store { ra: 0, ..STHU }),
        "sthux without a base",
    ),
    (
        Instruction::Store(Store { rs: 32, ..STHU }),
        "sthux of a register of 32",
    ),
    (
        Instruction::Branch(Branch {
            displacement: 0x100_0000,
            ..B
        }),
        "b by 2^24 words",
    ),
    (
        Instruction::BranchConditional(BranchConditional {
            displacement: 0x4000,
            ..BC
        }),
        "bc by 2^14 words",
    ),
    (
        Instruction::BranchConditional(BranchConditional { options: 21, ..BC }),
        "bc with a z bit",
    ),
    (
        Instruction::BranchConditional(BranchConditional { bit: 32, ..BC }),
        "bc on a bit of 32",
    ),
    (
        Instruction::BranchRegister(BranchRegister {
            options: 16,
            ..BCCTR
        }),
        "bcctr that decrements",
    ),
    (
        Instruction::BranchRegister(BranchRegister {
            options: 52,
            ..BCCTR
        }),
        "bcctr with options of 52",
    ),
    (
        Instruction::Rotate(Rotate {
            amount: 32,
            ..RLWINM
        }),
        "rlwinm by 32",
    ),
    (
        Instruction::Rotate(Rotate {
            begin: 32,
            ..RLWINM
        }),
        "rlwinm from bit 32",
    ),
    (
        Instruction::Rotate(Rotate { end: 32, ..RLWINM }),
        "rlwinm to bit 32",
    ),
    (
        Instruction::ConditionLogical(ConditionLogical {
            second: 32,
            ..CRAND
        }),
        "crand of a bit of 32",
    ),
    (
        Instruction::MoveConditionField(MoveConditionField { from: 8, ..MCRF }),
        "mcrf from a field of 8",
    ),
    (
        Instruction::Arithmetic(Arithmetic { rb: 32, ..ADD }),
        "add of a register of 32",
    ),
    (
        Instruction::ShiftRightImmediate(ShiftRightImmediate {
            amount: 32,
            ..SRAWI
        }),
        "srawi by 32",
    ),
    (
        Instruction::Select(Select { bit: 32, ..ISEL }),
        "isel by a bit of 32",
    ),
    (
        Instruction::Compare(Compare { field: 8, ..CMP }),
        "cmp into a field of 8",
    ),
    (
        Instruction::MoveToConditionFields(MoveToConditionFields { mask: 256, ..MTCRF }),
        "mtcrf with a mask of 256",
    ),
    (
        Instruction::MoveSpecial(MoveSpecial {
            number: 1024,
            ..MTSPR
        }),
        "mtspr with a number of 1,024",
    ),
    (
        Instruction::TlbWord(TlbWord { word: 3, ..TLBRE }),
        "tlbre of word 3",
    ),
    (
        Instruction::MoveFromXer { field: 8 },
        "mcrxr into a field of 8",
    ),
    (
        Instruction::Barrier { ordering: 32 },
        "mbar with a field of 32",
    ),
    (
        Instruction::Move(Move {
            op: MoveOp::Mfcr,
            register: 0xFFFF_FFFF,
        }),
        "mfcr into the greatest number",
    ),
];

#[test]
fn has_a_word(rt: HostRuntime) -> Result<(), Fail> {
    for instruction in &SOUND {
        let word = encode(*instruction).ok_or("no word")?;
        assert_eq!(rt; decode(word), Some(*instruction));
    }
    Ok(())
}

#[test]
fn has_no_word(rt: HostRuntime) {
    for (instruction, reason) in &UNSOUND {
        assert!(rt; encode(*instruction).is_none(), "{}", reason);
    }
}
