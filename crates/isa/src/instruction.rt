//! The instructions of the readout core, one case for each format. Immediates and displacements are the bits of their
//! field, not yet extended by their sign; `oe` and `rc` are the bits OE and Rc.
//!
//! The number of an operation is its extended opcode, without OE and update, or its primary opcode where it has no other.

/// The number of a register, below 32 in every decoded instruction.
pub type Register = u32;

/// Arithmetic with a 16-bit immediate.
#[derive(Clone, Copy, PartialEq, Eq, Debug)]
pub enum ImmediateOp {
    Addi = 14,
    Addis = 15,
    Addic = 12,
    AddicRecord = 13,
    Subfic = 8,
    Mulli = 7,
}

/// Logic with a 16-bit immediate.
#[derive(Clone, Copy, PartialEq, Eq, Debug)]
pub enum LogicalImmediateOp {
    AndiRecord = 28,
    AndisRecord = 29,
    Ori = 24,
    Oris = 25,
    Xori = 26,
    Xoris = 27,
}

/// Arithmetic on two registers, with an overflow form.
#[derive(Clone, Copy, PartialEq, Eq, Debug)]
pub enum ArithmeticOp {
    Add = 266,
    Addc = 10,
    Adde = 138,
    Subf = 40,
    Subfc = 8,
    Subfe = 136,
    Mullw = 235,
    Divw = 491,
    Divwu = 459,
}

/// Arithmetic on one register, with an overflow form.
#[derive(Clone, Copy, PartialEq, Eq, Debug)]
pub enum ArithmeticUnaryOp {
    Addme = 234,
    Addze = 202,
    Subfme = 232,
    Subfze = 200,
    Neg = 104,
}

/// The upper half of a product.
#[derive(Clone, Copy, PartialEq, Eq, Debug)]
pub enum MultiplyHighOp {
    Mulhw = 75,
    Mulhwu = 11,
}

/// Logic and shifts on two registers.
#[derive(Clone, Copy, PartialEq, Eq, Debug)]
pub enum LogicalOp {
    And = 28,
    Andc = 60,
    Nand = 476,
    Or = 444,
    Orc = 412,
    Nor = 124,
    Xor = 316,
    Eqv = 284,
    Slw = 24,
    Srw = 536,
    Sraw = 792,
}

/// Logic on one register.
#[derive(Clone, Copy, PartialEq, Eq, Debug)]
pub enum LogicalUnaryOp {
    Extsb = 954,
    Extsh = 922,
    Cntlzw = 26,
}

/// Rotations under a mask.
#[derive(Clone, Copy, PartialEq, Eq, Debug)]
pub enum RotateOp {
    Rlwimi = 20,
    Rlwinm = 21,
    Rlwnm = 23,
}

/// How a comparison reads its words.
#[derive(Clone, Copy, PartialEq, Eq, Debug)]
pub enum Comparison {
    Signed = 0,
    Unsigned = 32,
}

/// Loads with a displacement or an index, with an update form.
#[derive(Clone, Copy, PartialEq, Eq, Debug)]
pub enum LoadOp {
    Lbz = 87,
    Lhz = 279,
    Lha = 343,
    Lwz = 23,
}

/// Stores with a displacement or an index, with an update form.
#[derive(Clone, Copy, PartialEq, Eq, Debug)]
pub enum StoreOp {
    Stb = 215,
    Sth = 407,
    Stw = 151,
}

/// Loads with an index only.
#[derive(Clone, Copy, PartialEq, Eq, Debug)]
pub enum LoadIndexedOp {
    Lhbrx = 790,
    Lwbrx = 534,
    Lwarx = 20,
}

/// Stores with an index only.
#[derive(Clone, Copy, PartialEq, Eq, Debug)]
pub enum StoreIndexedOp {
    Sthbrx = 918,
    Stwbrx = 662,
}

/// What is added to the base for an address: a displacement of 16 bits, or a register.
#[derive(Clone, Copy, PartialEq, Eq, Debug)]
pub enum Offset {
    Displacement(u32),
    Index(Register),
}

/// The register that a branch takes its target from.
#[derive(Clone, Copy, PartialEq, Eq, Debug)]
pub enum BranchTarget {
    Link = 16,
    Count = 528,
}

/// Logic on bits of the condition register.
#[derive(Clone, Copy, PartialEq, Eq, Debug)]
pub enum ConditionOp {
    Crand = 257,
    Crandc = 129,
    Creqv = 289,
    Crnand = 225,
    Crnor = 33,
    Cror = 449,
    Crorc = 417,
    Crxor = 193,
}

/// Moves between a general register and the condition register or the machine state.
#[derive(Clone, Copy, PartialEq, Eq, Debug)]
pub enum MoveOp {
    Mfcr = 19,
    Mfmsr = 83,
    Mtmsr = 146,
    Wrtee = 131,
}

/// Moves between a general register and a special purpose register.
#[derive(Clone, Copy, PartialEq, Eq, Debug)]
pub enum SpecialOp {
    Mfspr = 339,
    Mtspr = 467,
}

/// Reading and writing a word of a page entry.
#[derive(Clone, Copy, PartialEq, Eq, Debug)]
pub enum TlbWordOp {
    Tlbre = 946,
    Tlbwe = 978,
}

/// Instructions without operands, other than the system call.
#[derive(Clone, Copy, PartialEq, Eq, Debug)]
pub enum BareOp {
    Rfi = 50,
    Isync = 150,
    Msync = 598,
    Tlbsync = 566,
}

// Formats of one shape stay apart where a register's name differs: rt is written, rs is read, and logic writes ra.

/// addi, addis, addic, addic., subfic, mulli.
#[derive(Clone, Copy, PartialEq, Eq, Debug)]
pub struct Immediate {
    pub op: ImmediateOp,
    pub rt: Register,
    pub ra: Register,
    pub immediate: u32,
}

/// andi., andis., ori, oris, xori, xoris.
#[derive(Clone, Copy, PartialEq, Eq, Debug)]
pub struct LogicalImmediate {
    pub op: LogicalImmediateOp,
    pub ra: Register,
    pub rs: Register,
    pub immediate: u32,
}

/// cmpi, cmpli, into the condition field.
#[derive(Clone, Copy, PartialEq, Eq, Debug)]
pub struct CompareImmediate {
    pub comparison: Comparison,
    pub field: u32,
    pub ra: Register,
    pub immediate: u32,
}

/// twi, with the conditions that trap.
#[derive(Clone, Copy, PartialEq, Eq, Debug)]
pub struct TrapImmediate {
    pub conditions: u32,
    pub ra: Register,
    pub immediate: u32,
}

/// lbz, lhz, lha, lwz, with u, x and ux.
#[derive(Clone, Copy, PartialEq, Eq, Debug)]
pub struct Load {
    pub op: LoadOp,
    pub rt: Register,
    pub ra: Register,
    pub offset: Offset,
    pub update: bool,
}

/// stb, sth, stw, with u, x and ux.
#[derive(Clone, Copy, PartialEq, Eq, Debug)]
pub struct Store {
    pub op: StoreOp,
    pub rs: Register,
    pub ra: Register,
    pub offset: Offset,
    pub update: bool,
}

/// b, with AA and LK; the displacement counts words.
#[derive(Clone, Copy, PartialEq, Eq, Debug)]
pub struct Branch {
    pub displacement: u32,
    pub absolute: bool,
    pub link: bool,
}

/// bc, with AA and LK; the displacement counts words.
#[derive(Clone, Copy, PartialEq, Eq, Debug)]
pub struct BranchConditional {
    pub options: u32,
    pub bit: u32,
    pub displacement: u32,
    pub absolute: bool,
    pub link: bool,
}

/// bclr, bcctr, with LK.
#[derive(Clone, Copy, PartialEq, Eq, Debug)]
pub struct BranchRegister {
    pub target: BranchTarget,
    pub options: u32,
    pub bit: u32,
    pub link: bool,
}

/// rlwimi, rlwinm, rlwnm; the amount is a number, and a register's for rlwnm.
#[derive(Clone, Copy, PartialEq, Eq, Debug)]
pub struct Rotate {
    pub op: RotateOp,
    pub ra: Register,
    pub rs: Register,
    pub amount: u32,
    pub begin: u32,
    pub end: u32,
    pub rc: bool,
}

/// crand, crandc, creqv, crnand, crnor, cror, crorc, crxor.
#[derive(Clone, Copy, PartialEq, Eq, Debug)]
pub struct ConditionLogical {
    pub op: ConditionOp,
    pub target: u32,
    pub first: u32,
    pub second: u32,
}

/// mcrf.
#[derive(Clone, Copy, PartialEq, Eq, Debug)]
pub struct MoveConditionField {
    pub to: u32,
    pub from: u32,
}

/// add, addc, adde, subf, subfc, subfe, mullw, divw, divwu, with OE and Rc.
#[derive(Clone, Copy, PartialEq, Eq, Debug)]
pub struct Arithmetic {
    pub op: ArithmeticOp,
    pub rt: Register,
    pub ra: Register,
    pub rb: Register,
    pub oe: bool,
    pub rc: bool,
}

/// addme, addze, subfme, subfze, neg, with OE and Rc.
#[derive(Clone, Copy, PartialEq, Eq, Debug)]
pub struct ArithmeticUnary {
    pub op: ArithmeticUnaryOp,
    pub rt: Register,
    pub ra: Register,
    pub oe: bool,
    pub rc: bool,
}

/// mulhw, mulhwu, with Rc.
#[derive(Clone, Copy, PartialEq, Eq, Debug)]
pub struct MultiplyHigh {
    pub op: MultiplyHighOp,
    pub rt: Register,
    pub ra: Register,
    pub rb: Register,
    pub rc: bool,
}

/// and, andc, nand, or, orc, nor, xor, eqv, slw, srw, sraw, with Rc.
#[derive(Clone, Copy, PartialEq, Eq, Debug)]
pub struct Logical {
    pub op: LogicalOp,
    pub ra: Register,
    pub rs: Register,
    pub rb: Register,
    pub rc: bool,
}

/// extsb, extsh, cntlzw, with Rc.
#[derive(Clone, Copy, PartialEq, Eq, Debug)]
pub struct LogicalUnary {
    pub op: LogicalUnaryOp,
    pub ra: Register,
    pub rs: Register,
    pub rc: bool,
}

/// srawi, with Rc.
#[derive(Clone, Copy, PartialEq, Eq, Debug)]
pub struct ShiftRightImmediate {
    pub ra: Register,
    pub rs: Register,
    pub amount: u32,
    pub rc: bool,
}

/// isel, by a bit of the condition register.
#[derive(Clone, Copy, PartialEq, Eq, Debug)]
pub struct Select {
    pub rt: Register,
    pub ra: Register,
    pub rb: Register,
    pub bit: u32,
}

/// cmp, cmpl, into the condition field.
#[derive(Clone, Copy, PartialEq, Eq, Debug)]
pub struct Compare {
    pub comparison: Comparison,
    pub field: u32,
    pub ra: Register,
    pub rb: Register,
}

/// tw, with the conditions that trap.
#[derive(Clone, Copy, PartialEq, Eq, Debug)]
pub struct Trap {
    pub conditions: u32,
    pub ra: Register,
    pub rb: Register,
}

/// lhbrx, lwbrx, lwarx.
#[derive(Clone, Copy, PartialEq, Eq, Debug)]
pub struct LoadIndexed {
    pub op: LoadIndexedOp,
    pub rt: Register,
    pub ra: Register,
    pub rb: Register,
}

/// sthbrx, stwbrx.
#[derive(Clone, Copy, PartialEq, Eq, Debug)]
pub struct StoreIndexed {
    pub op: StoreIndexedOp,
    pub rs: Register,
    pub ra: Register,
    pub rb: Register,
}

/// stwcx.
#[derive(Clone, Copy, PartialEq, Eq, Debug)]
pub struct StoreConditional {
    pub rs: Register,
    pub ra: Register,
    pub rb: Register,
}

/// mfcr, mfmsr, mtmsr, wrtee.
#[derive(Clone, Copy, PartialEq, Eq, Debug)]
pub struct Move {
    pub op: MoveOp,
    pub register: Register,
}

/// mtcrf, with a mask of eight condition fields.
#[derive(Clone, Copy, PartialEq, Eq, Debug)]
pub struct MoveToConditionFields {
    pub mask: u32,
    pub rs: Register,
}

/// mfspr, mtspr, with the number of the special purpose register.
#[derive(Clone, Copy, PartialEq, Eq, Debug)]
pub struct MoveSpecial {
    pub op: SpecialOp,
    pub register: Register,
    pub number: u32,
}

/// tlbre, tlbwe, with the number of the word.
#[derive(Clone, Copy, PartialEq, Eq, Debug)]
pub struct TlbWord {
    pub op: TlbWordOp,
    pub register: Register,
    pub ra: Register,
    // A number and no enum, as it stands in the word: an enum would ask a caller of `encode` to rule out the others.
    pub word: u32,
}

/// tlbsx, tlbsx.
#[derive(Clone, Copy, PartialEq, Eq, Debug)]
pub struct TlbSearch {
    pub rt: Register,
    pub ra: Register,
    pub rb: Register,
    pub rc: bool,
}

/// An instruction: one case for each format.
#[derive(Clone, Copy, PartialEq, Eq, Debug)]
pub enum Instruction {
    Immediate(Immediate),
    LogicalImmediate(LogicalImmediate),
    CompareImmediate(CompareImmediate),
    TrapImmediate(TrapImmediate),
    Load(Load),
    Store(Store),
    Branch(Branch),
    BranchConditional(BranchConditional),
    BranchRegister(BranchRegister),
    /// sc.
    SystemCall,
    Rotate(Rotate),
    ConditionLogical(ConditionLogical),
    MoveConditionField(MoveConditionField),
    /// rfi, isync, msync, tlbsync.
    Bare { op: BareOp },
    Arithmetic(Arithmetic),
    ArithmeticUnary(ArithmeticUnary),
    MultiplyHigh(MultiplyHigh),
    Logical(Logical),
    LogicalUnary(LogicalUnary),
    ShiftRightImmediate(ShiftRightImmediate),
    Select(Select),
    Compare(Compare),
    Trap(Trap),
    LoadIndexed(LoadIndexed),
    StoreIndexed(StoreIndexed),
    StoreConditional(StoreConditional),
    /// mcrxr.
    MoveFromXer { field: u32 },
    Move(Move),
    /// wrteei.
    WriteExternalEnable { enable: bool },
    MoveToConditionFields(MoveToConditionFields),
    MoveSpecial(MoveSpecial),
    TlbWord(TlbWord),
    TlbSearch(TlbSearch),
    /// mbar, with its field, which has no effect.
    Barrier { ordering: u32 },
}
