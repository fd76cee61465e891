//! The names of the operations.
use isa::instruction::*;
use std::fmt;

/// A mnemonic: the name of an operation, and what its flags add to it.
#[derive(Clone, Copy)]
pub struct Mnemonic {
    name: &'static str,
    first: &'static str,
    second: &'static str,
}

impl fmt::Display for Mnemonic {
    fn fmt<W: fmt::Write>(&self, f: &mut fmt::Formatter<W>) -> fmt::Result {
        write!(f, "{}{}{}", self.name, self.first, self.second)
    }
}

/// The mnemonic of an operation that no flag changes.
fn plain(name: &'static str) -> Mnemonic {
    flagged(name, "", "")
}

/// The mnemonic of an operation and what its flags add.
fn flagged(name: &'static str, first: &'static str, second: &'static str) -> Mnemonic {
    Mnemonic {
        name,
        first,
        second,
    }
}

/// The mnemonic of a branch: `l` with a link, `a` with an absolute target.
fn branching(name: &'static str, link: bool, absolute: bool) -> Mnemonic {
    flagged(name, mark(link, "l"), mark(absolute, "a"))
}

/// The mnemonic of an operation with the OE bit, which is `o`, and the Rc bit, which is a point.
fn computing(name: &'static str, oe: bool, rc: bool) -> Mnemonic {
    flagged(name, mark(oe, "o"), mark(rc, "."))
}

/// What a flag adds to a mnemonic.
fn mark(flag: bool, text: &'static str) -> &'static str {
    if flag { text } else { "" }
}

/// What an offset adds to a mnemonic.
fn indexed(offset: Offset) -> &'static str {
    match offset {
        Offset::Displacement(_) => "",
        Offset::Index(_) => "x",
    }
}

/// An operation, which has a name: its mnemonic without what flags add.
trait Named {
    fn name(self) -> &'static str;
}

impl Mnemonic {
    /// The mnemonic of an instruction.
    pub fn of(instruction: Instruction) -> Mnemonic {
        match instruction {
            Instruction::Immediate(i) => plain(i.op.name()),
            Instruction::LogicalImmediate(i) => plain(i.op.name()),
            Instruction::CompareImmediate(i) => flagged(i.comparison.name(), "i", ""),
            Instruction::TrapImmediate(_) => plain("twi"),
            Instruction::Load(i) => flagged(i.op.name(), mark(i.update, "u"), indexed(i.offset)),
            Instruction::Store(i) => flagged(i.op.name(), mark(i.update, "u"), indexed(i.offset)),
            Instruction::Branch(i) => branching("b", i.link, i.absolute),
            Instruction::BranchConditional(i) => branching("bc", i.link, i.absolute),
            Instruction::BranchRegister(i) => branching(i.target.name(), i.link, false),
            Instruction::SystemCall => plain("sc"),
            Instruction::Rotate(i) => computing(i.op.name(), false, i.rc),
            Instruction::ConditionLogical(i) => plain(i.op.name()),
            Instruction::MoveConditionField(_) => plain("mcrf"),
            Instruction::Bare { op } => plain(op.name()),
            Instruction::Arithmetic(i) => computing(i.op.name(), i.oe, i.rc),
            Instruction::ArithmeticUnary(i) => computing(i.op.name(), i.oe, i.rc),
            Instruction::MultiplyHigh(i) => computing(i.op.name(), false, i.rc),
            Instruction::Logical(i) => computing(i.op.name(), false, i.rc),
            Instruction::LogicalUnary(i) => computing(i.op.name(), false, i.rc),
            Instruction::ShiftRightImmediate(i) => computing("srawi", false, i.rc),
            Instruction::Select(_) => plain("isel"),
            Instruction::Compare(i) => plain(i.comparison.name()),
            Instruction::Trap(_) => plain("tw"),
            Instruction::LoadIndexed(i) => plain(i.op.name()),
            Instruction::StoreIndexed(i) => plain(i.op.name()),
            Instruction::StoreConditional(_) => plain("stwcx."),
            Instruction::MoveFromXer { .. } => plain("mcrxr"),
            Instruction::Move(i) => plain(i.op.name()),
            Instruction::WriteExternalEnable { .. } => plain("wrteei"),
            Instruction::MoveToConditionFields(_) => plain("mtcrf"),
            Instruction::MoveSpecial(i) => plain(i.op.name()),
            Instruction::TlbWord(i) => plain(i.op.name()),
            Instruction::TlbSearch(i) => computing("tlbsx", false, i.rc),
            Instruction::Barrier { .. } => plain("mbar"),
        }
    }
}

impl Named for ImmediateOp {
    fn name(self) -> &'static str {
        match self {
            ImmediateOp::Addi => "addi",
            ImmediateOp::Addis => "addis",
            ImmediateOp::Addic => "addic",
            ImmediateOp::AddicRecord => "addic.",
            ImmediateOp::Subfic => "subfic",
            ImmediateOp::Mulli => "mulli",
        }
    }
}

impl Named for LogicalImmediateOp {
    fn name(self) -> &'static str {
        match self {
            LogicalImmediateOp::AndiRecord => "andi.",
            LogicalImmediateOp::AndisRecord => "andis.",
            LogicalImmediateOp::Ori => "ori",
            LogicalImmediateOp::Oris => "oris",
            LogicalImmediateOp::Xori => "xori",
            LogicalImmediateOp::Xoris => "xoris",
        }
    }
}

impl Named for Comparison {
    fn name(self) -> &'static str {
        match self {
            Comparison::Signed => "cmp",
            Comparison::Unsigned => "cmpl",
        }
    }
}

impl Named for LoadOp {
    fn name(self) -> &'static str {
        match self {
            LoadOp::Lbz => "lbz",
            LoadOp::Lhz => "lhz",
            LoadOp::Lha => "lha",
            LoadOp::Lwz => "lwz",
        }
    }
}

impl Named for StoreOp {
    fn name(self) -> &'static str {
        match self {
            StoreOp::Stb => "stb",
            StoreOp::Sth => "sth",
            StoreOp::Stw => "stw",
        }
    }
}

impl Named for BranchTarget {
    fn name(self) -> &'static str {
        match self {
            BranchTarget::Link => "bclr",
            BranchTarget::Count => "bcctr",
        }
    }
}

impl Named for RotateOp {
    fn name(self) -> &'static str {
        match self {
            RotateOp::Rlwimi => "rlwimi",
            RotateOp::Rlwinm => "rlwinm",
            RotateOp::Rlwnm => "rlwnm",
        }
    }
}

impl Named for ConditionOp {
    fn name(self) -> &'static str {
        match self {
            ConditionOp::Crand => "crand",
            ConditionOp::Crandc => "crandc",
            ConditionOp::Creqv => "creqv",
            ConditionOp::Crnand => "crnand",
            ConditionOp::Crnor => "crnor",
            ConditionOp::Cror => "cror",
            ConditionOp::Crorc => "crorc",
            ConditionOp::Crxor => "crxor",
        }
    }
}

impl Named for BareOp {
    fn name(self) -> &'static str {
        match self {
            BareOp::Rfi => "rfi",
            BareOp::Isync => "isync",
            BareOp::Msync => "msync",
            BareOp::Tlbsync => "tlbsync",
        }
    }
}

impl Named for ArithmeticOp {
    fn name(self) -> &'static str {
        match self {
            ArithmeticOp::Add => "add",
            ArithmeticOp::Addc => "addc",
            ArithmeticOp::Adde => "adde",
            ArithmeticOp::Subf => "subf",
            ArithmeticOp::Subfc => "subfc",
            ArithmeticOp::Subfe => "subfe",
            ArithmeticOp::Mullw => "mullw",
            ArithmeticOp::Divw => "divw",
            ArithmeticOp::Divwu => "divwu",
        }
    }
}

impl Named for ArithmeticUnaryOp {
    fn name(self) -> &'static str {
        match self {
            ArithmeticUnaryOp::Addme => "addme",
            ArithmeticUnaryOp::Addze => "addze",
            ArithmeticUnaryOp::Subfme => "subfme",
            ArithmeticUnaryOp::Subfze => "subfze",
            ArithmeticUnaryOp::Neg => "neg",
        }
    }
}

impl Named for MultiplyHighOp {
    fn name(self) -> &'static str {
        match self {
            MultiplyHighOp::Mulhw => "mulhw",
            MultiplyHighOp::Mulhwu => "mulhwu",
        }
    }
}

impl Named for LogicalOp {
    fn name(self) -> &'static str {
        match self {
            LogicalOp::And => "and",
            LogicalOp::Andc => "andc",
            LogicalOp::Nand => "nand",
            LogicalOp::Or => "or",
            LogicalOp::Orc => "orc",
            LogicalOp::Nor => "nor",
            LogicalOp::Xor => "xor",
            LogicalOp::Eqv => "eqv",
            LogicalOp::Slw => "slw",
            LogicalOp::Srw => "srw",
            LogicalOp::Sraw => "sraw",
        }
    }
}

impl Named for LogicalUnaryOp {
    fn name(self) -> &'static str {
        match self {
            LogicalUnaryOp::Extsb => "extsb",
            LogicalUnaryOp::Extsh => "extsh",
            LogicalUnaryOp::Cntlzw => "cntlzw",
        }
    }
}

impl Named for LoadIndexedOp {
    fn name(self) -> &'static str {
        match self {
            LoadIndexedOp::Lhbrx => "lhbrx",
            LoadIndexedOp::Lwbrx => "lwbrx",
            LoadIndexedOp::Lwarx => "lwarx",
        }
    }
}

impl Named for StoreIndexedOp {
    fn name(self) -> &'static str {
        match self {
            StoreIndexedOp::Sthbrx => "sthbrx",
            StoreIndexedOp::Stwbrx => "stwbrx",
        }
    }
}

impl Named for MoveOp {
    fn name(self) -> &'static str {
        match self {
            MoveOp::Mfcr => "mfcr",
            MoveOp::Mfmsr => "mfmsr",
            MoveOp::Mtmsr => "mtmsr",
            MoveOp::Wrtee => "wrtee",
        }
    }
}

impl Named for SpecialOp {
    fn name(self) -> &'static str {
        match self {
            SpecialOp::Mfspr => "mfspr",
            SpecialOp::Mtspr => "mtspr",
        }
    }
}

impl Named for TlbWordOp {
    fn name(self) -> &'static str {
        match self {
            TlbWordOp::Tlbre => "tlbre",
            TlbWordOp::Tlbwe => "tlbwe",
        }
    }
}
