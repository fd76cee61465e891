//! The instructions on the condition register.
ghost use Rattle.std.specs.Prelude.{◌≡◌, ℕ, ◌<◌};
ghost use Rattle.cpu.specs.Deeds.{Finishes};
ghost use Rattle.cpu.specs.Fields.{condition_value, condition_logical, move_condition_field, xer_field, move_from_xer, move_to_condition_fields, move_from_condition};
ghost use Rattle.cpu.specs.Registers.{next};

use crate::deed::Deed;
use crate::registers::{Working, Xer};
use isa::instruction::{
    ConditionLogical, ConditionOp, MoveConditionField, MoveToConditionFields, Register,
};
use word::condition;

/// Logic on two bits.
fn condition_value(op: ConditionOp, a: bool, b: bool) -> bool
    ensures { result ≡ condition_value op a b }
{
    match op {
        ConditionOp::Crand => a && b,
        ConditionOp::Crandc => a && !b,
        ConditionOp::Creqv => a == b,
        ConditionOp::Crnand => !(a && b),
        ConditionOp::Crnor => !(a || b),
        ConditionOp::Cror => a || b,
        ConditionOp::Crorc => a || !b,
        ConditionOp::Crxor => a != b,
    }
}

impl Xer {
    /// SO, OV, CA and 0 as a condition field.
    fn field(self) -> u32
        ensures { result ≡ xer_field self }
    {
        u32::from(self.so) * 8 + u32::from(self.ov) * 4 + u32::from(self.ca) * 2
    }
}

impl Working {
    /// crand, crandc, creqv, crnand, crnor, cror, crorc, crxor.
    pub(crate) fn condition_logical(&mut self, i: ConditionLogical) -> Deed
        ensures { Finishes result self.new (next (condition_logical i self.old)) }
    {
        let value = condition_value(
            i.op,
            condition::bit(self.cr, i.first),
            condition::bit(self.cr, i.second),
        );
        self.cr = condition::with_bit(self.cr, i.target, value);
        self.proceed()
    }

    /// mcrf.
    pub(crate) fn move_condition_field(&mut self, i: MoveConditionField) -> Deed
        ensures { Finishes result self.new (next (move_condition_field i self.old)) }
    {
        let value = condition::field(self.cr, i.from);
        self.cr = condition::with_field(self.cr, i.to, value);
        self.proceed()
    }

    /// mcrxr.
    pub(crate) fn move_from_xer(&mut self, field: u32) -> Deed
        ensures { Finishes result self.new (next (move_from_xer field self.old)) }
    {
        self.cr = condition::with_field(self.cr, field, self.xer.field());
        self.xer = Xer {
            count: self.xer.count,
            ..Xer::default()
        };
        self.proceed()
    }

    /// mtcrf.
    pub(crate) fn move_to_condition_fields(&mut self, i: MoveToConditionFields) -> Deed
        ensures { Finishes result self.new (next (move_to_condition_fields i self.old)) }
    {
        self.cr = condition::merge(self.cr, self.word(i.rs), condition::field_mask(i.mask));
        self.proceed()
    }

    /// mfcr.
    pub(crate) fn move_from_condition(&mut self, rt: Register) -> Deed
        ensures { Finishes result self.new (next (move_from_condition rt self.old)) }
    {
        self.set_word(rt, self.cr);
        self.proceed()
    }
}
