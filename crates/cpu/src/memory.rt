//! The loads and stores on the working registers.
ghost use Rattle.std.specs.Prelude.{◌≡◌, ℕ, ◌<◌, Bool, false};
ghost use Rattle.isa.specs.declared.instruction.Offset.TheVariants.{Index};
ghost use Rattle.cpu.specs.declared.deed.Conversion.{Conversion};
ghost use Rattle.cpu.specs.Registers.{gpr_of};
ghost use Rattle.cpu.specs.Kept.{Kept};
ghost use Rattle.cpu.specs.Memory.{offset_of, address_of, updating, updated, load_width, load_conversion, converted, loading, indexed_width, indexed_conversion, reserves, loading_indexed, received, store_width, store_value, storing, indexed_store_width, indexed_store_value, storing_indexed, storing_conditional, settled, stored};

use crate::deed::{Conversion, Loading, Storing};
use crate::registers::Working;
use isa::instruction::{
    Load, LoadIndexed, LoadIndexedOp, LoadOp, Offset, Register, Store, StoreConditional,
    StoreIndexed, StoreIndexedOp, StoreOp,
};
use word::sign::{extend, reverse, reverse_half};

/// A kind of load: how many bytes it reads, how they become a word, and whether it sets the reservation.
trait LoadKind: Copy {
    ghost width_of: { Self → ℕ };

    ghost conversion_of: { Self → Conversion };

    ghost reserving: { Self → Bool };

    fn width(self) -> u32
        ensures { result ≡ width_of self };

    fn conversion(self) -> Conversion
        ensures { result ≡ conversion_of self };

    fn reserves(self) -> bool
        ensures { result ≡ reserving self };
}

impl LoadKind for LoadOp {
    ghost width_of = { load_width };

    ghost conversion_of = { load_conversion };

    ghost reserving = { λ _. false };

    fn width(self) -> u32 {
        match self {
            LoadOp::Lbz => 1,
            LoadOp::Lhz | LoadOp::Lha => 2,
            LoadOp::Lwz => 4,
        }
    }

    fn conversion(self) -> Conversion {
        match self {
            LoadOp::Lbz | LoadOp::Lhz | LoadOp::Lwz => Conversion::Plain,
            LoadOp::Lha => Conversion::SignedHalf,
        }
    }

    fn reserves(self) -> bool {
        false
    }
}

impl LoadKind for LoadIndexedOp {
    ghost width_of = { indexed_width };

    ghost conversion_of = { indexed_conversion };

    ghost reserving = { reserves };

    fn width(self) -> u32 {
        match self {
            LoadIndexedOp::Lhbrx => 2,
            LoadIndexedOp::Lwbrx | LoadIndexedOp::Lwarx => 4,
        }
    }

    fn conversion(self) -> Conversion {
        match self {
            LoadIndexedOp::Lhbrx => Conversion::ReversedHalf,
            LoadIndexedOp::Lwbrx => Conversion::ReversedWord,
            LoadIndexedOp::Lwarx => Conversion::Plain,
        }
    }

    fn reserves(self) -> bool {
        matches!(self, LoadIndexedOp::Lwarx)
    }
}

/// A kind of store: how many bytes it writes, and what they are of a register's word.
trait StoreKind: Copy {
    ghost width_of: { Self → ℕ };

    ghost value_of: { Self → ℕ → ℕ };

    fn width(self) -> u32
        ensures { result ≡ width_of self };

    fn value(self, word: u32) -> u32
        ensures { result ≡ value_of self word };
}

impl StoreKind for StoreOp {
    ghost width_of = { store_width };

    ghost value_of = { store_value };

    fn width(self) -> u32 {
        match self {
            StoreOp::Stb => 1,
            StoreOp::Sth => 2,
            StoreOp::Stw => 4,
        }
    }

    fn value(self, word: u32) -> u32 {
        match self {
            StoreOp::Stb => word % 0x100,
            StoreOp::Sth => word % 0x1_0000,
            StoreOp::Stw => word,
        }
    }
}

impl StoreKind for StoreIndexedOp {
    ghost width_of = { indexed_store_width };

    ghost value_of = { indexed_store_value };

    fn width(self) -> u32 {
        match self {
            StoreIndexedOp::Sthbrx => 2,
            StoreIndexedOp::Stwbrx => 4,
        }
    }

    fn value(self, word: u32) -> u32 {
        match self {
            StoreIndexedOp::Sthbrx => reverse_half(word),
            StoreIndexedOp::Stwbrx => reverse(word),
        }
    }
}

// Loads and stores build it from the same fields of two types: a constructor would take the same three.
/// Where an access is made: a base register, what is added to it, and whether the base register gets the address.
#[derive(Clone, Copy)]
struct Place {
    base: Register,
    offset: Offset,
    update: bool,
}

impl Place {
    /// A base and an index, without update.
    fn indexed(base: Register, index: Register) -> Place
        ensures base { result.base ≡ base }
        ensures offset { result.offset ≡ Index index }
        ensures update { result.update ≡ false }
    {
        Place {
            base,
            offset: Offset::Index(index),
            update: false,
        }
    }

    /// The register that gets the address.
    fn updating(self) -> Option<Register>
        ensures { result ≡ updating self.update self.base }
    {
        self.update.then_some(self.base)
    }
}

impl Conversion {
    /// The word that a loaded value becomes.
    fn apply(self, x: u32) -> u32
        ensures { result ≡ converted self x }
    {
        match self {
            Conversion::Plain => x,
            Conversion::SignedHalf => extend::<16>(x),
            Conversion::ReversedHalf => reverse_half(x),
            Conversion::ReversedWord => reverse(x),
        }
    }
}

impl Working {
    /// What is added to a base.
    fn offset(&self, offset: Offset) -> u32
        ensures { result ≡ offset_of self.now offset }
    {
        match offset {
            Offset::Displacement(d) => extend::<16>(d),
            Offset::Index(rb) => self.word(rb),
        }
    }

    /// An effective address.
    pub(crate) fn address(&self, ra: Register, offset: Offset) -> u32
        ensures { result ≡ address_of self.now ra offset }
    {
        self.base(ra).wrapping_add(self.offset(offset))
    }

    /// A load of any kind.
    fn load<K: LoadKind>(&self, kind: K, rt: Register, place: Place) -> Loading
        ensures address { result.address ≡ address_of self.now place.base place.offset }
        ensures width { result.width ≡ K.width_of kind }
        ensures target { result.rt ≡ rt }
        ensures conversion { result.conversion ≡ K.conversion_of kind }
        ensures update { result.update ≡ updating place.update place.base }
        ensures reserve { result.reserve ≡ K.reserving kind }
    {
        Loading {
            address: self.address(place.base, place.offset),
            width: kind.width(),
            rt,
            conversion: kind.conversion(),
            update: place.updating(),
            reserve: kind.reserves(),
        }
    }

    /// The load of lbz, lhz, lha, lwz and their forms.
    pub(crate) fn loading(&self, i: Load) -> Loading
        ensures { result ≡ loading i self.now }
    {
        let place = Place {
            base: i.ra,
            offset: i.offset,
            update: i.update,
        };
        self.load(i.op, i.rt, place)
    }

    /// The load of lhbrx, lwbrx and lwarx.
    pub(crate) fn loading_indexed(&self, i: LoadIndexed) -> Loading
        ensures { result ≡ loading_indexed i self.now }
    {
        self.load(i.op, i.rt, Place::indexed(i.ra, i.rb))
    }

    /// A store of any kind.
    fn store<K: StoreKind>(&self, kind: K, rs: Register, place: Place) -> Storing
        ensures address { result.address ≡ address_of self.now place.base place.offset }
        ensures width { result.width ≡ K.width_of kind }
        ensures value { result.value ≡ K.value_of kind (gpr_of self.now rs) }
        ensures update { result.update ≡ updating place.update place.base }
        ensures conditional { result.conditional ≡ false }
    {
        Storing {
            address: self.address(place.base, place.offset),
            width: kind.width(),
            value: kind.value(self.word(rs)),
            update: place.updating(),
            conditional: false,
        }
    }

    /// The store of stb, sth, stw and their forms.
    pub(crate) fn storing(&self, i: Store) -> Storing
        ensures { result ≡ storing i self.now }
    {
        let place = Place {
            base: i.ra,
            offset: i.offset,
            update: i.update,
        };
        self.store(i.op, i.rs, place)
    }

    /// The store of sthbrx and stwbrx.
    pub(crate) fn storing_indexed(&self, i: StoreIndexed) -> Storing
        ensures { result ≡ storing_indexed i self.now }
    {
        self.store(i.op, i.rs, Place::indexed(i.ra, i.rb))
    }

    /// The store of stwcx.
    pub(crate) fn storing_conditional(&self, i: StoreConditional) -> Storing
        ensures { result ≡ storing_conditional i self.now }
    {
        Storing {
            conditional: true,
            ..self.store(StoreOp::Stw, i.rs, Place::indexed(i.ra, i.rb))
        }
    }

    /// The address to the base register of an update form.
    fn update(&mut self, register: Option<Register>, address: u32)
        ensures { self.new ≡ updated register address self.old }
    {
        if let Some(ra) = register {
            self.set_word(ra, address);
        }
    }

    // `Kept` stands in the clauses and not in the type: anyone may build `Working`, with any counter.
    /// A load's end, once its value is there.
    #[tactic(auto, unfolding(crate::specs::Memory::received))]
    pub fn receive(&mut self, loading: Loading, value: u32)
        ensures after { self.new ≡ received loading value self.old }
        ensures kept { Kept self.old → Kept self.new }
    {
        self.update(loading.update, loading.address);
        self.set_word(loading.rt, loading.conversion.apply(value));
        self.reserved = self.reserved || loading.reserve;
        self.advance();
    }

    /// A conditional store's end: whether it stored.
    #[tactic(auto, unfolding(crate::specs::Memory::settled))]
    pub fn settle(&mut self, stored: bool)
        ensures after { self.new ≡ settled stored self.old }
        ensures kept { Kept self.old → Kept self.new }
    {
        self.record_answer(stored);
        self.reserved = false;
        self.advance();
    }

    /// A store's end, once it is made.
    #[tactic(auto, unfolding(crate::specs::Memory::stored))]
    pub fn conclude(&mut self, storing: Storing)
        ensures after { self.new ≡ stored storing self.old }
        ensures kept { Kept self.old → Kept self.new }
    {
        if storing.conditional {
            self.settle(true);
        } else {
            self.update(storing.update, storing.address);
            self.advance();
        }
    }
}
