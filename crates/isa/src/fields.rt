//! The fields of an instruction word, and the forms by which fields make a word.
ghost use Rattle.std.specs.Prelude.{◌≡◌, ℕ, ◌<◌};
ghost use Rattle.isa.specs.Fields.{fields_of, half_form, extended_form};

/// The fields of a word: two of five bits, and the low half, which an extended form splits into a third field of five
/// bits, the extended opcode and the last bit.
#[derive(Clone, Copy)]
pub struct Fields {
    pub first: u32,
    pub second: u32,
    pub low: u32,
    pub third: u32,
    pub extended: u32,
    pub last: bool,
}

/// The fields of a word.
pub fn split(word: u32) -> Fields
    ensures { result ≡ fields_of word }
{
    let low = word % 0x1_0000;
    Fields {
        first: word / 0x20_0000 % 32,
        second: word / 0x1_0000 % 32,
        low,
        third: low / 2048,
        extended: low / 2 % 1024,
        last: low % 2 == 1,
    }
}

/// The word of a primary opcode, two fields and a low half; none where one of them is too large.
// The bound of an opcode is asked here and in `extended_form`, and promised by the methods that give one: a type of its
// own would be wrapped around each number in `encoding`, and taken off again to add an update and to make the word.
#[tactic(auto, unfolding(crate::specs::Fields::half_form))]
pub fn half_form(primary: u32, first: u32, second: u32, low: u32) -> Option<u32>
    requires { primary < 64 }
    ensures { result ≡ half_form primary first second low }
{
    (first < 32 && second < 32 && low < 0x1_0000).then(|| {
        primary * 0x400_0000 + first * 0x20_0000 + second * 0x1_0000 + low
    })
}

/// The word of a primary opcode, three fields, an extended opcode and the last bit; none where one of them is too large.
// Numbers in the order of the word, and no struct: its names, with a default for the rest, would make each call longer.
#[tactic(auto, unfolding(crate::specs::Fields::extended_form))]
pub fn extended_form(
    primary: u32,
    first: u32,
    second: u32,
    third: u32,
    extended: u32,
    last: bool,
) -> Option<u32>
    requires { primary < 64 }
    ensures { result ≡ extended_form primary first second third extended last }
{
    let low = (third < 32 && extended < 1024).then(|| {
        third * 2048 + extended * 2 + u32::from(last)
    })?;
    half_form(primary, first, second, low)
}
