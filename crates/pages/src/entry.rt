// A page entry and its words.
ghost use Rattle.std.specs.Prelude.{◌≡◌, Decides};
ghost use Rattle.pages.specs.Entries.{kept_of, Kept, word_of, rewritten};
ghost use Rattle.pages.specs.Words.{word_numbered};

use std::error::Error;
use std::fmt;

/// A page entry. Some bits of its words have no meaning, and an entry of the table holds zeros there.
#[derive(Clone, Copy, PartialEq, Eq, Default, Debug)]
pub struct Entry {
    /// TID, the process that the page belongs to, or 0 for a page of all processes.
    pub tid: u32,
    /// The page and its size: EPN, V, TS, SIZE.
    pub word0: u32,
    /// Where the page lies in real memory: RPN, ERPN.
    pub word1: u32,
    /// Attributes and access rights.
    pub word2: u32,
}

/// A word of an entry, as the WS field of tlbre and tlbwe names it.
#[derive(Clone, Copy, PartialEq, Eq, Debug)]
pub enum Word {
    /// WS 0: the page and its size.
    PageId,
    /// WS 1: the real page.
    Xlat,
    /// WS 2: attributes and access rights.
    Attrib,
}

/// An entry has only three words.
#[derive(Clone, Copy, PartialEq, Eq, Debug)]
pub struct NoSuchWord;

impl fmt::Display for NoSuchWord {
    fn fmt<W: fmt::Write>(&self, f: &mut fmt::Formatter<W>) -> fmt::Result {
        write!(f, "a page entry has only the words 0 to 2")
    }
}

impl Error for NoSuchWord {}

impl TryFrom<u32> for Word {
    type Error = NoSuchWord;

    ghost try_from_gives = { λ ws r. r ≡ word_numbered ws };

    /// The word that a WS field names.
    fn try_from(ws: u32) -> Result<Word, NoSuchWord> {
        match ws {
            0 => Ok(Word::PageId),
            1 => Ok(Word::Xlat),
            2 => Ok(Word::Attrib),
            _ => Err(NoSuchWord),
        }
    }
}

impl Entry {
    /// The bits that an entry keeps of its TID.
    pub const TID_BITS: u32 = 0xFF;

    /// The bits that it keeps of its first word.
    pub const WORD0_BITS: u32 = 0xFFFF_FFF0;

    /// The bits that it keeps of its second word.
    pub const WORD1_BITS: u32 = 0xFFFF_FC0F;

    /// The bits that it keeps of its third word.
    pub const WORD2_BITS: u32 = 0xFFBF;

    /// The entry with only the bits that an entry keeps.
    #[tactic(auto, using(std::proofs::lemmas::Nat::and_assoc))]
    pub(crate) fn kept(self) -> Entry
        ensures value { result ≡ kept_of self }
        ensures kept { Kept result }
    {
        Entry {
            tid: self.tid & Entry::TID_BITS,
            word0: self.word0 & Entry::WORD0_BITS,
            word1: self.word1 & Entry::WORD1_BITS,
            word2: self.word2 & Entry::WORD2_BITS,
        }
    }

    /// Whether all bits that are set are bits that an entry keeps.
    pub fn is_kept(&self) -> bool
        ensures { Decides result (Kept self.now) }
    {
        *self == self.kept()
    }

    /// One of the three words.
    pub fn word(&self, word: Word) -> u32
        ensures { result ≡ word_of self.now word }
    {
        match word {
            Word::PageId => self.word0,
            Word::Xlat => self.word1,
            Word::Attrib => self.word2,
        }
    }

    /// Rewrites one of the three words, and with the first one the TID. Bits that an entry does not keep are dropped.
    #[tactic(auto, using(std::proofs::lemmas::Nat::and_assoc))]
    pub(crate) fn rewrite(&mut self, word: Word, value: u32, tid: u32)
        ensures value { self.new ≡ rewritten self.old word value tid }
        ensures kept { Kept self.old → Kept self.new }
    {
        match word {
            Word::PageId => {
                self.word0 = value & Entry::WORD0_BITS;
                self.tid = tid & Entry::TID_BITS;
            }
            Word::Xlat => self.word1 = value & Entry::WORD1_BITS,
            Word::Attrib => self.word2 = value & Entry::WORD2_BITS,
        }
    }
}
