//! Plain memory: the whole frames of a window of bytes.
#![tactic(auto)]

ghost use Rattle.std.specs.Prelude.{◌≡◌, ℕ, ◌+◌, ◌-◌, ◌*◌, ◌/◌, ◌%◌, ◌≤◌, [], ◌∷◌, length};
ghost use Rattle.bus.specs.Model.{IsWidth, big_endian, put_at, answered, read_of, write_of, after};
ghost use Rattle.memory.specs.Laws.{memory_lawful};
ghost use Rattle.memory.specs.Memory.{byte_of, window_denial, memory, outside, Slice, model_of, slice_of};

use bus::{ABSENT, Bus, Code, Direction, FRAME, MALFORMED, well_formed};

// The big-endian number in the `width` bytes from `place` on.
fn get(bytes: &[u8], place: usize, width: u32) -> u32
    requires { (IsWidth width) × (place + width ≤ length bytes.now) }
    ensures { result ≡ big_endian (byte_of bytes.now) place width }
{
    match (width, &bytes[place..]) {
        (1, [byte, ..]) => u32::from(*byte),
        (2, [high, low, ..]) => u32::from(u16::from_be_bytes([*high, *low])),
        (_, [a, b, c, d, ..]) => u32::from_be_bytes([*a, *b, *c, *d]),
        _ => unreachable!(),
    }
}

// Puts the value there, big-endian.
fn put(bytes: &mut [u8], place: usize, width: u32, value: u32)
    requires { (IsWidth width) × (place + width ≤ length bytes.old) }
    ensures { (k : ℕ) → byte_of bytes.new k ≡ put_at (byte_of bytes.old) place width value k }
{
    let word = value.to_be_bytes();
    match width {
        1 => bytes[place] = word[3],
        2 => bytes[place..place + 2].copy_from_slice(&word[2..]),
        _ => bytes[place..place + 4].copy_from_slice(&word),
    }
}

/// Plain memory over a slice that the caller lends: the slice is a window of real addresses that begins at the
/// frame `first`. Of its frames those are served that it holds whole and whose number is below 2^26. A write puts
/// the value there big-endian.
#[derive(Drop)]
pub struct Memory<'a> {
    first: u64,
    bytes: &'a mut [u8],
}

impl<'a> Memory<'a> {
    /// Lends the slice. Of a frame that it holds in part, at its end, no byte is served.
    pub fn new(first: u64, bytes: &'a mut [u8]) -> Self
        ensures state { model_of result ≡ memory first bytes.old }
        ensures lent { (result.first ≡ first) × (result.bytes ≡ bytes.entry) }
    {
        Memory { first, bytes }
    }

    /// The slice as it stands, while it is lent.
    pub fn bytes(&self) -> &[u8]
        ensures { result.now ≡ self.now.bytes.now }
    {
        &*self.bytes
    }

    /// Gives the slice back: the very one that was lent, with the bytes that it holds by then.
    pub fn into_bytes(self) -> &'a mut [u8]
        ensures { result ≡ self.entry.bytes }
    {
        self.bytes
    }

    // The place in the slice at which an access begins, or the code of its denial.
    fn place_of(&self, address: u64, width: u32) -> Result<usize, Code>
        ensures { result ≡ answered (window_denial self.now.first (length self.now.bytes.now) address width) (address - self.now.first * 1024) }
    {
        let frame = address / FRAME;
        if !well_formed(address, width) {
            Err(MALFORMED)
        } else if frame < self.first || frame - self.first >= self.bytes.len() as u64 / FRAME {
            Err(ABSENT)
        } else {
            Ok((address - self.first * FRAME) as usize)
        }
    }
}

impl Bus for Memory<'_> {
    ghost model = { model_of };

    ghost Loan = { Slice };

    ghost lent = { slice_of };

    fn denial(&self, _direction: Direction, address: u64, width: u32) -> Option<Code> {
        self.place_of(address, width).err()
    }

    fn read(&self, address: u64, width: u32) -> Result<u32, Code> {
        let place = self.place_of(address, width)?;
        Ok(get(self.bytes, place, width))
    }

    fn write(&mut self, address: u64, width: u32, value: u32) -> Result<(), Code> {
        let place = self.place_of(address, width)?;
        put(self.bytes, place, width, value);
        Ok(())
    }

    ghost lawful = { λ m. memory_lawful m.first m.bytes.now };
}
