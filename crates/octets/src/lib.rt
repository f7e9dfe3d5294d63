//! Values of a fixed number of bytes, the most significant byte first: read from the front of
//! bytes, and put into the front of a lent buffer. Knows nothing of messages and frames.
#![tactic(auto)]

ghost use Rattle.std.specs.Prelude.{◌≡◌, ℕ, ◌+◌, ◌<◌, [], ◌∷◌, ◌++◌, List, length, MatchOption, ◌≢◌, refl};
ghost use Rattle.std.specs.Int.{w64};
ghost use Rattle.std.proofs.Common.{of_z};
ghost use Rattle.octets.specs.Numbers.{bytes_of};
ghost use Rattle.octets.specs.Puts.{Puts, PutsAt};
ghost use Rattle.octets.specs.Lengths.{length_both, length_bytes_of};

/// The number that two bytes write.
pub fn be_u16(a: u8, b: u8) -> u16
    ensures { a ∷ b ∷ [] ≡ bytes_of 2 result }
{
    u16::from_be_bytes([a, b])
}

/// The number that four bytes write.
pub fn be_u32(a: u8, b: u8, c: u8, d: u8) -> u32
    ensures { a ∷ b ∷ c ∷ d ∷ [] ≡ bytes_of 4 result }
{
    u32::from_be_bytes([a, b, c, d])
}

/// The two bytes of a number.
#[tactic(auto, using(crate::proofs::Fronts::be_2))]
pub fn u16_bytes(n: u16) -> [u8; 2]
    ensures { result ≡ bytes_of 2 n }
{
    n.to_be_bytes()
}

/// The four bytes of a number.
#[tactic(auto, using(crate::proofs::Fronts::be_4))]
pub fn u32_bytes(word: u32) -> [u8; 4]
    ensures { result ≡ bytes_of 4 word }
{
    word.to_be_bytes()
}

/// The eight bytes of a number.
#[tactic(auto, using(crate::proofs::Fronts::be_8))]
pub fn u64_bytes(long: u64) -> [u8; 8]
    ensures { result ≡ bytes_of 8 long }
{
    long.to_be_bytes()
}

/// The eight bytes of a number in two's complement.
#[tactic(auto, using(crate::proofs::Fronts::be_8))]
pub fn i64_bytes(signed: i64) -> [u8; 8]
    ensures { result ≡ bytes_of 8 (of_z w64 signed) }
{
    signed.to_be_bytes()
}

/// Puts the bytes into the buffer from the place `at` on, and returns the place after them.
/// Where they have no room, nothing is put and `at` comes back.
pub fn put(buffer: &mut [u8], at: usize, bytes: &[u8]) -> usize
    ensures { PutsAt at bytes.now result buffer.old buffer.new }
{
    let len = buffer.len();
    if at > len {
        return at;
    }
    if bytes.len() > len - at {
        return at;
    }
    let end = at + bytes.len();
    buffer[at..end].copy_from_slice(bytes);
    end
}

/// A value that takes a fixed number of bytes.
pub trait Octets: Copy {
    ghost width: { ℕ };

    ghost octets: { Self → List ℕ };

    /// The value at the front of the bytes, and the bytes after it.
    fn split(bytes: &[u8]) -> Option<(Self, &[u8])>
        ensures { MatchOption result (length bytes.now < width) (λ p. bytes.now ≡ octets p.0 ++ p.1.now) };

    /// Puts the value into the front of the buffer, and returns how many bytes it takes. Where
    /// they have no room, nothing is put.
    fn put(self, buffer: &mut [u8]) -> Option<usize>
        ensures { Puts (octets self) result buffer.old buffer.new };

    ghost sized: { (x : Self) → length (octets x) ≡ width };
}

impl Octets for u8 {
    ghost width = { 1 };

    ghost octets = { λ x. x ∷ [] };

    ghost sized = { λ x. refl };

    fn split(bytes: &[u8]) -> Option<(u8, &[u8])> {
        let (byte, rest) = bytes.split_first()?;
        Some((*byte, rest))
    }

    fn put(self, buffer: &mut [u8]) -> Option<usize> {
        put_front(buffer, &[self])
    }
}

// The numbers are alike but for their type and width. Each is written out: the length of an array is not computed
// from a type, and an impl that a macro writes has no ghost members.
impl Octets for u16 {
    ghost width = { 2 };

    ghost octets = { bytes_of 2 };

    ghost sized = { length_bytes_of 2 };

    fn split(bytes: &[u8]) -> Option<(u16, &[u8])> {
        let (front, rest) = bytes.split_first_chunk::<2>()?;
        Some((u16::from_be_bytes(*front), rest))
    }

    #[tactic(auto, using(crate::proofs::Fronts::be_2))]
    fn put(self, buffer: &mut [u8]) -> Option<usize> {
        put_front(buffer, &u16::to_be_bytes(self))
    }
}

impl Octets for u32 {
    ghost width = { 4 };

    ghost octets = { bytes_of 4 };

    ghost sized = { length_bytes_of 4 };

    fn split(bytes: &[u8]) -> Option<(u32, &[u8])> {
        let (front, rest) = bytes.split_first_chunk::<4>()?;
        Some((u32::from_be_bytes(*front), rest))
    }

    #[tactic(auto, using(crate::proofs::Fronts::be_4))]
    fn put(self, buffer: &mut [u8]) -> Option<usize> {
        put_front(buffer, &u32::to_be_bytes(self))
    }
}

impl Octets for u64 {
    ghost width = { 8 };

    ghost octets = { bytes_of 8 };

    ghost sized = { length_bytes_of 8 };

    fn split(bytes: &[u8]) -> Option<(u64, &[u8])> {
        let (front, rest) = bytes.split_first_chunk::<8>()?;
        Some((u64::from_be_bytes(*front), rest))
    }

    #[tactic(auto, using(crate::proofs::Fronts::be_8))]
    fn put(self, buffer: &mut [u8]) -> Option<usize> {
        put_front(buffer, &u64::to_be_bytes(self))
    }
}

/// In two's complement.
impl Octets for i64 {
    ghost width = { 8 };

    ghost octets = { λ z. bytes_of 8 (of_z w64 z) };

    ghost sized = { λ z. length_bytes_of 8 (of_z w64 z) };

    fn split(bytes: &[u8]) -> Option<(i64, &[u8])> {
        let (n, rest) = u64::split(bytes)?;
        Some((n.cast_signed(), rest))
    }

    fn put(self, buffer: &mut [u8]) -> Option<usize> {
        self.cast_unsigned().put(buffer)
    }
}

/// One value and then the other.
impl<A: Octets, B: Octets> Octets for (A, B) {
    ghost width = { A.width + B.width };

    ghost octets = { λ p. A.octets p.0 ++ B.octets p.1 };

    ghost sized = { λ p. length_both (A.octets p.0) (B.octets p.1) (A.sized p.0) (B.sized p.1) };

    fn split(bytes: &[u8]) -> Option<((A, B), &[u8])> {
        let (first, bytes) = A::split(bytes)?;
        let (second, bytes) = B::split(bytes)?;
        Some(((first, second), bytes))
    }

    fn put(self, buffer: &mut [u8]) -> Option<usize> {
        // Both have room, or neither is put.
        Self::split(buffer)?;
        let first = self.0.put(buffer)?;
        let second = self.1.put(&mut buffer[first..])?;
        Some(first + second)
    }
}

/// The value that takes all of the bytes.
pub fn exactly<T: Octets>(bytes: &[u8]) -> Option<T>
    ensures { MatchOption result (length bytes.now ≢ T.width) (λ x. bytes.now ≡ T.octets x) }
{
    match T::split(bytes)? {
        (value, []) => Some(value),
        _ => None,
    }
}

fn put_front(buffer: &mut [u8], bytes: &[u8]) -> Option<usize>
    ensures { Puts bytes.now result buffer.old buffer.new }
{
    let len = bytes.len();
    if buffer.len() < len {
        return None;
    }
    buffer[..len].copy_from_slice(bytes);
    Some(len)
}
