//! Copying bytes between pieces of different lengths.
ghost use Rattle.std.specs.Prelude.{◌≡◌, length, take, min};

/// Copies as many of the first bytes as there is room for, `most` at the most, and says how many.
pub fn copy_front(from: &[u8], into: &mut [u8], most: usize) -> usize
    ensures count { result ≡ min (min (length from.now) (length into.old)) most }
    ensures same { take result into.new ≡ take result from.now }
{
    let count = from.len().min(into.len()).min(most);
    into[..count].copy_from_slice(&from[..count]);
    count
}
