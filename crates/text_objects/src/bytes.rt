//! Work on the bytes of a text in place.
ghost use Rattle.std.specs.Prelude.{◌≡◌, ◌+◌, ◌≤◌, length, drop, take, replicate, map};
ghost use Rattle.std.specs.Char.{to_ascii_uppercase, to_ascii_lowercase};
ghost use Rattle.sim_values.specs.Texts.{replaced, content_length};
ghost use Rattle.text_objects.specs.Frames.{field};

/// Makes every byte a blank.
pub fn blank(bytes: &mut [u8])
    ensures { bytes.new ≡ replicate (length bytes.old) 32 }
{
    bytes.fill(b' ');
}

/// Makes the letters `a` to `z` capitals.
pub fn upcase(bytes: &mut [u8])
    ensures { bytes.new ≡ map to_ascii_uppercase bytes.old }
{
    for byte in bytes.iter_mut() {
        *byte = byte.to_ascii_uppercase();
    }
}

/// Makes the letters `A` to `Z` small.
pub fn lowcase(bytes: &mut [u8])
    ensures { bytes.new ≡ map to_ascii_lowercase bytes.old }
{
    for byte in bytes.iter_mut() {
        *byte = byte.to_ascii_lowercase();
    }
}

/// Writes the integer at the right end with blanks before it, or stars throughout where it does not fit.
#[tactic(auto, unfolding(crate::specs::Frames::field))]
pub fn put_integer(bytes: &mut [u8], value: i64)
    ensures { bytes.new ≡ field (length bytes.old) value }
{
    let mut buffer = itoa::Buffer::new();
    let digits = buffer.format(value).as_bytes();
    if digits.len() > bytes.len() {
        bytes.fill(b'*');
    } else {
        let blanks = bytes.len() - digits.len();
        blank(&mut bytes[..blanks]);
        bytes[blanks..].copy_from_slice(digits);
    }
}

/// Copies `count` bytes from `from` on to `to` on. The bytes copied are those from before, also where the two parts overlap.
pub fn move_within(bytes: &mut [u8], from: usize, to: usize, count: usize)
    requires source { from + count ≤ length bytes.old }
    requires target { to + count ≤ length bytes.old }
    ensures { bytes.new ≡ replaced bytes.old to (take count (drop from bytes.old)) }
{
    bytes.copy_within(from..from + count, to);
}

/// How many bytes there are without trailing blanks.
pub fn content_length(bytes: &[u8]) -> usize
    ensures count { result ≡ content_length bytes.now }
    ensures within { result ≤ length bytes.now }
{
    let mut end = bytes.len();
    while end > 0 && bytes[end - 1] == b' ' {
        end -= 1;
    }
    end
}
