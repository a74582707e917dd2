//! Text that is written into a slice, piece after piece.
ghost use Rattle.std.specs.Prelude.{◌≡◌, ℕ, ◌+◌, ◌<◌, ◌≤◌, [], ◌∷◌, ◌++◌, length, take, drop};

/// Writes the bytes at a place, and returns the place after them.
pub(crate) fn put_bytes(out: &mut [u8], at: usize, bytes: &[u8]) -> usize
    requires { at + length bytes.now ≤ length out.old }
    ensures next { result ≡ at + length bytes.now }
    ensures written { take result out.new ≡ take at out.old ++ bytes.now }
    ensures behind { drop result out.new ≡ drop result out.old }
{
    let end = at + bytes.len();
    out[at..end].copy_from_slice(bytes);
    end
}

/// Writes one byte at a place, and returns the place after it.
pub(crate) fn put_byte(out: &mut [u8], at: usize, byte: u8) -> usize
    requires { at < length out.old }
    ensures next { result ≡ at + 1 }
    ensures written { take result out.new ≡ take at out.old ++ byte ∷ [] }
    ensures behind { drop result out.new ≡ drop result out.old }
{
    out[at] = byte;
    at + 1
}
