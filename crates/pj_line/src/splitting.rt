// Splitting the first piece off the bytes of a file.
ghost use Rattle.std.specs.Prelude.{◌≡◌, ◌<◌, ◌∷◌, length};
ghost use Rattle.pj_line.specs.Lines.{pieces};

/// The first piece of the bytes, up to a line feed or their end, and what stands behind that line feed.
/// Both are lent from the bytes, which are not empty.
pub fn first_piece(bytes: &[u8]) -> (&[u8], &[u8])
    requires { 0 < length bytes.now }
    ensures piece { pieces bytes.now ≡ result.0.now ∷ pieces result.1.now }
    ensures shorter { length result.1.now < length bytes.now }
{
    for (at, byte) in bytes.iter().enumerate() {
        if *byte == b'\n' {
            return (&bytes[..at], &bytes[at + 1..]);
        }
    }
    (bytes, &[])
}
