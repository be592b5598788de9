//! The pieces of a text that a byte ends.

ghost use Rattle.std.specs.Prelude.{◌≡◌, ◌<◌, ◌==◌, ◌∷◌, length, IfSome};
ghost use Rattle.std.specs.List.{position};
ghost use Rattle.w4_defs.specs.Lines.{pieces};

/// The place of the first byte `mark`.
fn place_of(bytes: &[u8], mark: u8) -> Option<usize>
    ensures value { result ≡ position (λ b. b == mark) bytes.now }
    ensures within { IfSome result (λ at. at < length bytes.now) }
{
    bytes.iter().position(|b| *b == mark)
}

/// The first piece that the byte `mark` ends, which the last may lack, and the bytes after it.
pub fn first_piece(bytes: &[u8], mark: u8) -> (&[u8], &[u8])
    requires { 0 < length bytes.now }
    ensures pieces { pieces mark bytes.now ≡ result.0.now ∷ pieces mark result.1.now }
    ensures shorter { length result.1.now < length bytes.now }
{
    match place_of(bytes, mark) {
        Some(at) => (&bytes[..at], &bytes[at + 1..]),
        None => (bytes, &[]),
    }
}
