//! The arguments of an import: each is 32 bits, read as unsigned or as signed.

ghost use Rattle.std.specs.Prelude.{◌<◌, ◌≡◌, ◌≤◌, length};
ghost use Rattle.w4_defs.specs.Board.{argument, cstr_source, signed_argument, utf16_source, utf8_source};

use w4_defs::TextSource;

/// Argument `k`, unsigned.
pub(crate) fn argument(args: &[u32], k: usize) -> u32
    requires { k < length args.now }
    ensures { result ≡ argument args.now k }
{
    args[k]
}

/// Argument `k`, signed.
pub(crate) fn signed(args: &[u32], k: usize) -> i32
    requires { k < length args.now }
    ensures { result ≡ signed_argument args.now k }
{
    args[k].cast_signed()
}

/// The text up to a zero byte that begins at argument 0.
pub(crate) fn cstr(args: &[u32]) -> TextSource
    requires { 1 ≤ length args.now }
    ensures { result ≡ cstr_source args.now }
{
    TextSource::Cstr { ptr: args[0] }
}

/// The text of as many bytes as argument 1 says.
pub(crate) fn utf8(args: &[u32]) -> TextSource
    requires { 2 ≤ length args.now }
    ensures { result ≡ utf8_source args.now }
{
    TextSource::Utf8 {
        ptr: args[0],
        len: args[1],
    }
}

/// The text of 16-bit units in as many bytes as argument 1 says.
pub(crate) fn utf16(args: &[u32]) -> TextSource
    requires { 2 ≤ length args.now }
    ensures { result ≡ utf16_source args.now }
{
    TextSource::Utf16 {
        ptr: args[0],
        len: args[1],
    }
}
