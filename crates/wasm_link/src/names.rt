//! The names of the functions that a cart may import.

ghost use Rattle.std.specs.Prelude.{◌≡◌, drop};
ghost use Rattle.w4_defs.specs.ImportNames.{import_named, import_names, named_in};

use w4_defs::Import;

/// The import that is written with this module's name and this name; None where there is none.
pub fn import_named(origin: &[u8], name: &[u8]) -> Option<Import>
    ensures { result ≡ import_named origin.now name.now }
{
    if origin == b"env".as_slice() {
        shape_named(name)
    } else {
        None
    }
}

fn shape_named(name: &[u8]) -> Option<Import>
    ensures { result ≡ named_in import_names name.now }
{
    if b"blit".as_slice() == name {
        return Some(Import::Blit);
    }
    if b"blitSub".as_slice() == name {
        return Some(Import::BlitSub);
    }
    if b"line".as_slice() == name {
        return Some(Import::Line);
    }
    if b"hline".as_slice() == name {
        return Some(Import::Hline);
    }
    if b"vline".as_slice() == name {
        return Some(Import::Vline);
    }
    if b"oval".as_slice() == name {
        return Some(Import::Oval);
    }
    if b"rect".as_slice() == name {
        return Some(Import::Rect);
    }
    text_named(name)
}

fn text_named(name: &[u8]) -> Option<Import>
    ensures { result ≡ named_in (drop 7 import_names) name.now }
{
    if b"text".as_slice() == name {
        return Some(Import::Text);
    }
    if b"textUtf8".as_slice() == name {
        return Some(Import::TextUtf8);
    }
    if b"textUtf16".as_slice() == name {
        return Some(Import::TextUtf16);
    }
    if b"tone".as_slice() == name {
        return Some(Import::Tone);
    }
    if b"diskr".as_slice() == name {
        return Some(Import::Diskr);
    }
    if b"diskw".as_slice() == name {
        return Some(Import::Diskw);
    }
    trace_named(name)
}

fn trace_named(name: &[u8]) -> Option<Import>
    ensures { result ≡ named_in (drop 13 import_names) name.now }
{
    if b"trace".as_slice() == name {
        return Some(Import::Trace);
    }
    if b"traceUtf8".as_slice() == name {
        return Some(Import::TraceUtf8);
    }
    if b"traceUtf16".as_slice() == name {
        return Some(Import::TraceUtf16);
    }
    if b"tracef".as_slice() == name {
        return Some(Import::Tracef);
    }
    None
}
