//! Rules of exports (Core Specification, section 3.4).

ghost use Rattle.std.specs.Bool.{Decides};
ghost use Rattle.std.specs.Prelude.{◌<◌, ◌≡◌, ◌≢◌, All, AllPairs, length, slice_get, take, IfSome};
ghost use Rattle.w4_defs.specs.Validity.{Exists};
ghost use Rattle.wasm_valid.specs.Counting.{AreCounts, count_of};

use crate::counts::Counts;
use crate::rule::{Rule, all};
use w4_defs::{Export, ExportKind};
use wasm_tree::Code;

/// Whether the index of each export names something.
pub fn name_what_exists(code: &Code, counts: Counts) -> bool
    requires { AreCounts counts code.now }
    ensures { Decides result (All (λ e. Exists code.now e.kind e.index) code.now.exports) }
{
    all(&IsThere { counts }, code.exports())
}

/// Whether no two exports have one name.
pub fn have_names_apart(exports: &[Export]) -> bool
    ensures { Decides result (AllPairs (λ e f. e.name ≢ f.name) exports.now) }
{
    for i in 0..exports.len() {
        if !is_apart(exports, i) {
            return false;
        }
    }
    true
}

/// Whether no export before this one has its name.
fn is_apart(exports: &[Export], i: usize) -> bool
    requires { i < length exports.now }
    ensures { IfSome (slice_get exports.now i)
        (λ f. Decides result (All (λ e. e.name ≢ f.name) (take i exports.now))) }
{
    let export = &exports[i];
    let name = &export.name[..];
    all(&IsOther { name }, &exports[..i])
}

#[derive(Drop)]
struct IsThere {
    counts: Counts,
}

impl Rule<Export> for IsThere {
    ghost use Rattle.wasm_valid.specs.Counting.{IsCounted};

    ghost keeps_rule = { λ r e. IsCounted r.counts e.kind e.index };

    fn keeps_rule(&self, export: &Export) -> bool {
        (export.index as usize) < count_of(self.counts, export.kind)
    }
}

fn count_of(counts: Counts, kind: ExportKind) -> usize
    ensures { result ≡ count_of counts kind }
{
    match kind {
        ExportKind::Func => counts.functions,
        ExportKind::Table => counts.tables,
        ExportKind::Memory => counts.memories,
        ExportKind::Global => counts.globals,
    }
}

/// An export with another name.
#[derive(Drop)]
struct IsOther<'a> {
    name: &'a [u8],
}

impl<'a> Rule<Export> for IsOther<'a> {
    ghost use Rattle.std.specs.Prelude.{◌≢◌};

    ghost keeps_rule = { λ r e. e.name ≢ r.name.now };

    fn keeps_rule(&self, export: &Export) -> bool {
        &export.name[..] != self.name
    }
}
