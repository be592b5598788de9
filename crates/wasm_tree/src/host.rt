//! What the imports of a module do.

ghost use Rattle.std.specs.Prelude.{◌≡◌, ◌↔◌, IsSome, length};

use w4_defs::{Import, PageBytes};

/// A host: the weight and the effect of each import, given its arguments and the page.
pub trait Host {
    ghost use Rattle.std.specs.Prelude.{List, ℕ, ◌≡◌, IsSome, length};
    ghost use Rattle.w4_defs.specs.Imports.{import_type};
    ghost use Rattle.w4_defs.specs.Outcome.{Called};
    ghost use Rattle.w4_defs.specs.declared.console.Import.{Import};

    /// The units that a call takes besides the instruction's own.
    ghost weight: { Self → Import → List ℕ → List ℕ → ℕ };

    /// The host, the page and the answer after a call.
    ghost effect: { Self → Import → List ℕ → List ℕ → Called Self };

    /// The weight of a call with these arguments.
    fn weight(&self, name: Import, args: &[u32], page: &PageBytes) -> u64
        requires { length args.now ≡ length (import_type name).params }
        ensures { result ≡ weight self.now name args.now page.now };

    /// Calls an import; Some exactly for diskr and diskw.
    fn call(&mut self, name: Import, args: &[u32], page: &mut PageBytes) -> Option<u32>
        requires { length args.now ≡ length (import_type name).params }
        ensures host { self.new ≡ (effect self.old name args.now page.old).host }
        ensures page { page.new ≡ (effect self.old name args.now page.old).page }
        ensures answer { result ≡ (effect self.old name args.now page.old).answer }
        ensures answers { IsSome result ↔ (length (import_type name).results ≡ 1) };

    /// An import returns a number if and only if its type has a result, whatever the arguments and the page.
    ghost answers_by_type: { (host : Self) (name : Import) (args page : List ℕ)
        → IsSome (effect host name args page).answer ↔ (length (import_type name).results ≡ 1) };
}
