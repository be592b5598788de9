//! A flattened expression by itself.

ghost use Rattle.std.specs.Prelude.{◌≡◌};
ghost use Rattle.w4_defs.specs.Flattening.{IsProper, read_flat};
ghost use Rattle.w4_defs.specs.Tree.{flat};
ghost use Rattle.wasm_tree.specs.Expressions.{IsFlat};
ghost use Rattle.wasm_tree.specs.Pool.{operations_of};

use crate::marks::Marks;
use std::marker::Model;
use w4_defs::Op;

/// An expression as its flattening. A clause sees the tree.
#[derive(Debug, Drop)]
pub struct FlatExpression {
    marks: Marks,
}

impl Model for FlatExpression {
    ghost use Rattle.w4_defs.specs.Tree.{Expr};

    ghost Value = { Expr };

    ghost use Rattle.w4_defs.specs.TreeCode.{tree_code};

    ghost coded = { tree_code };

    ghost use Rattle.w4_defs.specs.Flattening.{read_flat};
    ghost use Rattle.wasm_tree.specs.Expressions.{IsFlat};

    ghost view = { λ e. read_flat e.marks };

    ghost invariant = { λ e. IsFlat e.marks };
}

impl FlatExpression {
    /// The expression whose flattening these marks are.
    pub fn new(marks: Marks) -> FlatExpression
        requires { IsFlat marks }
        ensures { result ≡ read_flat marks }
    {
        FlatExpression { marks }
    }

    /// The marks.
    pub fn marks(&self) -> &Marks
        ensures flat_marks { result.now ≡ flat self.now }
        ensures proper { IsProper self.now }
    {
        &self.marks
    }

    /// The operations of the flattening.
    pub fn ops(&self) -> &[Op]
        ensures value { result.now ≡ operations_of (flat self.now) }
        ensures proper { IsProper self.now }
    {
        self.marks().ops()
    }
}
