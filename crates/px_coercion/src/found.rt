//! What is found at a place of an expression.
ghost use Rattle.std.specs.Prelude.{◌≡◌};
ghost use Rattle.px_meaning.specs.Signatures.{own_type};
ghost use Rattle.px_meaning.specs.Check.{operand_of};
ghost use Rattle.px_coercion.specs.Found.{seen, read};

use px_expr::Expr;
use px_types::{ValueType, default_type};

/// An input with its type, or an integer literal that has none.
#[derive(Clone, Copy)]
pub enum Operand {
    OfType(ValueType),
    UntypedInteger(i128),
}

/// A checked expression with its type, or an integer literal whose type the node above decides.
#[derive(Drop)]
pub enum Found {
    Typed(Expr, ValueType),
    Untyped(i128),
}

impl Found {
    /// What a signature reads of it.
    pub fn operand(&self) -> Operand
        ensures { read result ≡ operand_of (seen self.now) }
    {
        match self {
            Found::Typed(_, value_type) => Operand::OfType(*value_type),
            Found::Untyped(v) => Operand::UntypedInteger(*v),
        }
    }
}

impl Operand {
    /// Its type where no other operand decides it.
    pub fn own_type(self) -> Option<ValueType>
        ensures { result ≡ own_type (read self) }
    {
        match self {
            Operand::OfType(value_type) => Some(value_type),
            Operand::UntypedInteger(v) => default_type(v),
        }
    }
}
