//! The operators and modes that signs stand for.
ghost use Rattle.std.specs.Prelude.{◌≡◌};
ghost use Rattle.syntax_definitions.specs.Operators as spec;

use nxf_terminals::Sign;
use nxf_tree::{Mode, Op};

pub fn operator(sign: Sign) -> Option<Op>
    ensures { result ≡ spec.operator sign }
{
    match sign {
        Sign::Implies => Some(Op::Implies),
        Sign::ImpliedBy => Some(Op::ImpliedBy),
        Sign::Iff => Some(Op::Iff),
        Sign::Xor => Some(Op::Xor),
        Sign::Nor => Some(Op::Nor),
        Sign::Nand => Some(Op::Nand),
        _ => None,
    }
}

/// The mode that a word names in a long form.
pub fn mode_of(sign: Sign) -> Option<Mode>
    ensures { result ≡ spec.mode_of sign }
{
    match sign {
        Sign::Boxes => Some(Mode::Box),
        Sign::Diamonds => Some(Mode::Dia),
        _ => None,
    }
}
