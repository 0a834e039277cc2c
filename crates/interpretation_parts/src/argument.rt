//! What an interpretation sees of terms.
ghost use Rattle.std.specs.Prelude.{◌≡◌};
ghost use Rattle.std.specs.Option.{option_copied};
ghost use Rattle.interpretation_definitions.specs.Parts.{argument, plain_name, head_name};

use nxf_base::Text;
use nxf_tree::Term;

/// The name of a term that is a plain one.
pub fn plain(term: &Term) -> Option<&Text>
    ensures { option_copied result ≡ plain_name (argument term.now) }
{
    match term {
        Term::Var(_) => None,
        Term::App(name, terms) => { if terms.len() == 0 { Some(name) } else { None } }
    }
}

/// The symbol at the head of a term.
pub fn head(term: &Term) -> Option<&Text>
    ensures { option_copied result ≡ head_name (argument term.now) }
{
    match term {
        Term::Var(_) => None,
        Term::App(name, _) => Some(name),
    }
}
