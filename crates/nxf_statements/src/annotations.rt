//! Annotations, which are dropped.

ghost use Rattle.std.specs.Prelude.{[], ◌∷◌, ◌≡◌, Some, OnOk, IfErr};
ghost use Rattle.nxf_terminals.specs.declared.sign.Sign.TheVariants as signs;
ghost use Rattle.nxf_terminals.specs.Input.{Gives};
ghost use Rattle.syntax_definitions.specs.Annotations as spec;
ghost use Rattle.syntax_definitions.specs.steps.Moves.{Moves};

use nxf_terminals::{Cursor, GrammarError, Sign, same_sign};
use std::alloc::Global;
use std::marker::Model;

/// The brackets that close the open ones.
#[derive(Drop)]
pub struct Open {
    signs: Vec<Sign>,
}

impl Model for Open {
    ghost use Rattle.std.specs.Prelude.{List, reverse};
    ghost use Rattle.nxf_terminals.specs.declared.sign.Sign.{Sign};

    ghost Value = { List Sign };

    ghost view = { λ o. reverse o.signs.items };
}

impl Open {
    fn new(alloc: Global) -> Open
        ensures { result ≡ [] }
    {
        Open {
            signs: Vec::new(alloc),
        }
    }

    fn open(&mut self, close: Sign) -> Result<(), GrammarError>
        ensures pushed { OnOk result (self.new ≡ close ∷ self.old) }
        ensures memory { IfErr result (λ e. e ≡ GrammarError.Memory) }
    {
        match self.signs.push(close) {
            Ok(()) => Ok(()),
            Err(_) => Err(GrammarError::Memory),
        }
    }

    fn close(&mut self, close: Sign) -> Result<(), GrammarError>
        ensures { Moves (spec.closed close self.old) result self.new }
    {
        match self.signs.pop() {
            Some(last) if same_sign(last, close) => Ok(()),
            _ => Err(GrammarError::Syntax(0)),
        }
    }

    fn is_last(&self, sign: Sign) -> bool
        ensures { result ≡ spec.is_last sign self.now }
    {
        match sign {
            Sign::Close => self.signs.is_empty(),
            _ => false,
        }
    }

    fn advance(&mut self, sign: Sign) -> Result<(), GrammarError>
        ensures { Moves (spec.advance sign self.old) result self.new }
    {
        match sign {
            Sign::Stop => Err(GrammarError::Syntax(0)),
            Sign::Open => self.open(Sign::Close),
            Sign::LeftBracket => self.open(Sign::RightBracket),
            Sign::LeftBrace => self.open(Sign::RightBrace),
            Sign::Close => self.close(Sign::Close),
            Sign::RightBracket => self.close(Sign::RightBracket),
            Sign::RightBrace => self.close(Sign::RightBrace),
            _ => Ok(()),
        }
    }
}

fn balance(alloc: Global, cursor: &mut Cursor<'_>) -> Result<(), GrammarError>
    ensures { Gives (spec.balance cursor.old []) result cursor.new }
{
    let mut open = Open::new(alloc);
    while cursor.len() > 0 {
        let sign = cursor.peek();
        if open.is_last(sign) {
            return Ok(());
        }
        open.advance(sign)?;
        cursor.step();
    }
    Err(GrammarError::Syntax(0))
}

/// Tokens in which brackets balance, one or more, up to the bracket that closes the statement.
#[tactic(auto, unfolding(syntax_definitions::specs::Annotations::annotation))]
pub fn annotation(alloc: Global, cursor: &mut Cursor<'_>) -> Result<(), GrammarError>
    ensures { Gives (spec.annotation cursor.old) result cursor.new }
{
    if cursor.sees(Sign::Close) {
        return Err(GrammarError::Syntax(0));
    }
    balance(alloc, cursor)
}
