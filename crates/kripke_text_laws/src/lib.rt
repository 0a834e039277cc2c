//! Laws of the texts of Kripke structures.
#![tactic(auto)]

ghost use Rattle.kripke_text_laws.specs.KripkeTextLaws.{CutLaw, EqualLaw, LexLaw, NoRefusalLaw, OneRefusalLaw, PrefixLaw};

/// Over one signature no canonical token list is a proper prefix of another.
pub fn prefix_law()
    ensures { PrefixLaw }
{}

/// Over one signature two structures with equal token lists are equal.
pub fn equal_law()
    ensures { EqualLaw }
{}

/// Of a token list at most one refusal holds, want of memory apart, and of the text of a structure within the limits none.
pub fn refusals_law()
    ensures one { OneRefusalLaw }
    ensures none { NoRefusalLaw }
{}

/// Over a well-formed signature the text of a structure lexes to its tokens.
pub fn lex_law()
    ensures { LexLaw }
{}

/// A canonical text that is cut after some of its tokens is refused at the statement behind the last that stands whole. Where
/// the head is whole, this holds if the head is within the limits.
pub fn cut_law()
    ensures { CutLaw }
{}
