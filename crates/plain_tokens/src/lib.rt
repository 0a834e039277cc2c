//! Tokens as they are compared, by kind and text, and what printed pieces of text are as such tokens.
#![tactic(auto)]

ghost use Rattle.plain_tokens.specs.TokenLaws.{SameLaw, NameLaw, ObjectLaw, NumeralLaw};

/// Two tokens are the same exactly where they are equal as they are compared.
pub fn same_token_law()
    ensures { SameLaw }
{}

/// A printed name, a text in double quotes and a number in decimal digits each lex to one token, that of the name, the text
/// or the digits.
pub fn printed_token_law()
    ensures name { NameLaw }
    ensures object { ObjectLaw }
    ensures numeral { NumeralLaw }
{}
