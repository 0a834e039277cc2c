//! Cuts the tokens into statement parts, and reads a statement from each.

ghost use Rattle.std.specs.Prelude.{[], ◌≡◌, ◌<◌, ◌≤◌, ◌^◌, ◌-◌, ◌+◌, ◌*◌, ℕ, List, length, All, Ok, Err, IfOk, IfErr};
ghost use Rattle.tptp_lex.specs.declared.token.Token.{Token};
ghost use Rattle.tptp_lex.specs.Lexing.{Lexes, IsSpan};
ghost use Rattle.nxf_terminals.specs.Input as input;
ghost use Rattle.nxf_terminals.specs.Input.{IsUnlessMemory};
ghost use Rattle.nxf_tree.specs.declared.profile.Profile.{Profile};
ghost use Rattle.nxf_tree.specs.declared.tree.File.{File};
ghost use Rattle.nxf_tree.specs.declared.tree.Statement.{Statement};
ghost use Rattle.syntax_definitions.specs.steps.ReadStatements.{read_statement};
ghost use Rattle.syntax_definitions.specs.steps.ReadFiles as spec;
ghost use Rattle.syntax_definitions.specs.Levels.{file_levels};
ghost use Rattle.nxf_tree.specs.Profiles as profiles;
ghost use Rattle.nxf_tree.specs.FileDepth.{file_depth};
ghost use Rattle.nxf_tree.specs.Weight.{file_weight};
ghost use Rattle.nxf_tree.specs.Regular.{IsRegular};
ghost use Rattle.syntax_definitions.specs.Spells.{statement_parts_of, TokensSpell, IsFirstFault, Spells, IsCause};

use nxf_base::List;
use nxf_statements::statement;
use nxf_terminals::{Cursor, GrammarError, Profile, Sign, push};
use nxf_tree::{File, Statement};
use std::alloc::Global;
use tptp_lex::{Token, Tokens, spans_in_order};

/// How many tokens the first part has.
fn first_len(profile: Profile, bytes: &[u8], tokens: &[Token]) -> usize
    requires { All (IsSpan (length bytes.now)) tokens.now }
    ensures value { result ≡ spec.first_len (input.input_of profile bytes.now tokens.now) }
    ensures within { result ≤ length tokens.now }
    ensures some { 0 < length tokens.now → 0 < result }
{
    let mut cursor = Cursor::new(profile, bytes, tokens);
    let mut len = 0;
    while cursor.len() > 0 {
        len += 1;
        if cursor.sees(Sign::Stop) {
            return len;
        }
        cursor.step();
    }
    len
}

/// The statement that a part spells, all of it.
fn part(
    alloc: Global,
    bytes: &[u8],
    tokens: &[Token],
    profile: Profile,
    number: u32,
) -> Result<Statement, GrammarError>
    requires { All (IsSpan (length bytes.now)) tokens.now }
    ensures { let one = read_statement (profiles.has_includes profile) (profiles.most_arguments profile) (profiles.levels_of profile) in
        spec.AnswersPart (spec.whole (one (input.input_of profile bytes.now tokens.now))) number result }
{
    let levels = levels_of(profile);
    let most = most_arguments(profile);
    let mut cursor = Cursor::new(profile, bytes, tokens);
    match statement(alloc, &mut cursor, has_includes(profile), levels, most) {
        Ok(found) if cursor.len() == 0 => Ok(found),
        Ok(_) => Err(GrammarError::Syntax(number)),
        Err(GrammarError::Syntax(_)) => Err(GrammarError::Syntax(number)),
        Err(GrammarError::Memory) => Err(GrammarError::Memory),
    }
}

fn parts(
    alloc: Global,
    bytes: &[u8],
    tokens: &[Token],
    profile: Profile,
) -> Result<List<Statement>, GrammarError>
    requires within { All (IsSpan (length bytes.now)) tokens.now }
    requires few { length tokens.now < 2 ^ 32 }
    ensures { let one = read_statement (profiles.has_includes profile) (profiles.most_arguments profile) (profiles.levels_of profile) in
        spec.Answers (spec.read_parts one (statement_parts_of profile bytes.now tokens.now) 1 []) result }
{
    let mut found = List::new(alloc);
    let mut rest = tokens;
    let mut number: u32 = 0;
    while rest.len() > 0 {
        number += 1;
        let (first, others) = rest.split_at(first_len(profile, bytes, rest));
        push(&mut found, part(alloc, bytes, first, profile, number)?)?;
        rest = others;
    }
    Ok(found)
}

#[tactic(auto, unfolding(nxf_tree::specs::Profiles::most_arguments))]
fn most_arguments(profile: Profile) -> usize
    ensures { result ≡ profiles.most_arguments profile }
{
    match profile {
        Profile::Problem => 1000,
        _ => 1001,
    }
}

#[tactic(auto, unfolding(nxf_tree::specs::Profiles::greatest_nesting))]
fn levels_of(profile: Profile) -> usize
    ensures { result ≡ profiles.levels_of profile }
{
    match profile {
        Profile::Classical => 3999,
        _ => 999,
    }
}

fn has_includes(profile: Profile) -> bool
    ensures { result ≡ profiles.has_includes profile }
{
    match profile {
        Profile::Problem => true,
        _ => false,
    }
}

/// The file that the tokens spell, or the number of the first statement that no rule reads.
fn read_lexed(
    alloc: Global,
    bytes: &[u8],
    tokens: &Tokens,
    profile: Profile,
) -> Result<File, GrammarError>
    requires lexed { Lexes bytes.now tokens.now }
    ensures read { IfOk result (λ f. TokensSpell profile bytes.now tokens.now f) }
    ensures refused { IfErr result (λ e. IsCause profile bytes.now tokens.now e) }
{
    spans_in_order();
    let statements = parts(alloc, bytes, tokens.as_slice(), profile)?;
    Ok(File { statements })
}

/// The one file that the tokens of the bytes spell in the profile. Where they spell none, it answers
/// `Syntax` with the number of the first statement that no rule reads, counted from 1. `Memory`
/// comes only for want of memory.
pub fn read_file(
    alloc: Global,
    bytes: &[u8],
    tokens: &Tokens,
    profile: Profile,
) -> Result<File, GrammarError>
    requires { Lexes bytes.now tokens.now }
    ensures read { IfOk result (λ f. TokensSpell profile bytes.now tokens.now f) }
    ensures refused { IfErr result (λ e. IsCause profile bytes.now tokens.now e) }
    ensures depth { IfOk result (λ f. file_depth f ≤ 2 * profiles.greatest_nesting profile + 1) }
    ensures levels { IfOk result (λ f. file_levels f ≤ profiles.levels_of profile) }
    ensures weight { IfOk result (λ f. file_weight f ≤ length tokens.now) }
    ensures regular { IfOk result (λ f. IsRegular profiles.any_allowed f) }
    ensures allowed { IfOk result (λ f. IsRegular (profiles.allowed_in profile) f) }
    ensures read_exactly { (f : File) → Spells profile bytes.now f → IsUnlessMemory result (Ok f) }
    ensures refused_exactly { (k : ℕ) → IsFirstFault profile bytes.now tokens.now k → IsUnlessMemory result (Err (GrammarError.Syntax k)) }
{
    read_lexed(alloc, bytes, tokens, profile)
}
