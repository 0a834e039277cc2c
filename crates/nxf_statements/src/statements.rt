//! Statements.

ghost use Rattle.std.specs.Prelude.{[], ◌≡◌, Some, length};
ghost use Rattle.nxf_terminals.specs.Input as input;
ghost use Rattle.nxf_terminals.specs.Input.{Gives};
ghost use Rattle.syntax_definitions.specs.steps.ReadFormulas.{index_text};
ghost use Rattle.syntax_definitions.specs.steps.ReadLists as lists;
ghost use Rattle.nxf_tree.specs.Regular as regular;
ghost use Rattle.nxf_tree.specs.declared.tree.Statement.{Statement};
ghost use Rattle.syntax_definitions.specs.Statements as grammar;
ghost use Rattle.syntax_definitions.specs.steps.ReadStatements as spec;

use crate::annotations::annotation;
use crate::logics::logic;
use crate::typings::typing;
use nxf_base::{List, Text};
use nxf_formulas::{formula, index_text};
use nxf_terminals::{Cursor, GrammarError, Sign, is_word, push};
use nxf_tree::{Body, BodyKind, Role, Statement};
use std::alloc::Global;
use syntax_definitions::Keyword;

fn body_kind(word: &[u8]) -> BodyKind
    ensures { result ≡ regular.body_kind word.now }
{
    if word == b"type".as_slice() {
        BodyKind::Typing
    } else if word == b"logic".as_slice() {
        BodyKind::Logic
    } else {
        BodyKind::Formula
    }
}

fn keyword_of(with_includes: bool, word: &[u8]) -> Keyword
    ensures { result ≡ grammar.keyword_of with_includes word.now }
{
    if word == b"tff".as_slice() {
        Keyword::Tff
    } else if word == b"include".as_slice() {
        if with_includes {
            Keyword::Include
        } else {
            Keyword::Other
        }
    } else {
        Keyword::Other
    }
}

#[tactic(auto, unfolding(syntax_definitions::specs::steps::ReadStatements::word))]
fn word(alloc: Global, cursor: &mut Cursor<'_>) -> Result<Text, GrammarError>
    ensures { Gives (spec.word cursor.old) result cursor.new }
{
    match cursor.peek() {
        Sign::Name => {
            if !is_word(cursor.spelling()) {
                return Err(GrammarError::Syntax(0));
            }
            cursor.take_text(alloc)
        }
        _ => Err(GrammarError::Syntax(0)),
    }
}

#[tactic(auto, unfolding(syntax_definitions::specs::steps::ReadStatements::name))]
fn name(alloc: Global, cursor: &mut Cursor<'_>) -> Result<Text, GrammarError>
    ensures { Gives (spec.name cursor.old) result cursor.new }
{
    match cursor.peek() {
        Sign::Name => cursor.take_name(alloc),
        _ => Err(GrammarError::Syntax(0)),
    }
}

#[tactic(auto, unfolding(syntax_definitions::specs::steps::ReadStatements::role))]
fn role(alloc: Global, cursor: &mut Cursor<'_>) -> Result<Role, GrammarError>
    ensures { Gives (spec.role cursor.old) result cursor.new }
{
    let first = word(alloc, cursor)?;
    suffix(alloc, cursor, first)
}

fn suffix(alloc: Global, cursor: &mut Cursor<'_>, first: Text) -> Result<Role, GrammarError>
    ensures { Gives (spec.suffix first (input.kind cursor.old) cursor.old) result cursor.new }
{
    match cursor.peek() {
        Sign::Minus => {
            cursor.step();
            let second = word(alloc, cursor)?;
            Ok(Role {
                word: first,
                suffix: Some(second),
            })
        }
        _ => Ok(Role {
            word: first,
            suffix: None,
        }),
    }
}

fn body(
    alloc: Global,
    cursor: &mut Cursor<'_>,
    kind: BodyKind,
    levels: usize,
    most: usize,
) -> Result<Body, GrammarError>
    ensures { Gives (spec.body_of most levels kind cursor.old) result cursor.new }
{
    match kind {
        BodyKind::Typing => Ok(Body::Typing(typing(alloc, cursor, levels, most)?)),
        BodyKind::Logic => Ok(Body::Logic(logic(alloc, cursor, levels)?)),
        BodyKind::Formula => Ok(Body::Formula(formula(alloc, cursor, levels, most)?)),
    }
}

#[tactic(auto, unfolding(syntax_definitions::specs::steps::ReadStatements::ended))]
fn ended(cursor: &mut Cursor<'_>, statement: Statement) -> Result<Statement, GrammarError>
    ensures { Gives (spec.ended statement cursor.old) result cursor.new }
{
    cursor.expect(Sign::Close)?;
    cursor.expect(Sign::Stop)?;
    Ok(statement)
}

fn noted(
    alloc: Global,
    cursor: &mut Cursor<'_>,
    statement: Statement,
) -> Result<Statement, GrammarError>
    ensures { Gives (spec.noted statement (input.kind cursor.old) cursor.old) result cursor.new }
{
    match cursor.peek() {
        Sign::Comma => {
            cursor.step();
            annotation(alloc, cursor)?;
            ended(cursor, statement)
        }
        _ => ended(cursor, statement),
    }
}

#[tactic(auto, unfolding(syntax_definitions::specs::steps::ReadStatements::annotated))]
fn annotated(
    alloc: Global,
    cursor: &mut Cursor<'_>,
    levels: usize,
    most: usize,
) -> Result<Statement, GrammarError>
    ensures { Gives (spec.annotated most levels cursor.old) result cursor.new }
{
    let name = index_text(alloc, cursor)?;
    cursor.expect(Sign::Comma)?;
    let role = role(alloc, cursor)?;
    cursor.expect(Sign::Comma)?;
    let kind = body_kind(role.word.bytes());
    let body = body(alloc, cursor, kind, levels, most)?;
    noted(alloc, cursor, Statement::Annotated { name, role, body })
}

/// The labels up to the closing bracket.
fn labels(alloc: Global, cursor: &mut Cursor<'_>) -> Result<List<Text>, GrammarError>
    ensures { Gives (lists.list_from index_text (length cursor.old) [] cursor.old) result cursor.new }
{
    let mut found = List::new(alloc);
    for _turn in 0..cursor.len() {
        push(&mut found, index_text(alloc, cursor)?)?;
        match cursor.peek() {
            Sign::Comma => cursor.step(),
            Sign::RightBracket => {
                cursor.step();
                return Ok(found);
            }
            _ => return Err(GrammarError::Syntax(0)),
        }
    }
    Err(GrammarError::Syntax(0))
}

fn included(alloc: Global, cursor: &mut Cursor<'_>, file: Text) -> Result<Statement, GrammarError>
    ensures { Gives (spec.included file (input.kind cursor.old) cursor.old) result cursor.new }
{
    match cursor.peek() {
        Sign::Comma => {
            cursor.step();
            cursor.expect(Sign::LeftBracket)?;
            let names = labels(alloc, cursor)?;
            ended(
                cursor,
                Statement::Include {
                    file,
                    names: Some(names),
                },
            )
        }
        _ => ended(cursor, Statement::Include { file, names: None }),
    }
}

#[tactic(auto, unfolding(syntax_definitions::specs::steps::ReadStatements::include))]
fn include_file(alloc: Global, cursor: &mut Cursor<'_>) -> Result<Statement, GrammarError>
    ensures { Gives (spec.include cursor.old) result cursor.new }
{
    let file = name(alloc, cursor)?;
    included(alloc, cursor, file)
}

fn statement_after(
    alloc: Global,
    cursor: &mut Cursor<'_>,
    keyword: Keyword,
    levels: usize,
    most: usize,
) -> Result<Statement, GrammarError>
    ensures { Gives (spec.statement_after most levels keyword cursor.old) result cursor.new }
{
    match keyword {
        Keyword::Tff => {
            cursor.step();
            cursor.expect(Sign::Open)?;
            annotated(alloc, cursor, levels, most)
        }
        Keyword::Include => {
            cursor.step();
            cursor.expect(Sign::Open)?;
            include_file(alloc, cursor)
        }
        Keyword::Other => Err(GrammarError::Syntax(0)),
    }
}

/// A statement, through its full stop.
#[tactic(auto, unfolding(syntax_definitions::specs::steps::ReadStatements::read_statement))]
pub fn statement(
    alloc: Global,
    cursor: &mut Cursor<'_>,
    with_includes: bool,
    levels: usize,
    most: usize,
) -> Result<Statement, GrammarError>
    ensures { Gives (spec.read_statement with_includes most levels cursor.old) result cursor.new }
{
    match cursor.peek() {
        Sign::Name => {
            let keyword = keyword_of(with_includes, cursor.spelling());
            statement_after(alloc, cursor, keyword, levels, most)
        }
        _ => Err(GrammarError::Syntax(0)),
    }
}
