//! Copies of files.

ghost use Rattle.std.specs.Prelude.{◌≡◌, IfOk};

use crate::tree::{
    Body, File, LogicSpec, Role, SortName, SpecEntry, SpecItem, SpecKey, SpecValue, Statement,
    Typing,
};
use nxf_base::{List, Memory, Text};
use std::alloc::Global;

impl SpecKey {
    /// An equal key, or want of memory.
    pub fn copy(&self, alloc: Global) -> Result<SpecKey, Memory>
        ensures { IfOk result (λ k. k ≡ self.now) }
    {
        match self {
            SpecKey::Dollar(word) => Ok(SpecKey::Dollar(word.copy(alloc)?)),
            SpecKey::Name(name) => Ok(SpecKey::Name(name.copy(alloc)?)),
            SpecKey::Index(index) => Ok(SpecKey::Index(index.copy(alloc)?)),
        }
    }
}

#[cycle(spec_copy)]
fn copy_value(alloc: Global, value: &SpecValue) -> Result<SpecValue, Memory>
    ensures { IfOk result (λ v. v ≡ value.now) }
{
    match value {
        SpecValue::Word(word) => Ok(SpecValue::Word(word.copy(alloc)?)),
        SpecValue::Items(items) => Ok(SpecValue::Items(copy_items(alloc, items)?)),
    }
}

#[cycle(spec_copy)]
fn copy_items(alloc: Global, items: &List<SpecItem>) -> Result<List<SpecItem>, Memory>
    ensures { IfOk result (λ l. l ≡ items.now) }
{
    let mut copies = List::new(alloc);
    for item in items.as_slice() {
        let copied = copy_item(alloc, item)?;
        copies.push(copied)?;
    }
    Ok(copies)
}

#[cycle(spec_copy)]
fn copy_item(alloc: Global, item: &SpecItem) -> Result<SpecItem, Memory>
    ensures { IfOk result (λ i. i ≡ item.now) }
{
    match item {
        SpecItem::Word(word) => Ok(SpecItem::Word(word.copy(alloc)?)),
        SpecItem::Entry(entry) => Ok(SpecItem::Entry(copy_entry(alloc, entry)?)),
    }
}

#[cycle(spec_copy)]
fn copy_entry(alloc: Global, entry: &SpecEntry) -> Result<SpecEntry, Memory>
    ensures { IfOk result (λ e. e ≡ entry.now) }
{
    let key = entry.key.copy(alloc)?;
    Ok(SpecEntry {
        key,
        value: copy_value(alloc, &entry.value)?,
    })
}

impl LogicSpec {
    /// An equal specification, or want of memory.
    pub fn copy(&self, alloc: Global) -> Result<LogicSpec, Memory>
        ensures { IfOk result (λ l. l ≡ self.now) }
    {
        let logic = self.logic.copy(alloc)?;
        let mut entries = List::new(alloc);
        for entry in self.entries.as_slice() {
            let copied = copy_entry(alloc, entry)?;
            entries.push(copied)?;
        }
        Ok(LogicSpec { logic, entries })
    }
}

fn copy_sorts(alloc: Global, sorts: &List<SortName>) -> Result<List<SortName>, Memory>
    ensures { IfOk result (λ l. l ≡ sorts.now) }
{
    let mut copies = List::new(alloc);
    for sort in sorts.as_slice() {
        let copied = sort.copy(alloc)?;
        copies.push(copied)?;
    }
    Ok(copies)
}

impl Typing {
    /// An equal typing, or want of memory.
    pub fn copy(&self, alloc: Global) -> Result<Typing, Memory>
        ensures { IfOk result (λ t. t ≡ self.now) }
    {
        match self {
            Typing::Individual => Ok(Typing::Individual),
            Typing::Sort(name) => Ok(Typing::Sort(name.copy(alloc)?)),
            Typing::Symbol(name, args, None) => {
                let name = name.copy(alloc)?;
                Ok(Typing::Symbol(name, copy_sorts(alloc, args)?, None))
            }
            Typing::Symbol(name, args, Some(sort)) => {
                let name = name.copy(alloc)?;
                let args = copy_sorts(alloc, args)?;
                Ok(Typing::Symbol(name, args, Some(sort.copy(alloc)?)))
            }
        }
    }
}

impl Role {
    /// An equal role, or want of memory.
    pub fn copy(&self, alloc: Global) -> Result<Role, Memory>
        ensures { IfOk result (λ r. r ≡ self.now) }
    {
        let word = self.word.copy(alloc)?;
        match &self.suffix {
            None => Ok(Role { word, suffix: None }),
            Some(suffix) => Ok(Role {
                word,
                suffix: Some(suffix.copy(alloc)?),
            }),
        }
    }
}

impl Body {
    /// An equal body, or want of memory.
    pub fn copy(&self, alloc: Global) -> Result<Body, Memory>
        ensures { IfOk result (λ b. b ≡ self.now) }
    {
        match self {
            Body::Formula(formula) => Ok(Body::Formula(formula.copy(alloc)?)),
            Body::Typing(typing) => Ok(Body::Typing(typing.copy(alloc)?)),
            Body::Logic(logic) => Ok(Body::Logic(logic.copy(alloc)?)),
        }
    }
}

fn copy_texts(alloc: Global, texts: &List<Text>) -> Result<List<Text>, Memory>
    ensures { IfOk result (λ l. l ≡ texts.now) }
{
    let mut copies = List::new(alloc);
    for text in texts.as_slice() {
        let copied = text.copy(alloc)?;
        copies.push(copied)?;
    }
    Ok(copies)
}

impl Statement {
    /// An equal statement, or want of memory.
    pub fn copy(&self, alloc: Global) -> Result<Statement, Memory>
        ensures { IfOk result (λ s. s ≡ self.now) }
    {
        match self {
            Statement::Annotated { name, role, body } => {
                let name = name.copy(alloc)?;
                let role = role.copy(alloc)?;
                Ok(Statement::Annotated {
                    name,
                    role,
                    body: body.copy(alloc)?,
                })
            }
            Statement::Include { file, names: None } => Ok(Statement::Include {
                file: file.copy(alloc)?,
                names: None,
            }),
            Statement::Include {
                file,
                names: Some(names),
            } => {
                let file = file.copy(alloc)?;
                Ok(Statement::Include {
                    file,
                    names: Some(copy_texts(alloc, names)?),
                })
            }
        }
    }
}

impl File {
    /// An equal file, or want of memory.
    pub fn copy(&self, alloc: Global) -> Result<File, Memory>
        ensures { IfOk result (λ f. f ≡ self.now) }
    {
        let mut statements = List::new(alloc);
        for statement in self.statements.as_slice() {
            let copied = statement.copy(alloc)?;
            statements.push(copied)?;
        }
        Ok(File { statements })
    }
}
