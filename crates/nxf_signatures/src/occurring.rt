//! What occurs in a file, each thing once, in the order of first occurrence.

ghost use Rattle.std.specs.Prelude.{◌≡◌, ◌∷◌, [], OnOk, IfOk, flat_map};
ghost use Rattle.std.specs.Option.{unwrap_or};
ghost use Rattle.nxf_tree.specs.Occurrences as occur;
ghost use Rattle.nxf_tree.specs.Occurrences.{Occurrence};
ghost use Rattle.nxf_tree.specs.Occurrences.{use_with, occurrences, key_occurrences};
ghost use Rattle.nxf_tree.specs.SignatureOf.{type_in};
ghost use Rattle.nxf_signatures.specs.steps.Tables.{uses_in, seen_in, nothing, and_occurrence, and_occurrences, value_of, term_occurrences, key_occurrences_in, typing_occurrences, occurrences_with};

use crate::declarations::Declarations;
use crate::symbol_type::{SymbolType, note_text, push_symbol, type_in_table};
use indexmap::{IndexMap, IndexSet};
use nxf_base::{List, Memory, Text};
use nxf_tree::{Body, Formula, IndexName, Override, SortName, SpecKey, Statement, Term, Typing};
use sqlite_items::Boxed;
use std::alloc::Global;

/// The symbols with their types, a declared one with its declared type; whether `$i` is the sort of a variable; whether
/// there is an unindexed modality; and the texts of the named indexes.
#[derive(Drop)]
pub struct Occurring {
    pub symbols: IndexMap<Text, SymbolType>,
    pub individual: bool,
    pub plain: bool,
    pub indexes: IndexSet<Text>,
}

/// `$i` for each of so many arguments.
fn individuals(alloc: Global, count: usize) -> Result<List<SortName>, Memory>
    ensures { IfOk result (λ l. l ≡ occur.individuals count) }
{
    let mut sorts = List::with_capacity(alloc, count)?;
    for _ in 0..count {
        sorts.push(SortName::Individual)?;
    }
    Ok(sorts)
}

/// The type of a symbol that is used with so many arguments: the declared one, else `$i` for each.
fn used_type(
    alloc: Global,
    declarations: &Declarations,
    name: &Text,
    count: usize,
    function: bool,
) -> Result<SymbolType, Memory>
    ensures { IfOk result (λ t. t ≡ unwrap_or (type_in (uses_in declarations.now.symbols.entries) name.now) (use_with name.now count (value_of function)).type) }
{
    match declarations.type_of(name) {
        Some(kind) => kind.copy(alloc),
        None => {
            let args = individuals(alloc, count)?;
            let gives = if function {
                Some(SortName::Individual)
            } else {
                None
            };
            Ok(SymbolType { args, gives })
        }
    }
}

/// The type of a symbol at its declaration: the first declared one.
fn declared_type(
    alloc: Global,
    declarations: &Declarations,
    name: &Text,
    args: &List<SortName>,
    gives: &Option<SortName>,
) -> Result<SymbolType, Memory>
    ensures { IfOk result (λ t. t ≡ unwrap_or (type_in (uses_in declarations.now.symbols.entries) name.now) (record { args = args.now; gives = gives.now })) }
{
    match declarations.type_of(name) {
        Some(kind) => kind.copy(alloc),
        None => SymbolType::copied(alloc, args, gives),
    }
}

impl Occurring {
    /// Nothing.
    pub fn new(alloc: Global) -> Occurring
        ensures { seen_in result ≡ nothing }
    {
        Occurring {
            symbols: IndexMap::new(alloc),
            individual: false,
            plain: false,
            indexes: IndexSet::new(alloc),
        }
    }

    fn note_use(
        &mut self,
        alloc: Global,
        declarations: &Declarations,
        name: &Text,
        count: usize,
        function: bool,
    ) -> Result<(), Memory>
        ensures { OnOk result (seen_in self.new ≡ and_occurrence (uses_in declarations.now.symbols.entries) (seen_in self.old) (Occurrence.symbol (use_with name.now count (value_of function)))) }
    {
        match type_in_table(&self.symbols, name) {
            Some(_) => Ok(()),
            None => {
                let kind = used_type(alloc, declarations, name, count, function)?;
                push_symbol(alloc, &mut self.symbols, name, kind)
            }
        }
    }

    fn note_declared(
        &mut self,
        alloc: Global,
        declarations: &Declarations,
        name: &Text,
        args: &List<SortName>,
        gives: &Option<SortName>,
    ) -> Result<(), Memory>
        ensures { OnOk result (seen_in self.new ≡ and_occurrence (uses_in declarations.now.symbols.entries) (seen_in self.old) (Occurrence.symbol (record { name = name.now; type = record { args = args.now; gives = gives.now } }))) }
    {
        match type_in_table(&self.symbols, name) {
            Some(_) => Ok(()),
            None => {
                let kind = declared_type(alloc, declarations, name, args, gives)?;
                push_symbol(alloc, &mut self.symbols, name, kind)
            }
        }
    }

    fn note_sort(&mut self, sort: &SortName)
        ensures { (us : _) → seen_in self.new ≡ and_occurrence us (seen_in self.old) (Occurrence.sort sort.now) }
    {
        match sort {
            SortName::Individual => self.individual = true,
            SortName::User(_) => {}
        }
    }

    fn note_index(&mut self, alloc: Global, index: &IndexName) -> Result<(), Memory>
        ensures { OnOk result ((us : _) → seen_in self.new ≡ and_occurrence us (seen_in self.old) (Occurrence.index index.now)) }
    {
        match index {
            IndexName::Plain => {
                self.plain = true;
                Ok(())
            }
            IndexName::Named(name) => note_text(alloc, &mut self.indexes, name),
        }
    }

    #[cycle(note_term)]
    fn note_term(
        &mut self,
        alloc: Global,
        declarations: &Declarations,
        term: &Term,
    ) -> Result<(), Memory>
        ensures { OnOk result (seen_in self.new ≡ and_occurrences (uses_in declarations.now.symbols.entries) (seen_in self.old) (term_occurrences term.now)) }
    {
        match term {
            Term::Var(_) => Ok(()),
            Term::App(name, terms) => {
                self.note_use(alloc, declarations, name, terms.len(), true)?;
                self.note_terms(alloc, declarations, terms)
            }
        }
    }

    #[cycle(note_term)]
    fn note_terms(
        &mut self,
        alloc: Global,
        declarations: &Declarations,
        terms: &List<Term>,
    ) -> Result<(), Memory>
        ensures { OnOk result (seen_in self.new ≡ and_occurrences (uses_in declarations.now.symbols.entries) (seen_in self.old) (flat_map term_occurrences terms.now)) }
    {
        for term in terms.as_slice() {
            self.note_term(alloc, declarations, term)?;
        }
        Ok(())
    }

    fn note_atom(
        &mut self,
        alloc: Global,
        declarations: &Declarations,
        name: &Text,
        terms: &List<Term>,
    ) -> Result<(), Memory>
        ensures { OnOk result (seen_in self.new ≡ and_occurrences (uses_in declarations.now.symbols.entries) (seen_in self.old) (occurrences (Formula.Atom name.now terms.now))) }
    {
        self.note_use(alloc, declarations, name, terms.len(), false)?;
        self.note_terms(alloc, declarations, terms)
    }

    fn note_sides(
        &mut self,
        alloc: Global,
        declarations: &Declarations,
        left: &Boxed<Term>,
        right: &Boxed<Term>,
    ) -> Result<(), Memory>
        ensures { OnOk result (seen_in self.new ≡ and_occurrences (uses_in declarations.now.symbols.entries) (seen_in self.old) (occurrences (Formula.Same left.now right.now))) }
    {
        self.note_term(alloc, declarations, left.get())?;
        self.note_term(alloc, declarations, right.get())
    }

    #[cycle(note_formula)]
    fn note_formula(
        &mut self,
        alloc: Global,
        declarations: &Declarations,
        formula: &Formula,
    ) -> Result<(), Memory>
        ensures { OnOk result (seen_in self.new ≡ and_occurrences (uses_in declarations.now.symbols.entries) (seen_in self.old) (occurrences formula.now)) }
    {
        match formula {
            Formula::True => Ok(()),
            Formula::False => Ok(()),
            Formula::Atom(name, terms) => self.note_atom(alloc, declarations, name, terms),
            Formula::Same(left, right) => self.note_sides(alloc, declarations, left, right),
            Formula::Differ(left, right) => self.note_sides(alloc, declarations, left, right),
            Formula::Not(part) => self.note_formula(alloc, declarations, part.get()),
            Formula::And(parts) => self.note_formulas(alloc, declarations, parts),
            Formula::Or(parts) => self.note_formulas(alloc, declarations, parts),
            Formula::Pair(_, left, right) => {
                self.note_formula(alloc, declarations, left.get())?;
                self.note_formula(alloc, declarations, right.get())
            }
            Formula::Quant(_, _, sort, body) => {
                self.note_sort(sort);
                self.note_formula(alloc, declarations, body.get())
            }
            Formula::Modal(_, index, body) => {
                self.note_index(alloc, index)?;
                self.note_formula(alloc, declarations, body.get())
            }
            Formula::Distinct(terms) => self.note_terms(alloc, declarations, terms),
        }
    }

    #[cycle(note_formula)]
    fn note_formulas(
        &mut self,
        alloc: Global,
        declarations: &Declarations,
        formulas: &List<Formula>,
    ) -> Result<(), Memory>
        ensures { OnOk result (seen_in self.new ≡ and_occurrences (uses_in declarations.now.symbols.entries) (seen_in self.old) (flat_map occurrences formulas.now)) }
    {
        for formula in formulas.as_slice() {
            self.note_formula(alloc, declarations, formula)?;
        }
        Ok(())
    }

    fn note_key(&mut self, alloc: Global, key: &SpecKey) -> Result<(), Memory>
        ensures { OnOk result ((us : _) → seen_in self.new ≡ and_occurrences us (seen_in self.old) (key_occurrences key.now)) }
    {
        match key {
            SpecKey::Dollar(_) => Ok(()),
            SpecKey::Name(_) => Ok(()),
            SpecKey::Index(index) => self.note_index(alloc, index),
        }
    }

    fn note_overrides(&mut self, alloc: Global, overrides: &List<Override>) -> Result<(), Memory>
        ensures { OnOk result ((us : _) → seen_in self.new ≡ and_occurrences us (seen_in self.old) (key_occurrences_in overrides.now)) }
    {
        for item in overrides.as_slice() {
            self.note_key(alloc, &item.key)?;
        }
        Ok(())
    }

    fn note_typing(
        &mut self,
        alloc: Global,
        declarations: &Declarations,
        typing: &Typing,
    ) -> Result<(), Memory>
        ensures { OnOk result (seen_in self.new ≡ and_occurrences (uses_in declarations.now.symbols.entries) (seen_in self.old) (typing_occurrences typing.now)) }
    {
        match typing {
            Typing::Individual => {
                self.note_sort(&SortName::Individual);
                Ok(())
            }
            Typing::Sort(_) => Ok(()),
            Typing::Symbol(name, args, gives) => self.note_declared(
                alloc,
                declarations,
                name,
                args,
                gives,
            ),
        }
    }

    fn note_statement(
        &mut self,
        alloc: Global,
        declarations: &Declarations,
        overrides: &List<Override>,
        statement: &Statement,
    ) -> Result<(), Memory>
        ensures { OnOk result (seen_in self.new ≡ and_occurrences (uses_in declarations.now.symbols.entries) (seen_in self.old) (occurrences_with overrides.now statement.now)) }
    {
        match statement {
            Statement::Annotated {
                name: _,
                role: _,
                body,
            } => match body {
                Body::Formula(formula) => self.note_formula(alloc, declarations, formula),
                Body::Typing(typing) => self.note_typing(alloc, declarations, typing),
                Body::Logic(_) => self.note_overrides(alloc, overrides),
            },
            Statement::Include { file: _, names: _ } => Ok(()),
        }
    }

    /// What occurs in the statements, where a logic statement has these overrides. There is no other error than want of
    /// memory.
    pub fn of(
        alloc: Global,
        declarations: &Declarations,
        overrides: &List<Override>,
        statements: &[Statement],
    ) -> Result<Occurring, Memory>
        ensures { IfOk result (λ o. seen_in o ≡ and_occurrences (uses_in declarations.now.symbols.entries) nothing (flat_map (occurrences_with overrides.now) statements.now)) }
    {
        let mut occurring = Occurring::new(alloc);
        for statement in statements {
            occurring.note_statement(alloc, declarations, overrides, statement)?;
        }
        Ok(occurring)
    }
}
