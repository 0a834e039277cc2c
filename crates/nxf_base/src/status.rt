//! How a run ends.
ghost use Rattle.std.specs.Prelude.{◌≡◌};
ghost use Rattle.nxf_base.specs.Status.{code_of};

use crate::Text;

/// How a run ends. Texts are names as the input has them; numbers of statements count from 1.
#[derive(Debug, Drop)]
pub enum Status {
    /// The whole answer was written.
    Ok,
    /// The words are no form of command.
    Usage,
    /// No library has the file.
    NoFile(Text),
    /// A library failed.
    ReadFault,
    /// The file is longer than 16,777,216 bytes.
    TooLong(Text),
    /// The files of the problem are together longer than 67,108,864 bytes.
    TooMuch,
    /// The include of this file stands too deep.
    Deep(Text),
    /// No lexeme begins at this offset of the file.
    Lex(Text, u64),
    /// This statement of the file is the first that the grammar does not read.
    Syntax(Text, u32),
    /// The file that is included has no statement of the name that is listed.
    NoSuchName(Text, Text),
    /// A statement's role is refused.
    Role(RoleKind, u32),
    /// The logic statement is refused, or there is none or another one.
    Spec(SpecKind),
    /// A statement is not well sorted, at this name.
    Sort(SortKind, u32, Text),
    /// The interpretation is refused.
    Interp(InterpKind),
    /// This statement is the first that is not that of a Kripke text.
    KripkeText(u64),
    /// The tables of the structure have this many cells, more than 4,194,304.
    TooBig(u64),
    /// There are this many worlds, more than 65,535.
    TooManyWorlds(u64),
    /// The structure is no countermodel: this is the first condition that fails.
    NotCountermodel(Fails),
    /// The output failed.
    WriteFault,
    /// There was no memory.
    Memory,
    /// The words are of a command that this version does not carry out yet.
    NotYet,
}

/// Why a role is refused.
#[derive(Debug, Drop, Clone, Copy)]
pub enum RoleKind {
    /// The role is none that is read.
    Unknown,
    /// The statement is a second conjecture.
    TwoConjectures,
}

/// Why the logic specification is refused. Keys stand as they are written.
#[derive(Debug, Drop)]
pub enum SpecKind {
    /// There is no logic statement.
    Absent,
    /// This statement is the second logic statement.
    Two(u32),
    /// The logic is not `$modal`.
    NotModal,
    /// The key is none of the four.
    UnknownKey(Text),
    /// The key came before in its list.
    DuplicateKey(Text),
    /// The value under this key is not allowed.
    UnknownValue(Text),
    /// The modalities are not given.
    NoModalities,
}

/// Why a statement is not well sorted.
#[derive(Debug, Drop, Clone, Copy)]
pub enum SortKind {
    /// The name has two types, or is a sort and a symbol.
    DoubleName,
    /// The sort is not declared.
    UnknownSort,
    /// The name is used otherwise than its type says.
    Mismatch,
    /// The variable is bound by no quantifier.
    FreeVariable,
    /// The logic statement asks something of a sort or function by a name that the file has not.
    UnknownOverride,
}

/// Why an interpretation is refused.
#[derive(Debug, Drop)]
pub enum InterpKind {
    /// This statement is no statement of an interpretation.
    Form(u32),
    /// This statement names an element that is not there.
    UnknownElement(u32),
    /// This statement names a symbol that is not there.
    UnknownSymbol(u32),
    /// This statement says something else than an earlier one.
    Clash(u32),
    /// Only some rows of this symbol's table are given.
    Incomplete(Text),
}

/// The first condition that keeps a structure from being a countermodel. Indexes, schemes, sorts and symbols stand as
/// messages write them; premises and the conjecture by the number of their statement.
#[derive(Debug, Drop)]
pub enum Fails {
    /// The relation of this index lacks this scheme.
    Frame(Text, Text),
    /// This sort has no element at a world.
    Empty(Text),
    /// An element of this sort is at no world.
    Union(Text),
    /// The domains of this sort do not grow along this index.
    Monotone(Text, Text),
    /// This symbol's value lies outside the domain of the world.
    Local(Text),
    /// This premise is false at an actual world.
    Premise(u32),
    /// The conjecture is true at each actual world.
    Conjecture(u32),
}

impl Status {
    /// The exit code of the program: 0 for `Ok`, and for each other status a number of its own from 2 to 21.
    pub fn code(&self) -> u8
        ensures { result ≡ code_of self.now }
    {
        match self {
            Status::Ok => 0,
            Status::Usage => 2,
            Status::NoFile(_) => 3,
            Status::ReadFault => 4,
            Status::TooLong(_) => 5,
            Status::TooMuch => 6,
            Status::Deep(_) => 7,
            Status::Lex(_, _) => 8,
            Status::Syntax(_, _) => 9,
            Status::NoSuchName(_, _) => 10,
            Status::Role(_, _) => 11,
            Status::Spec(_) => 12,
            Status::Sort(_, _, _) => 13,
            Status::Interp(_) => 14,
            Status::KripkeText(_) => 15,
            Status::TooBig(_) => 16,
            Status::TooManyWorlds(_) => 17,
            Status::NotCountermodel(_) => 18,
            Status::WriteFault => 19,
            Status::Memory => 20,
            Status::NotYet => 21,
        }
    }
}
