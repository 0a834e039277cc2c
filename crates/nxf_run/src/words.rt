//! The forms of words.
ghost use Rattle.std.specs.Prelude.{◌≡◌};
ghost use Rattle.nxf_tree.specs.Names.{same_text};
ghost use Rattle.nxf_run.specs.Commands.{form_read};
ghost use Rattle.nxf_run.specs.Forms as forms;

use itoa::Buffer;
use nxf_base::Text;

/// The greatest number that `gen` takes.
const GREATEST_NUMBER: u64 = 200;

/// What the words ask.
#[derive(Clone, Copy)]
pub enum Command<'a> {
    /// The classical problem of the file.
    Embed(&'a Text),
    /// Whether the structure of the second file, which is a Kripke text, is a countermodel of the first.
    Check(&'a Text, &'a Text),
    /// The Kripke text of the structure that the interpretation in the second file gives, where it is a countermodel of the first.
    Lift(&'a Text, &'a Text),
    /// A command that has no answer yet.
    Later,
    /// Nothing that has an answer.
    Unknown,
}

/// What the words ask.
pub fn command_of(words: &[Text]) -> Command<'_>
    ensures { form_read result ≡ forms.form_of words.now }
{
    match words {
        [command, word] => with_one_word(command, word),
        [command, file, other] => with_two_words(command, file, other),
        _ => Command::Unknown,
    }
}

/// What a command and a word ask.
fn with_one_word<'a>(command: &Text, word: &'a Text) -> Command<'a>
    ensures { form_read result ≡ forms.with_one_word command.now word.now }
{
    if is_word(command, b"embed") && is_file(word) {
        Command::Embed(word)
    } else if is_word(command, b"gen") && is_number(word) {
        Command::Later
    } else {
        Command::Unknown
    }
}

/// What a command and two words ask.
fn with_two_words<'a>(command: &Text, file: &'a Text, other: &'a Text) -> Command<'a>
    ensures { form_read result ≡ forms.with_two_words command.now file.now other.now }
{
    if !is_file(file) || !is_file(other) {
        Command::Unknown
    } else if is_word(command, b"check") {
        Command::Check(file, other)
    } else if is_word(command, b"lift") {
        Command::Lift(file, other)
    } else if is_word(command, b"lower") {
        Command::Later
    } else {
        Command::Unknown
    }
}

fn is_word(word: &Text, wanted: &[u8]) -> bool
    ensures { result ≡ same_text wanted.now word.now }
{
    wanted == word.bytes()
}

/// Whether the word names a file: it isn't empty and doesn't begin with `-`, or is `-` alone.
fn is_file(word: &Text) -> bool
    ensures { result ≡ forms.is_file word.now }
{
    match word.bytes() {
        [] => false,
        [first, ..] => *first != b'-' || is_word(word, b"-"),
    }
}

/// Whether the word is the numeral of a number that `gen` takes.
fn is_number(word: &Text) -> bool
    ensures { result ≡ forms.is_number word.now }
{
    let mut number = 1;
    while number <= GREATEST_NUMBER {
        if is_word(word, Buffer::new().format(number).as_bytes()) {
            return true;
        }
        number += 1;
    }
    false
}
