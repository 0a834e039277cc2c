// The reader of a case: the lines behind `== case NAME`, up to the next such line.
//
// A line that begins with `== ` says what the case has. The text of a file or of an output is made by the lines behind
// the line that names it: each other line is a line of the text, and some lines with `== ` add to it or cut it.
//
//     == words WORD ..            words of the run
//     == word WORD                one word, which may be empty or have blanks
//     == file NAME                a file of the library; its text follows
//     == library                  the next library, in the order in which they are asked
//     == fails N                  the load with this number fails in this library
//     == status N                 the status that is wanted, if not 0
//     == out                      the output is this text; of no text nothing is wanted
//     == out has, == out begins, == out ends, == out lacks     the text stands in the output, at its front, at its end, nowhere
//     == out takes N, == out fails N      it takes so many bytes at a time, and the write with this number fails
//     == err ..                   all of this for the error output
//     == note TEXT                says nothing
//
// Of a text:
//
//     == cut                      without its last byte, as the last line feed
//     == repeat N PIECE           the piece so many times
//     == count FROM TO PIECE      the piece for each number, which stands for each `@`
//     == byte CODE N              one byte so many times
//     == from PATH                the bytes of a file of this folder
use crate::case::Case;
use crate::wanted::{Extent, Wanted};
use nxf_base::{Memory, MemoryLibrary, Text};
use std::alloc::Global;
use std::{fs, mem};

// What the text belongs to that is being read.
#[derive(Drop)]
enum Part {
    Nothing,
    File(Text),
    Out(Extent),
    Err(Extent),
}

/// A case, as far as it is read.
#[derive(Drop)]
pub struct Reader {
    alloc: Global,
    case: Case,
    part: Part,
    text: Vec<u8>,
}

impl Reader {
    pub fn new(alloc: Global, name: &str) -> Result<Reader, Memory> {
        Ok(Reader {
            alloc,
            case: Case::new(alloc, name)?,
            part: Part::Nothing,
            text: Vec::new(alloc),
        })
    }

    /// Takes the next line.
    pub fn take(&mut self, rt: &HostRuntime, line: &str) -> Result<(), Memory> {
        let known = match line.strip_prefix("== ") {
            Some(said) => self.take_said(rt, said)?,
            None => self.take_text(line)?,
        };
        if !known && self.case.unknown.is_none() {
            self.case.unknown = Some(line.to_string(self.alloc)?);
        }
        Ok(())
    }

    /// The case, once all its lines are taken.
    pub fn finish(mut self) -> Result<Case, Memory> {
        self.begin(Part::Nothing)?;
        Ok(self.case)
    }

    // A line of a text; elsewhere only an empty one is known.
    fn take_text(&mut self, line: &str) -> Result<bool, Memory> {
        if let Part::Nothing = self.part {
            return Ok(line.is_empty());
        }
        self.text.extend_from_slice(line.as_bytes())?;
        self.text.push(b'\n')?;
        Ok(true)
    }

    // What follows `== `: whether it is known.
    fn take_said(&mut self, rt: &HostRuntime, said: &str) -> Result<bool, Memory> {
        let (word, value) = said.split_once(' ').unwrap_or((said, ""));
        match word {
            "from" | "repeat" | "count" | "byte" | "cut" => self.take_piece(rt, word, value),
            "out" => self.take_output(true, value),
            "err" => self.take_output(false, value),
            _ => {
                self.begin(Part::Nothing)?;
                self.take_setting(word, value)
            }
        }
    }

    fn take_setting(&mut self, word: &str, value: &str) -> Result<bool, Memory> {
        match word {
            "words" => {
                for each in value.split(' ') {
                    self.add_word(each)?;
                }
            }
            "word" => self.add_word(value)?,
            "file" => self.part = Part::File(Text::from_bytes(self.alloc, value.as_bytes())?),
            "library" => self.case.libraries.push(MemoryLibrary::new(self.alloc))?,
            "fails" => {
                let (Ok(call), Some(library)) = (
                    value.parse::<u64>(),
                    self.case.libraries.last_mut(),
                ) else {
                    return Ok(false);
                };
                library.fail_at(call)?;
            }
            "status" => {
                let Ok(status) = value.parse::<u8>() else {
                    return Ok(false);
                };
                self.case.status = status;
            }
            "note" => {}
            _ => return Ok(false),
        }
        Ok(true)
    }

    fn add_word(&mut self, word: &str) -> Result<(), Memory> {
        let word = Text::from_bytes(self.alloc, word.as_bytes())?;
        self.case.words.push(word)?;
        Ok(())
    }

    // A wanted text of an output, or how the output takes what it is given.
    fn take_output(&mut self, is_out: bool, value: &str) -> Result<bool, Memory> {
        let extent = match value {
            "" => Extent::Whole,
            "has" => Extent::Has,
            "begins" => Extent::Begins,
            "ends" => Extent::Ends,
            "lacks" => Extent::Lacks,
            _ => {
                self.begin(Part::Nothing)?;
                return Ok(self.set_output(is_out, value));
            }
        };
        self.begin(if is_out {
            Part::Out(extent)
        } else {
            Part::Err(extent)
        })?;
        Ok(true)
    }

    fn set_output(&mut self, is_out: bool, value: &str) -> bool {
        let output = if is_out {
            &mut self.case.out
        } else {
            &mut self.case.err
        };
        let Some((word, number)) = value.split_once(' ') else {
            return false;
        };
        match (word, number.parse::<u32>()) {
            ("takes", Ok(piece)) => output.piece = piece,
            ("fails", Ok(write)) => output.fails_at = Some(u64::from(write)),
            _ => return false,
        }
        true
    }

    // Ends the text that was being read, and begins another.
    fn begin(&mut self, next: Part) -> Result<(), Memory> {
        let text = mem::replace(&mut self.text, Vec::new(self.alloc));
        match mem::replace(&mut self.part, next) {
            Part::Nothing => Ok(()),
            Part::File(name) => match self.case.libraries.last_mut() {
                Some(library) => library.add(name, &text),
                None => Ok(()),
            },
            Part::Out(extent) => self.case.out.want(extent, text),
            Part::Err(extent) => self.case.err.want(extent, text),
        }
    }

    // Adds to the text, or cuts it.
    fn take_piece(&mut self, rt: &HostRuntime, word: &str, value: &str) -> Result<bool, Memory> {
        if let Part::Nothing = self.part {
            return Ok(false);
        }
        match word {
            "cut" => Ok(self.text.pop().is_some()),
            "from" => match fs::read(rt, value) {
                Ok(bytes) => {
                    self.text.extend_from_slice(&bytes)?;
                    Ok(true)
                }
                Err(_) => Ok(false),
            },
            "repeat" => self.repeat(value),
            "count" => self.count(value),
            _ => self.add_bytes(value),
        }
    }

    fn repeat(&mut self, value: &str) -> Result<bool, Memory> {
        let Some((times, piece)) = numbered(value) else {
            return Ok(false);
        };
        for _copy in 0..times {
            self.text.extend_from_slice(piece.as_bytes())?;
        }
        Ok(true)
    }

    fn count(&mut self, value: &str) -> Result<bool, Memory> {
        let Some((from, rest)) = numbered(value) else {
            return Ok(false);
        };
        let Some((to, piece)) = numbered(rest) else {
            return Ok(false);
        };
        for number in from..=to {
            let numeral = format!(in self.alloc; "{number}")?;
            for byte in piece.as_bytes() {
                if *byte == b'@' {
                    self.text.extend_from_slice(numeral.as_bytes())?;
                } else {
                    self.text.push(*byte)?;
                }
            }
        }
        Ok(true)
    }

    fn add_bytes(&mut self, value: &str) -> Result<bool, Memory> {
        let Some((code, times)) = numbered(value) else {
            return Ok(false);
        };
        let (Ok(byte), Ok(times)) = (u8::try_from(code), times.parse::<u32>()) else {
            return Ok(false);
        };
        let room = self.text.len().saturating_add(times as usize);
        self.text.resize(room, byte)?;
        Ok(true)
    }
}

// A numeral, and what follows the blank behind it.
fn numbered(value: &str) -> Option<(u32, &str)> {
    let (numeral, rest) = value.split_once(' ')?;
    match numeral.parse::<u32>() {
        Ok(number) => Some((number, rest)),
        Err(_) => None,
    }
}
