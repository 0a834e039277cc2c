//! What marks are put into: a text that is printed, or tokens that are compared.
ghost use Rattle.std.specs.Prelude.{◌≡◌, OnOk, ◌++◌};
ghost use Rattle.nxf_tree.specs.Names.{numeral};
ghost use Rattle.plain_tokens.specs.Marks.{Mark, Sign, Dollar, Variable, Name, Object, Blank, Line};

use nxf_base::Memory;

/// Takes the marks of a text one by one. The only error is want of memory.
pub trait Taker {
    /// What it becomes with one more mark.
    ghost takes: { Self → Mark → Self };

    fn sign(&mut self, spelling: &[u8]) -> Result<(), Memory>
        ensures { OnOk result (self.new ≡ takes self.old (Sign spelling.now)) };

    fn dollar(&mut self, spelling: &[u8]) -> Result<(), Memory>
        ensures { OnOk result (self.new ≡ takes self.old (Dollar spelling.now)) };

    fn variable(&mut self, spelling: &[u8]) -> Result<(), Memory>
        ensures { OnOk result (self.new ≡ takes self.old (Variable spelling.now)) };

    fn name(&mut self, text: &[u8]) -> Result<(), Memory>
        ensures { OnOk result (self.new ≡ takes self.old (Name text.now)) };

    /// An object: the front, and behind it the number.
    fn object(&mut self, front: &[u8], number: u32) -> Result<(), Memory>
        ensures { OnOk result (self.new ≡ takes self.old (Object (front.now ++ numeral number))) };

    fn blank(&mut self) -> Result<(), Memory>
        ensures { OnOk result (self.new ≡ takes self.old Blank) };

    fn line(&mut self) -> Result<(), Memory>
        ensures { OnOk result (self.new ≡ takes self.old Line) };
}
