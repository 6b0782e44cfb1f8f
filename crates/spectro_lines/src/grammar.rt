ghost use Rattle.std.specs.Prelude.{◌≡◌, ◌≤◌, ℕ, Contains, IfOk, MatchOption, MatchResult};
ghost use Rattle.spectro_io.specs.Blanks.{AreBlanks};
ghost use Rattle.spectro_lines.specs.Form.{Form};
ghost use Rattle.spectro_io.specs.declared.read.TheConstants.{TEXT_LIMIT};

use crate::LineFault;
use std::alloc::{AllocError, Global};

/// What the lines of a text have given so far, and what one more line does to it.
pub trait Grammar: Drop {
    /// What a text stands for.
    type Value: Drop;

    /// What is wrong with a line.
    type Kind: Copy;

    ghost form: { Form Self Self.Value Self.Kind };

    /// No line was taken.
    fn start(alloc: Global) -> Self
        ensures { result ≡ form.start };

    /// Takes a line of UTF-8 that is not blank, without its line end. Answers its fault, if it has one.
    fn take_line(
        &mut self,
        alloc: Global,
        line: &str,
        number: u64,
    ) -> Result<Option<Self::Kind>, AllocError>
        requires some { ¬ AreBlanks line.now }
        requires one_line { ¬ Contains line.now 10 }
        ensures { IfOk result (λ fault. MatchOption fault (form.Gives self.old number line.now self.new) (form.IsFault self.old line.now)) };

    /// What the text of so many lines stands for, or why it may not end here.
    fn finish(self, lines: u64) -> Result<Result<Self::Value, LineFault<Self::Kind>>, AllocError>
        requires { lines ≤ TEXT_LIMIT }
        ensures { IfOk result (λ ended. MatchResult ended (form.Ends self) (λ fault. form.EndsEarly self lines fault.line fault.kind)) };

    /// How many bytes a text may have, line ends counted.
    fn limit() -> usize
        ensures value { result ≡ form.limit }
        ensures few { result ≤ TEXT_LIMIT };

    /// The fault of a line that has more than 32,768 bytes without its line end, or a byte more than a text may have.
    fn too_long() -> Self::Kind
        ensures { result ≡ form.too_long };

    /// The fault of a line that is not UTF-8.
    fn not_text() -> Self::Kind
        ensures { result ≡ form.not_text };
}
