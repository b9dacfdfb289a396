//! What a script that runs prints.
ghost use Rattle.std.specs.{Prelude.{◌≡◌, ◌++◌, OnOk, OnErr}, Fmt.decimal};
ghost use Rattle.mk_check.specs.Feed.{refusal_line, refusal_text};

use crate::feeding::running::Running;
use mk_core::Answer;
use mk_never::NoMemory;
use std::alloc::Global;

impl Running {
    /// The text so far.
    pub fn text(&self) -> &[u8]
        ensures { result.now ≡ self.now.text }
    {
        self.text.as_slice()
    }

    /// Appends a piece of text.
    pub fn print(&mut self, piece: &[u8]) -> Result<(), NoMemory>
        ensures ok { OnOk result (self.new ≡ record self.old { text = self.old.text ++ piece.now }) }
        ensures err { OnErr result (self.new ≡ self.old) }
    {
        Ok(self.text.extend_from_slice(piece)?)
    }

    /// Appends a number in decimal.
    pub fn print_number(&mut self, alloc: Global, number: u64) -> Result<(), NoMemory>
        ensures { OnOk result (self.new ≡ record self.old { text = self.old.text ++ decimal number }) }
    {
        let digits = number.to_string(alloc)?;
        self.print(digits.as_bytes())
    }

    /// Appends the line that an answer prints which refuses the instruction of a line.
    pub fn print_refusal(
        &mut self,
        alloc: Global,
        line: u64,
        answer: Answer,
    ) -> Result<(), NoMemory>
        ensures { OnOk result
            (self.new ≡ record self.old { text = self.old.text ++ refusal_line line (refusal_text answer) }) }
    {
        let refusal: &[u8] = match answer {
            Answer::Done | Answer::Num(_) | Answer::Word(_) => return Ok(()),
            Answer::Full => b": full\n",
            Answer::Fault => b": fault\n",
            Answer::Null => b": null\n",
            Answer::Double => b": double\n",
        };
        self.print_number(alloc, line)?;
        self.print(refusal)
    }
}
