// Whole scripts: the steps of the lines, or the line at which a script is refused.
ghost use Rattle.std.specs.Prelude.{◌≡◌, ◌+◌, ◌^◌, ◌<◌};
ghost use Rattle.script.specs.declared.scripts.ScriptError.TheVariants.{NoMemory};
ghost use Rattle.script.specs.Pieces.{pieces};
ghost use Rattle.script.specs.Scripts.{Added, Told, AnswerMeaning, script_of};

use crate::commands::{Command, command_on, passed_over};
use std::alloc::{AllocFailed, Global};

const LINE_SEPARATOR: u8 = b'\n';

// A command, and the line that it stands on; N is the name of a file.
#[derive(Clone, Copy)]
pub struct Step<N> {
    pub line: usize,
    pub command: Command<N>,
}

// Why a script gives no steps.
#[derive(Clone, Copy)]
pub enum ScriptError {
    // The first line that is neither passed over nor a command, counted from 1.
    Refused(usize),
    NoMemory,
}

impl<T: Drop> From<AllocFailed<T>> for ScriptError {
    ghost from_gives = { λ _ r. r ≡ NoMemory };

    fn from(_refused: AllocFailed<T>) -> ScriptError {
        ScriptError::NoMemory
    }
}

// Puts the command of a line, with so many lines before it, behind the steps, unless the line is passed over. A text has
// fewer lines than 64 bits count, which `enumerate` knows.
#[tactic(auto, using(crate::proofs::Progress::step_put))]
fn add_line<'a>(
    steps: &mut Vec<Step<&'a [u8]>>,
    before: usize,
    line: &'a [u8],
) -> Result<(), ScriptError>
    requires { before + 1 < 2 ^ 64 }
    ensures { Added steps.old.items (before + 1) line.now steps.new.items result }
{
    if passed_over(line) {
        return Ok(());
    }
    let number = before + 1;
    let command = command_on(line).ok_or(ScriptError::Refused(number))?;
    steps.push(Step {
        line: number,
        command,
    })?;
    Ok(())
}

// The steps of a script, in the order of its lines.
pub fn parse_script<'a>(heap: Global, text: &'a [u8]) -> Result<Vec<Step<&'a [u8]>>, ScriptError>
    ensures value { Told result (script_of text.now) }
    ensures meaning { AnswerMeaning result (pieces 10 text.now) }
{
    let mut steps = Vec::new(heap);
    for (before, line) in text.split(|byte| *byte == LINE_SEPARATOR).enumerate() {
        add_line(&mut steps, before, line)?;
    }
    Ok(steps)
}
