// The steps of a script as calls.
ghost use Rattle.std.specs.Prelude.{◌≡◌, [], map, length, IfOk, vec_items, vec_len, slice_index_or};
ghost use Rattle.law.specs.Histories.{history_of};
ghost use Rattle.law.specs.Law.{Lawful};
ghost use Rattle.script.specs.Commands.{with_names};
ghost use Rattle.script.specs.Scripts.{plain_step};
ghost use Rattle.editing.specs.Calls.{asked_whole, command_call, script_calls, script_history};

use classes::{Determinants, Whole};
use journal::{Answer, Call, replay};
use script::{Command, Step};
use sheet::LONGEST_SHEET;
use std::alloc::{AllocError, Global};

// A call whose determinants give everything one class.
type WholeCall<'a> = Call<'a, Whole, Whole, Whole, Whole>;

// One class for everything, for each determinant.
static WHOLE: Whole = Whole;

// The call of a command, where these are the bytes of the file that it reads. Two enums, since a command has names of files
// and a call bytes, a length and determinants; and no `From`, since the sheet comes beside the command.
fn call_of<'a>(command: &Command<&[u8]>, sheet: &'a [u8]) -> WholeCall<'a>
    ensures { asked_whole result ≡ command_call sheet.now (with_names (λ x. x.now) command.now) }
{
    match *command {
        Command::Open(counts) => Call::Open(counts),
        Command::Put(number, terms) => Call::Put(number, terms),
        Command::Add(number, line) => Call::Add(number, line),
        Command::Withdraw(number) => Call::Withdraw(number),
        Command::Restore(number) => Call::Restore(number),
        Command::Strike(number) => Call::Strike(number),
        Command::Issue => Call::Issue,
        Command::Reopen => Call::Reopen,
        Command::Price(usage) => Call::Price {
            determinants: Determinants {
                vehicle: &WHOLE,
                time: &WHOLE,
                location: &WHOLE,
                user: &WHOLE,
            },
            usage,
        },
        Command::Read(_) => Call::Read(sheet),
        Command::Write(_) => Call::Write(LONGEST_SHEET),
    }
}

// The bytes of the sheet with this place, or none.
fn sheet_at(sheets: &[Vec<u8>], place: usize) -> &[u8]
    ensures { result.now ≡ slice_index_or (map vec_items sheets.now) place [] }
{
    match sheets.get(place) {
        Some(sheet) => sheet.as_slice(),
        None => &[],
    }
}

// The calls of the steps, each with the sheet that has its place.
fn calls_of<'a>(
    heap: Global,
    steps: &[Step<&[u8]>],
    sheets: &'a [Vec<u8>],
) -> Result<Vec<WholeCall<'a>>, AllocError>
    ensures { IfOk result (λ calls. map asked_whole calls.items ≡ script_calls (map vec_items sheets.now) (map plain_step steps.now)) }
{
    steps
        .iter()
        .enumerate()
        .map(|(place, step)| call_of(&step.command, sheet_at(sheets, place)))
        .collect(heap)
}

// What a new book answers to the steps of a script, made of it one after another. The i-th of the sheets is that of the i-th
// step, and one that is missing is empty. Two lists: a list of steps that have their sheets would ask callers for a copy of
// every step, and for a sheet where a step reads none.
pub fn answers(
    heap: Global,
    steps: &[Step<&[u8]>],
    sheets: &[Vec<u8>],
) -> Result<Vec<Answer>, AllocError>
    ensures many { IfOk result (λ answers. vec_len answers ≡ length steps.now) }
    ensures lawful { IfOk result (λ answers. Lawful (script_history (map vec_items sheets.now) (map plain_step steps.now) answers.items)) }
    ensures answers { IfOk result (λ answers. script_history (map vec_items sheets.now) (map plain_step steps.now) answers.items ≡ history_of (script_calls (map vec_items sheets.now) (map plain_step steps.now))) }
{
    let calls = calls_of(heap, steps, sheets)?;
    replay(heap, calls.as_slice())
}
