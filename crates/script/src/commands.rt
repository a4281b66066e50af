// One line of a script as a command.
ghost use Rattle.std.specs.Prelude.{◌≡◌};
ghost use Rattle.std.specs.Option.{option_map};
ghost use Rattle.script.specs.Commands.{verb_of, with_names, command_fields, command_of, passed_over};
ghost use Rattle.script.specs.Fields.{with_rest};

use crate::words::{FromWord, FromWords, Words};
use classes::Usage;
use lines::{Counts, Line};
use tariff::Terms;

const COMMENT: u8 = b'#';

// A command with its arguments; N is the name of a file.
#[derive(Clone, Copy)]
pub enum Command<N> {
    Open(Counts),
    Put(u8, Terms),
    Add(u16, Line),
    Withdraw(u16),
    Restore(u16),
    Strike(u16),
    Issue,
    Reopen,
    Price(Usage),
    Read(N),
    Write(N),
}

// The first word of a command. It is an enum beside Command, which has no value before the arguments are read.
#[derive(Clone, Copy)]
enum Verb {
    Open,
    Put,
    Add,
    Withdraw,
    Restore,
    Strike,
    Issue,
    Reopen,
    Price,
    Read,
    Write,
}

impl FromWord for Verb {
    ghost written = { verb_of };

    fn from_word(word: &[u8]) -> Option<Verb> {
        match word {
            b"open" => Some(Verb::Open),
            b"put" => Some(Verb::Put),
            b"add" => Some(Verb::Add),
            b"withdraw" => Some(Verb::Withdraw),
            b"restore" => Some(Verb::Restore),
            b"strike" => Some(Verb::Strike),
            b"issue" => Some(Verb::Issue),
            b"reopen" => Some(Verb::Reopen),
            b"price" => Some(Verb::Price),
            b"read" => Some(Verb::Read),
            b"write" => Some(Verb::Write),
            _ => None,
        }
    }
}

// The command with its arguments, which are read from the words behind the verb.
fn with_arguments<'a>(verb: Verb, words: &mut Words<'a>) -> Option<Command<&'a [u8]>>
    ensures { with_rest (option_map (with_names (λ x. x.now)) result) words.new ≡ command_fields verb words.old }
{
    Some(match verb {
        Verb::Open => Command::Open(Counts::from_words(words)?),
        Verb::Put => Command::Put(words.field()?, Terms::from_words(words)?),
        Verb::Add => Command::Add(words.field()?, Line::from_words(words)?),
        Verb::Withdraw => Command::Withdraw(words.field()?),
        Verb::Restore => Command::Restore(words.field()?),
        Verb::Strike => Command::Strike(words.field()?),
        Verb::Issue => Command::Issue,
        Verb::Reopen => Command::Reopen,
        Verb::Price => Command::Price(Usage::from_words(words)?),
        Verb::Read => Command::Read(words.next()?),
        Verb::Write => Command::Write(words.next()?),
    })
}

// The command that a line writes: no word is left behind its arguments.
pub(crate) fn command_on(line: &[u8]) -> Option<Command<&[u8]>>
    ensures { option_map (with_names (λ x. x.now)) result ≡ command_of line.now }
{
    let mut words = Words::new(line);
    let verb = words.field()?;
    let command = with_arguments(verb, &mut words)?;
    words.next().is_none().then_some(command)
}

// Whether a line is blank or a comment.
pub(crate) fn passed_over(line: &[u8]) -> bool
    ensures { result ≡ passed_over line.now }
{
    match line {
        [COMMENT, ..] => true,
        _ => Words::new(line).next().is_none(),
    }
}
