// Calls made one after another of a new book, with every answer.
ghost use Rattle.std.specs.Prelude.{◌≡◌, ℕ, List, map, length, IfOk, vec_len, OnOk, All};
ghost use Rattle.law.specs.Histories.{Asked, ReadsBytes, read_call, history_of};
ghost use Rattle.law.specs.Law.{Lawful};
ghost use Rattle.journal.specs.Asked.{OneStep, asked, told};
ghost use Rattle.journal.specs.Replays.{entries};

use crate::call::{Accepted, Answer, Call};
use book::Book;
use classes::Determinant;
use std::alloc::{AllocError, Global};

// What the book answers to a sheet: apart from the other calls, since a parameter is known to hold bytes.
fn read_answer(book: &mut Book, bytes: &[u8]) -> Answer
    ensures { OneStep book.old.contents (read_call bytes.now) (told result) book.new.contents }
{
    book.read(bytes)?;
    Ok(Accepted::Done)
}

// What the book answers to a call; a sheet is written into the space, which is then as long as the call says. It is made
// before the call, since want of memory is no answer.
fn answer_in<V: Determinant, T: Determinant, L: Determinant, U: Determinant>(
    book: &mut Book,
    call: &Call<V, T, L, U>,
    mut space: Vec<u8>,
) -> Answer
    requires { (n : ℕ) → call.now ≡ Call.Write n → vec_len space ≡ n }
    ensures { OneStep book.old.contents (asked V.meaning T.meaning L.meaning U.meaning call.now) (told result) book.new.contents }
{
    match *call {
        Call::Open(counts) => book.open(counts)?,
        Call::Put(number, terms) => book.put(number, terms)?,
        Call::Add(number, line) => book.add(number, line)?,
        Call::Withdraw(number) => book.withdraw(number)?,
        Call::Restore(number) => book.restore(number)?,
        Call::Strike(number) => book.strike(number)?,
        Call::Issue => return Ok(Accepted::Version(book.issue()?)),
        Call::Reopen => book.reopen()?,
        Call::Price {
            determinants,
            usage,
        } => return Ok(Accepted::Price(book.price(&determinants, &usage)?)),
        Call::Read(bytes) => return read_answer(book, bytes),
        Call::Write(_) => {
            let end = book.write(&mut space)?;
            space.truncate(end);
            return Ok(Accepted::Wrote(space));
        }
    }
    Ok(Accepted::Done)
}

// What the book answers to a call.
fn answer<V: Determinant, T: Determinant, L: Determinant, U: Determinant>(
    heap: Global,
    book: &mut Book,
    call: &Call<V, T, L, U>,
) -> Result<Answer, AllocError>
    ensures { IfOk result (λ x. OneStep book.old.contents (asked V.meaning T.meaning L.meaning U.meaning call.now) (told x) book.new.contents) }
{
    let space = match call {
        Call::Write(length) => vec![in heap; 0; *length]?,
        _ => Vec::new(heap),
    };
    Ok(answer_in(book, call, space))
}

// The answers to the calls, each made of the book as the calls before it left it.
pub fn replay<V: Determinant, T: Determinant, L: Determinant, U: Determinant>(
    heap: Global,
    calls: &[Call<V, T, L, U>],
) -> Result<Vec<Answer>, AllocError>
    ensures many { IfOk result (λ answers. vec_len answers ≡ length calls.now) }
    ensures lawful { let asks : List Asked = map (asked V.meaning T.meaning L.meaning U.meaning) calls.now in IfOk result (λ answers. Lawful (entries asks (map told answers.items))) }
    ensures bytes { let asks : List Asked = map (asked V.meaning T.meaning L.meaning U.meaning) calls.now in OnOk result (All ReadsBytes asks) }
    ensures answers { let asks : List Asked = map (asked V.meaning T.meaning L.meaning U.meaning) calls.now in IfOk result (λ answers. entries asks (map told answers.items) ≡ history_of asks) }
{
    let mut book = Book::new();
    let mut answers = Vec::new(heap);
    for call in calls {
        answers.push(answer(heap, &mut book, call)?)?;
    }
    Ok(answers)
}
