// Answers as words for a caller, as many as there is room for: any numbers, also such as no call gives. Each function tells the
// verdict too.
#![tactic(auto)]

ghost use Rattle.std.specs.Prelude.{◌≡◌, ◌^◌, ◌<◌};
ghost use Rattle.std.proofs.lemmas.List.Edits.{sets};
ghost use Rattle.rules.specs.Answer.{answer_words};
ghost use Rattle.rules.specs.Session.{session_words};
ghost use Rattle.rules.specs.Book.{place_words, book_answer_words};
ghost use Rattle.rules.specs.Returned.{answer_with, session_with, scene_with, book_with};
ghost use Rattle.answer.specs.FitsWords.{FitsWords};

use rules::{Answer, BookAnswer, SceneAnswer, SessionAnswer};
use words::put;

// The six numbers of an answer.
pub fn write(a: Answer, answer: &mut [u32]) -> u32
    requires { FitsWords (answer_with a) }
    ensures numbers { answer.new ≡ sets answer.old 0 (answer_words (answer_with a)) }
    ensures verdict { result ≡ a.verdict }
{
    put(answer, 0, a.verdict);
    put(answer, 1, a.position as u32);
    put(answer, 2, a.commands as u32);
    put(answer, 3, a.records as u32);
    put(answer, 4, a.words as u32);
    put(answer, 5, a.bit);
    a.verdict
}

// The seven of a session: the lists applied are the last.
pub fn write_session(s: SessionAnswer, answer: &mut [u32]) -> u32
    requires { FitsWords (answer_with s.answer) × (s.lists < 2 ^ 32) }
    ensures numbers { answer.new ≡ sets answer.old 0 (session_words (session_with s)) }
    ensures verdict { result ≡ s.answer.verdict }
{
    write(s.answer, answer);
    put(answer, 6, s.lists as u32);
    s.answer.verdict
}

// Where a scene is in its book: the start and the length.
pub fn write_place(a: SceneAnswer, place: &mut [u32]) -> u32
    ensures numbers { place.new ≡ sets place.old 0 (place_words (scene_with a)) }
    ensures verdict { result ≡ a.verdict }
{
    put(place, 0, a.start);
    put(place, 1, a.length);
    a.verdict
}

// The verdict of a book's writer, and the words written.
pub fn write_book_answer(a: BookAnswer, answer: &mut [u32]) -> u32
    requires { a.words < 2 ^ 32 }
    ensures numbers { answer.new ≡ sets answer.old 0 (book_answer_words (book_with a)) }
    ensures verdict { result ≡ a.verdict }
{
    put(answer, 0, a.verdict);
    put(answer, 1, a.words as u32);
    a.verdict
}
