// The word that a line begins with. Uses `text`.
ghost use Rattle.std.specs.Prelude.{◌≡◌};
ghost use Rattle.sheet.specs.Orders.{question_named, word_named};

use text::words;

// What is asked with a number.
#[derive(Clone, Copy)]
pub enum Question {
    // The telegram of a position, without and with an error.
    Build,
    Fault,
    // What a telegram says, and its diagnosis.
    Read,
    Diagnose,
}

// What a line asks for, by its first word.
#[derive(Clone, Copy)]
pub enum Word {
    // What `script` makes of it.
    Plain,
    // A run's name.
    Heading,
    // A piece of a log.
    Log,
    // The last piece of a log.
    End,
    // How many bytes of the table the next start is given.
    Cut,
    // Least and greatest.
    Extremes,
    // A question with a number.
    Asked(Question),
}

// What a word that takes a number asks for.
fn asking(w: &[u8]) -> Word
    ensures { result ≡ question_named w.now }
{
    if words::same(w, b"build") {
        return Word::Asked(Question::Build);
    }
    if words::same(w, b"fault") {
        return Word::Asked(Question::Fault);
    }
    if words::same(w, b"read") {
        return Word::Asked(Question::Read);
    }
    if words::same(w, b"diagnose") {
        return Word::Asked(Question::Diagnose);
    }
    Word::Plain
}

// What a line's first word asks for.
pub fn named(w: &[u8]) -> Word
    ensures { result ≡ word_named w.now }
{
    if words::same(w, b"==") {
        return Word::Heading;
    }
    if words::same(w, b"log") {
        return Word::Log;
    }
    if words::same(w, b"end") {
        return Word::End;
    }
    if words::same(w, b"cut") {
        return Word::Cut;
    }
    if words::same(w, b"extremes") {
        return Word::Extremes;
    }
    asking(w)
}
