// The words behind a program's name on its command line.
#![tactic(auto)]

ghost use Rattle.std.specs.Prelude.{◌≡◌};
ghost use Rattle.invocation.specs.Words.{word_of};

/// What a word is: the wish for help, another option, or the name of a file.
#[derive(Clone, Copy, PartialEq, Eq, Debug)]
pub enum Word {
    Help,
    Option,
    File,
}

impl Word {
    /// An option begins with `-`.
    pub fn of(word: &str) -> Word
        ensures { result ≡ word_of word.now }
    {
        if word == "--help" {
            Word::Help
        } else if word.as_bytes().starts_with(b"-") {
            Word::Option
        } else {
            Word::File
        }
    }
}
