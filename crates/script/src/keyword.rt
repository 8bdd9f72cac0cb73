// The words that a call begins with.
ghost use Rattle.std.specs.Prelude.{◌≡◌, MatchResult, Some, None};
ghost use Rattle.script.specs.Keywords.{keyword_of};

#[derive(Clone, Copy, PartialEq, Eq, Debug)]
pub enum Keyword {
    Step,
    Run,
    Request,
    Cut,
    Amend,
    TakeUp,
    Resume,
    Report,
    Registers,
    Image,
    Data,
}

// A word that no call begins with.
#[derive(Clone, Copy, PartialEq, Eq, Debug)]
pub struct NoKeyword;

impl TryFrom<&[u8]> for Keyword {
    type Error = NoKeyword;

    ghost try_from_gives = { λ word answer. MatchResult answer (λ key. keyword_of word.now ≡ Some key) (λ none. keyword_of word.now ≡ None) };

    fn try_from(word: &[u8]) -> Result<Keyword, NoKeyword> {
        match word {
            b"step" => Ok(Keyword::Step),
            b"run" => Ok(Keyword::Run),
            b"request" => Ok(Keyword::Request),
            b"cut" => Ok(Keyword::Cut),
            b"amend" => Ok(Keyword::Amend),
            b"take-up" => Ok(Keyword::TakeUp),
            b"resume" => Ok(Keyword::Resume),
            b"report" => Ok(Keyword::Report),
            b"registers" => Ok(Keyword::Registers),
            b"image" => Ok(Keyword::Image),
            b"data" => Ok(Keyword::Data),
            _ => Err(NoKeyword),
        }
    }
}
