// The recovery schemes, by number.
ghost use Rattle.std.specs.Prelude.{◌≡◌, MatchResult, Some, None};
ghost use Rattle.jobfile.specs.Jobs.{scheme_number, scheme_at};

#[derive(Clone, Copy, PartialEq, Eq, Debug)]
pub enum Scheme {
    ReorderBuffer,
    BypassBuffer,
    HistoryBuffer,
    FutureFile,
}

// A number that no scheme has.
#[derive(Clone, Copy, PartialEq, Eq, Debug)]
pub struct UnknownScheme(pub u32);

impl From<Scheme> for u32 {
    ghost from_gives = { λ scheme number. number ≡ scheme_number scheme };

    fn from(scheme: Scheme) -> u32 {
        match scheme {
            Scheme::ReorderBuffer => 1,
            Scheme::BypassBuffer => 2,
            Scheme::HistoryBuffer => 3,
            Scheme::FutureFile => 4,
        }
    }
}

impl TryFrom<u32> for Scheme {
    type Error = UnknownScheme;

    ghost try_from_gives = { λ number answer. MatchResult answer (λ scheme. scheme_at number ≡ Some scheme) (λ unknown. (scheme_at number ≡ None) × (unknown.0 ≡ number)) };

    fn try_from(number: u32) -> Result<Scheme, UnknownScheme> {
        match number {
            1 => Ok(Scheme::ReorderBuffer),
            2 => Ok(Scheme::BypassBuffer),
            3 => Ok(Scheme::HistoryBuffer),
            4 => Ok(Scheme::FutureFile),
            _ => Err(UnknownScheme(number)),
        }
    }
}
