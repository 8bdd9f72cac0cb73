// Numbers for what may be missing: a cause in a report, a hold in a record.
ghost use Rattle.std.specs.Prelude.{◌≡◌, MatchOption};

// The number of a case, or 0 where there is none.
pub fn number_or_0<T: Into<u32>>(case: Option<T>) -> u32
    ensures { MatchOption case (result ≡ 0) (λ x. T.converts x result) }
{
    case.map_or(0, |x| x.into())
}
