// How long the lists are that a script's calls are lent.
ghost use Rattle.std.specs.Prelude.{◌≡◌, IfSome};
ghost use Rattle.deskrun.specs.Desk.{cycles_in_call, cycles_asked, copies_asked};

use jobs::call::Call;

// The cycles that a call asks for at most.
fn cycles_in_call(call: &Call) -> usize
    ensures { result ≡ cycles_in_call call.now }
{
    match call {
        Call::Run(limit) => *limit,
        _ => 0,
    }
}

// The cycles that all runs ask for together, where that is a number of 64 bits.
pub(crate) fn cycles_asked(calls: &[Call]) -> Option<usize>
    ensures { IfSome result (λ n. n ≡ cycles_asked calls.now) }
{
    calls
        .iter()
        .try_fold(0usize, |all, call| all.checked_add(cycles_in_call(call)))
}

// How often the data words are asked for.
pub(crate) fn copies_asked(calls: &[Call]) -> usize
    ensures { result ≡ copies_asked calls.now }
{
    calls
        .iter()
        .filter(|call| matches!(call, Call::Data))
        .count()
}
