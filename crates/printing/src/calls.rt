// The names of the calls.
ghost use Rattle.std.specs.Prelude.{◌≡◌};
ghost use Rattle.printing.specs.Lines.{call_name};

use jobs::call::Call;

// A word and no `Display`: `Call` is a type of `jobs`, so that would be a wrapper round this same match.
pub(crate) fn call_name(call: &Call) -> &'static str
    ensures { result.now ≡ call_name call.now }
{
    match call {
        Call::Step => "step",
        Call::Run(_) => "run",
        Call::Request => "request",
        Call::Cut => "cut",
        Call::Amend(_, _) => "amend",
        Call::TakeUp(_) => "take-up",
        Call::TakeUpImage => "take-up",
        Call::Resume(_) => "resume",
        Call::Report => "report",
        Call::Registers => "registers",
        Call::Image => "image",
        Call::Data => "data",
    }
}
