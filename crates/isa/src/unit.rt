// The functional units, on which instructions with a result are computed.
ghost use Rattle.std.specs.Prelude.{◌≡◌};
ghost use Rattle.isa.specs.Numbers.{unit_number};

// How many units there are: each has a delay of its own.
pub const UNITS: usize = 4;

#[derive(Clone, Copy, PartialEq, Eq, Debug)]
pub enum ExecUnit {
    Short,
    Multiply,
    Divide,
    Memory,
}

// The unit's place in a list of delays.
impl From<ExecUnit> for usize {
    ghost from_gives = { λ unit place. place ≡ unit_number unit };

    fn from(unit: ExecUnit) -> usize {
        match unit {
            ExecUnit::Short => 0,
            ExecUnit::Multiply => 1,
            ExecUnit::Divide => 2,
            ExecUnit::Memory => 3,
        }
    }
}
