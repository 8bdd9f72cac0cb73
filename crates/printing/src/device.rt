// The two cores of the cradle.
ghost use Rattle.std.specs.Prelude.{Some};
ghost use Rattle.printing.specs.Lines.{device_name};

use std::fmt;

#[derive(Clone, Copy, PartialEq, Eq, Debug)]
pub enum Device {
    Scanner,
    Spare,
}

impl fmt::Display for Device {
    ghost output = { λ device. Some (device_name device) };

    fn fmt<W: fmt::Write>(&self, f: &mut fmt::Formatter<W>) -> fmt::Result {
        match self {
            Device::Scanner => write!(f, "scanner"),
            Device::Spare => write!(f, "spare"),
        }
    }
}
