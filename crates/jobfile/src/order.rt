// A job that a file can hold.
ghost use Rattle.std.specs.Prelude.{◌+◌, ◌≤◌, vec_len};

use crate::setting::Setting;

// The setting of a core, a program, its data words, and how many cycles to run.
#[derive(PartialEq, Eq, Debug, Drop)]
pub struct Job {
    pub setting: Setting,
    pub program: Vec<u32>,
    pub words: Vec<u32>,
    pub cycles: u32,
    ghost short: { vec_len program + vec_len words ≤ 8192 },
    ghost some: { (1 ≤ cycles) × (cycles ≤ 1024) },
}
