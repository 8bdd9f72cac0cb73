// The word that a counter names.
ghost use Rattle.std.specs.Prelude.{◌≡◌, ◌<◌, length, IfOk, MatchResult};
ghost use Rattle.isa.specs.Table.{halt, row, fetched};

use crate::fault::Fault;
use crate::words::{Kind, read_word};

// The kind and the fields of the word at a counter. A counter at or past the program's length is a fault, and so is an
// illegal word.
pub fn fetch(program: &[u32], counter: usize) -> Result<(Kind, u8, u8, u8, u16), Fault>
    ensures fetches { MatchResult result (λ i. fetched program.now counter ≡ row i.0 i.1 i.2 i.3 i.4) (λ fault. fetched program.now counter ≡ halt fault) }
    ensures inside { IfOk result (λ i. counter < length program.now) }
    ensures registers { IfOk result (λ i. (i.1 < 16) × (i.2 < 16) × (i.3 < 16)) }
{
    if counter >= program.len() {
        return Err(Fault::PastEnd);
    }
    match read_word(program[counter]) {
        Ok(word) => Ok(word),
        Err(_) => Err(Fault::Illegal),
    }
}
