// The data words, as loads and stores reach them.
ghost use Rattle.std.specs.Prelude.{◌≡◌, length};
ghost use Rattle.isa.specs.Table.{reached, loaded, stored, verdict, value_or};

use crate::fault::Fault;

// The index of the data word at a base and an offset: their sum counts modulo 2^32, and must be below the number of
// data words.
fn reach(base: u32, offset: u16, many: usize) -> Option<usize>
    ensures { result ≡ reached base offset many }
{
    let address = base.wrapping_add(offset as u32) as usize;
    if address < many { Some(address) } else { None }
}

pub fn load_word(data: &[u32], base: u32, offset: u16) -> Result<u32, Fault>
    ensures { result ≡ loaded «data».now base offset }
{
    let at = reach(base, offset, data.len()).ok_or(Fault::Address)?;
    Ok(data[at])
}

pub fn store_word(data: &mut [u32], base: u32, offset: u16, word: u32) -> Result<(), Fault>
    ensures answer { result ≡ verdict (stored «data».old base offset word) }
    ensures leaves { «data».new ≡ value_or «data».old (stored «data».old base offset word) }
{
    let at = reach(base, offset, data.len()).ok_or(Fault::Address)?;
    data[at] = word;
    Ok(())
}
