// Words of 32 bits as bytes, the lowest first.
ghost use Rattle.std.specs.Prelude.{◌≡◌, true, ◌++◌, is_ok, IfOk};
ghost use Rattle.jobfile.specs.Bytes.{words_of, bytes_of_words};

use std::alloc::{AllocError, Global};

// The whole words at the front of some bytes.
pub fn words_of(alloc: Global, bytes: &[u8]) -> Result<Vec<u32>, AllocError>
    ensures { IfOk result (λ v. v.items ≡ words_of bytes.now) }
{
    let (words, _) = bytes.as_chunks::<4>();
    words
        .iter()
        .map(|word| u32::from_le_bytes(*word))
        .collect(alloc)
}

// Appends the bytes of some words.
#[tactic(auto, using(std::proofs::lemmas::Grind::common_steps, std::proofs::lemmas::List::flat_map_more))]
pub fn push_words(bytes: &mut Vec<u8>, words: &[u32]) -> Result<(), AllocError>
    ensures { is_ok result ≡ true → bytes.new.items ≡ bytes.old.items ++ bytes_of_words words.now }
{
    for word in words {
        bytes.extend_from_slice(&word.to_le_bytes())?;
    }
    Ok(())
}
