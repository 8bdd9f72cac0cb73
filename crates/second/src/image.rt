//! Images: the state of a stopped core in 36 words.

use crate::calls::Second;
use crate::reasons::{Cause, Refusal};

const LENGTH: usize = 36;

impl Second {
    /// Writes the core's image into the first 36 words of the buffer.
    pub fn write_image(&self, buffer: &mut [u32]) -> Result<(), Refusal> {
        self.must_be_stopped()?;
        let image = buffer.first_chunk_mut::<LENGTH>().ok_or(Refusal::Buffer)?;
        for (index, word) in image.iter_mut().enumerate() {
            *word = head(index) | self.number_at(index);
        }
        Ok(())
    }

    /// Takes over what an image holds.
    pub fn take_up(&mut self, image: &[u32]) -> Result<(), Refusal> {
        if self.running {
            return Err(Refusal::Running);
        }
        if image.len() != LENGTH {
            return Err(Refusal::ImageLength);
        }
        for (index, word) in image.iter().enumerate() {
            if !is_good(index, *word) {
                return Err(Refusal::ImageWord(index));
            }
        }
        for (register, halves) in self.registers.iter_mut().zip(image.chunks_exact(2)) {
            if let [low, high] = halves {
                *register = (*high << 16) | (*low & 0xFFFF);
            }
        }
        self.counter = body(image[32]);
        self.cause = Cause::try_from(body(image[33])).ok();
        self.count = body(image[34]);
        Ok(())
    }

    /// The number that the image's word of this index holds.
    fn number_at(&self, index: usize) -> u32 {
        match index {
            32 => self.counter,
            33 => self.cause.map_or(0, u32::from),
            34 => self.count,
            _ => {
                let word = self.registers.get(index / 2).copied().unwrap_or(0);
                if index % 2 == 0 {
                    word & 0xFFFF
                } else {
                    word >> 16
                }
            }
        }
    }
}

/// The bits that a word of an image has for its index: its kind, and the register that it is of. The last word has no
/// others.
fn head(index: usize) -> u32 {
    match index {
        32 => 0x3000_0000,
        33 => 0x4000_0000,
        34 => 0x5000_0000,
        35 => 0xF000_0024,
        _ => {
            let kind = if index % 2 == 0 {
                0x1000_0000
            } else {
                0x2000_0000
            };
            kind | ((index / 2 % 16) as u32) << 24
        }
    }
}

/// What is not the kind.
fn body(word: u32) -> u32 {
    word & 0x0FFF_FFFF
}

/// Whether a word of an image keeps the rule of its index.
fn is_good(index: usize, word: u32) -> bool {
    let most = match index {
        33 => 8,
        34 => 1_000_000,
        35 => 0,
        _ => 0xFFFF,
    };
    // What is left without the head is the number that the word holds.
    let number = word ^ head(index);
    number <= most
}
