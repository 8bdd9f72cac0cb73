// Images: the state of a stopped core as 36 words, and the reading and writing of them.
//
// A word has its kind in bits 31 to 28, a register in bits 27 to 24, 0 where it speaks of none, and a value below. The
// words 2r and 2r + 1 are of the kinds 1 and 2 and hold the low and the high half of the register r. Then come one word
// each of the kind 3 with the counter, of the kind 4 with the number of the cause, of the kind 5 with the count, and the
// end word. A half and the counter are below 2^16, the cause at most 8 and the count at most 1,000,000, so that every
// bit above them is zero.
#![tactic(auto)]

ghost use Rattle.images.specs.Laws.{ReadThenWrite, WriteThenRead, FirstBadWord};

pub mod layout;
pub mod read;
pub mod state;
pub mod write;

// Each image means one state: what is read writes the same words, and what is written reads the same.
pub fn images_round_trip()
    ensures there { ReadThenWrite }
    ensures back { WriteThenRead }
{}

// What is refused for a word is refused for the first that breaks its rule, and 36 words that keep theirs are read.
pub fn images_keep_rules()
    ensures { FirstBadWord }
{}
