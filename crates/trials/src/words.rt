// Instruction words. In hexadecimal the first digit is the kind, the next three are d, a and b, and the last four n.
use isa::refusal::Refusal;
use isa::words::{Kind, read_word, write_word};

// The kind of a word, with d, a, b and n.
type Fields = (Kind, u8, u8, u8, u16);

const LEGAL: [(u32, Fields); 15] = [
    (0x0000_0000, (Kind::Stop, 0, 0, 0, 0)),
    (0x1f00_ffff, (Kind::Set, 15, 0, 0, 65535)),
    (0x1000_8000, (Kind::Set, 0, 0, 0, 32768)),
    (0x2123_0000, (Kind::Add, 1, 2, 3, 0)),
    (0x2fff_0000, (Kind::Add, 15, 15, 15, 0)),
    (0x3456_0000, (Kind::Subtract, 4, 5, 6, 0)),
    (0x4789_0000, (Kind::ExclusiveOr, 7, 8, 9, 0)),
    (0x5abc_0000, (Kind::Multiply, 10, 11, 12, 0)),
    (0x6312_0000, (Kind::Divide, 3, 1, 2, 0)),
    (0x7def_0000, (Kind::CheckedAdd, 13, 14, 15, 0)),
    (0x8120_0003, (Kind::Load, 1, 2, 0, 3)),
    (0x9012_ffff, (Kind::Store, 0, 1, 2, 65535)),
    (0xa034_0005, (Kind::BranchEqual, 0, 3, 4, 5)),
    (0xb056_0007, (Kind::BranchUnequal, 0, 5, 6, 7)),
    (0xb0ff_ffff, (Kind::BranchUnequal, 0, 15, 15, 65535)),
];

// Each has one field that its kind does not use, or a kind above 11.
const ILLEGAL: [u32; 21] = [
    0x0100_0000,
    0x0010_0000,
    0x0001_0000,
    0x0000_0001,
    0x1010_0000,
    0x1001_0000,
    0x2000_0001,
    0x3000_0001,
    0x4000_0001,
    0x5000_8000,
    0x6312_0001,
    0x7000_0001,
    0x8001_0000,
    0x9100_0000,
    0xa100_0000,
    0xb100_0000,
    0xc000_0000,
    0xd000_0000,
    0xe000_0000,
    0xf000_0000,
    0xffff_ffff,
];

// What no word holds: a field that the kind does not use, or a register above 15.
const UNWRITABLE: [Fields; 24] = [
    (Kind::Stop, 1, 0, 0, 0),
    (Kind::Stop, 0, 1, 0, 0),
    (Kind::Stop, 0, 0, 1, 0),
    (Kind::Stop, 0, 0, 0, 1),
    (Kind::Set, 0, 1, 0, 0),
    (Kind::Set, 0, 0, 1, 0),
    (Kind::Add, 0, 0, 0, 1),
    (Kind::Subtract, 0, 0, 0, 1),
    (Kind::ExclusiveOr, 0, 0, 0, 1),
    (Kind::Multiply, 0, 0, 0, 1),
    (Kind::Divide, 3, 1, 2, 1),
    (Kind::CheckedAdd, 0, 0, 0, 1),
    (Kind::Load, 0, 0, 1, 0),
    (Kind::Store, 1, 0, 0, 0),
    (Kind::BranchEqual, 1, 0, 0, 0),
    (Kind::BranchUnequal, 1, 0, 0, 0),
    (Kind::Set, 16, 0, 0, 0),
    (Kind::Set, 255, 0, 0, 0),
    (Kind::Add, 16, 0, 0, 0),
    (Kind::Add, 0, 16, 0, 0),
    (Kind::Add, 0, 0, 16, 0),
    (Kind::Load, 0, 16, 0, 0),
    (Kind::Store, 0, 0, 16, 0),
    (Kind::BranchEqual, 0, 16, 0, 0),
];

// Every kind is written as its word, and read from it.
#[test]
fn legal_words_are_written_and_read(rt: HostRuntime) {
    for (word, fields) in LEGAL {
        let (kind, d, a, b, n) = fields;
        let both = (write_word(kind, d, a, b, n), read_word(word));
        assert_eq!(rt; both, (Ok(word), Ok(fields)));
    }
}

// A word of a kind above 11, or with a field that its kind does not use, is no instruction.
#[test]
fn other_words_are_not_read(rt: HostRuntime) {
    for word in ILLEGAL {
        assert_eq!(rt; read_word(word), Err(Refusal::NotAnInstruction), "{}", word);
    }
}

// Nor is there a word of a register above 15, or of a field that the kind does not use.
#[test]
fn other_fields_are_not_written(rt: HostRuntime) {
    for (kind, d, a, b, n) in UNWRITABLE {
        assert_eq!(rt;
            write_word(kind, d, a, b, n),
            Err(Refusal::NotAnInstruction)
        );
    }
}
