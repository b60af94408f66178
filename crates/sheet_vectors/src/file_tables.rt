// Files and what is made of them, as tools/sheet_model.py has it.

// Where a file is refused, None where it is a lawful save; what it is; its bytes in hexadecimal digits.
pub(crate) type File = (Option<usize>, &'static str, &'static str);

// A square of side 3, cut into sixteen when enlarged fourfold.
pub(crate) const WIDE_SQUARE: &str = concat!(
    "R 4\n",
    "I 4 0\n",
    "L 0 3 0\n",
    "S 0 1 0 1 0 1 0 1\n",
    "T 0 1 0 0 1 1 0 1 2 0 1 3\n",
    "C 0 0 0 0 0\n",
    "C 0 0 0 3 0\n",
    "C 0 0 0 6 0\n",
    "C 0 0 0 9 0\n",
    "C 0 0 0 0 3\n",
    "C 0 0 0 3 3\n",
    "C 0 0 0 6 3\n",
    "C 0 0 0 9 3\n",
    "C 0 0 0 0 6\n",
    "C 0 0 0 3 6\n",
    "C 0 0 0 6 6\n",
    "C 0 0 0 9 6\n",
    "C 0 0 0 0 9\n",
    "C 0 0 0 3 9\n",
    "C 0 0 0 6 9\n",
    "C 0 0 0 9 9\n",
    "D 8\n",
);

// A rhombus of side 1, cut into sixteen when enlarged fourfold.
pub(crate) const RHOMBUS: &str = concat!(
    "R 10\n",
    "I 4 0 0 0\n",
    "L 0 1 0 0 0\n",
    "S 0 1 0 1 0 1 0 1\n",
    "T 0 1 0 0 1 2 0 1 5 0 1 7\n",
    "C 0 0 0 0 0 0 0\n",
    "C 0 0 0 1 0 0 0\n",
    "C 0 0 0 2 0 0 0\n",
    "C 0 0 0 3 0 0 0\n",
    "C 0 0 0 0 0 1 0\n",
    "C 0 0 0 1 0 1 0\n",
    "C 0 0 0 2 0 1 0\n",
    "C 0 0 0 3 0 1 0\n",
    "C 0 0 0 0 0 2 0\n",
    "C 0 0 0 1 0 2 0\n",
    "C 0 0 0 2 0 2 0\n",
    "C 0 0 0 3 0 2 0\n",
    "C 0 0 0 0 0 3 0\n",
    "C 0 0 0 1 0 3 0\n",
    "C 0 0 0 2 0 3 0\n",
    "C 0 0 0 3 0 3 0\n",
    "D 8\n",
);

// One chair, cut once.
pub(crate) const CHAIR_FILES: [File; 44] = [
    (
        None,
        "descend, lay x2, aside",
        "01000301000000000000000000000000000001000000011000",
    ),
    (None, "no call", "01000000"),
    (None, "descend", "01000001"),
    (
        None,
        "descend, lay x4",
        "0100040100000000000000000000000000000100000001000100000004000000000003000000000000000400",
    ),
    (None, "aside", "0100011000"),
    (Some(0), "cut to nothing: an empty file", ""),
    (Some(0), "cut after 1 byte, in the header", "01"),
    (Some(0), "cut after 2 bytes, in the header", "0100"),
    (
        Some(3),
        "cut after the header: no byte of the first record is there",
        "010003",
    ),
    (
        Some(3),
        "cut after the first record's first byte",
        "01000301",
    ),
    (
        Some(3),
        "cut one byte before the end of the first record",
        "010003010000000000000000",
    ),
    (
        Some(13),
        "cut between two records",
        "01000301000000000000000000",
    ),
    (
        Some(24),
        "cut before the last byte",
        "010003010000000000000000000000000000010000000110",
    ),
    (
        Some(0),
        "depth 2",
        "02000301000000000000000000000000000001000000011000",
    ),
    (
        Some(0),
        "depth 2, and a wrong turn in the second record: the header decides",
        "02000301000000000000000000000100000001000000011000",
    ),
    (
        Some(23),
        "count one too few: the third record is read as the last byte, 16 descents",
        "01000201000000000000000000000000000001000000011000",
    ),
    (
        Some(24),
        "count one too few: the first byte of the third record passes as the last byte, the rest is surplus",
        "01000201000000000000000000000000000001000000010001000000040000000000",
    ),
    (
        Some(4),
        "count 0: the first record begins with a byte that passes as the last one, the rest is surplus",
        "01000001000000000000000000000000000001000000011000",
    ),
    (
        Some(24),
        "count one too many: the last byte begins a record that is cut",
        "01000401000000000000000000000000000001000000011000",
    ),
    (
        Some(43),
        "count one too many where nothing is left",
        "0100050100000000000000000000000000000100000001000100000004000000000003000000000000000400",
    ),
    (
        Some(24),
        "the count's bytes exchanged: 768 records",
        "01030001000000000000000000000000000001000000011000",
    ),
    (
        Some(0),
        "count 4097",
        "01100101000000000000000000000000000001000000011000",
    ),
    (
        Some(25),
        "one surplus byte, 00",
        "0100030100000000000000000000000000000100000001100000",
    ),
    (
        Some(44),
        "one surplus byte, 00, where nothing is left",
        "010004010000000000000000000000000000010000000100010000000400000000000300000000000000040000",
    ),
    (
        Some(13),
        "the second record's turn 4 for 0",
        "01000301000000000000000000000400000001000000011000",
    ),
    (
        Some(13),
        "the second record marked mirrored",
        "01000301000000000000000000200000000001000000011000",
    ),
    (
        Some(13),
        "the first byte of the second record's first coefficient 01 for 00",
        "01000301000000000000000000000001000001000000011000",
    ),
    (
        Some(13),
        "the second record's first coefficient -1 for 1",
        "010003010000000000000000000000ffffffff000000011000",
    ),
    (
        Some(13),
        "the second record's coefficients with their low bytes first",
        "01000301000000000000000000000001000000010000001000",
    ),
    (
        Some(23),
        "both marks on the record that is set aside",
        "01000301000000000000000000000000000001000000013000",
    ),
    (
        Some(13),
        "both marks on the second record, which is laid",
        "01000301000000000000000000300000000001000000011000",
    ),
    (
        Some(3),
        "the bit 40 in the first record",
        "01000341000000000000000000000000000001000000011000",
    ),
    (
        Some(23),
        "the bit 40 in the record that is set aside",
        "01000301000000000000000000000000000001000000015000",
    ),
    (
        Some(24),
        "the bit 10 in the last byte: 16 descents",
        "01000301000000000000000000000000000001000000011010",
    ),
    (
        Some(24),
        "the last byte 1, at the depth",
        "01000301000000000000000000000000000001000000011001",
    ),
    (
        Some(43),
        "the last byte 1 where nothing is left",
        "0100040100000000000000000000000000000100000001000100000004000000000003000000000000000401",
    ),
    (
        Some(3),
        "2 descents in the first record, beyond the depth",
        "01000302000000000000000000000000000001000000011000",
    ),
    (
        Some(23),
        "1 descent in the record that is set aside, beyond the depth",
        "01000301000000000000000000000000000001000000011100",
    ),
    (
        Some(3),
        "no descent in the first record: laid above the depth",
        "01000300000000000000000000000000000001000000011000",
    ),
    (
        Some(14),
        "the second record marked as set aside: the next record begins with its turn",
        "01000301000000000000000000100000000001000000011000",
    ),
    (
        Some(3),
        "the first two records exchanged",
        "01000300000000000100000001010000000000000000001000",
    ),
    (
        None,
        "the second record left out, the count one less: the second node set aside",
        "010002010000000000000000001000",
    ),
    (
        Some(4),
        "the record twice: nothing is left for the second",
        "010002101000",
    ),
    (
        None,
        "1 descent in the record: the first child set aside, which leaves three pending",
        "0100011100",
    ),
];

// Two chairs cut twice, the second mirrored.
pub(crate) const TWO_CHAIRS_FILES: [File; 14] = [
    (
        None,
        "descend x2, lay x4, aside, descend, lay",
        "02000602000000000000000000000000000001000000010001000000040000000000030000000000000004100101000000080000000000",
    ),
    (
        None,
        "aside, descend x2, lay x2, aside",
        "02000410220100000014fffffff4200100000015fffffff51000",
    ),
    (
        Some(4),
        "the first laid record not marked as mirrored",
        "02000410020100000014fffffff4200100000015fffffff51000",
    ),
    (
        Some(3),
        "the set-aside mark of the first record left out: laid above the depth",
        "02000400220100000014fffffff4200100000015fffffff51000",
    ),
    (
        Some(3),
        "the first record marked both set aside and mirrored",
        "02000430220100000014fffffff4200100000015fffffff51000",
    ),
    (
        Some(4),
        "3 descents in the first laid record",
        "02000410230100000014fffffff4200100000015fffffff51000",
    ),
    (
        Some(4),
        "a negative coefficient without its sign: +12 for -12",
        "020004102201000000140000000c200100000015fffffff51000",
    ),
    (
        None,
        "the last byte 1: one more descent",
        "0200040200000000000000000000000000000100000001000100000004000000000003000000000000000401",
    ),
    (
        Some(44),
        "no descent in the last record: laid above the depth",
        "02000602000000000000000000000000000001000000010001000000040000000000030000000000000004100001000000080000000000",
    ),
    (
        Some(44),
        "1 descent in the record set aside at level 1: set aside at level 2, and the descent of the next goes beyond the depth",
        "02000602000000000000000000000000000001000000010001000000040000000000030000000000000004110101000000080000000000",
    ),
    (
        None,
        "2 descents in the record: a child at level 2 set aside",
        "0200011200",
    ),
    (
        Some(3),
        "3 descents in the record, beyond the depth",
        "0200011300",
    ),
    (
        Some(5),
        "the last byte 1 where nothing is left",
        "020002101001",
    ),
    (
        Some(0),
        "the save of another job, chair at depth 1",
        "01000301000000000000000000000000000001000000011000",
    ),
];

// Two chairs that are not cut, the second mirrored.
pub(crate) const UNCUT_CHAIRS_FILES: [File; 4] = [
    (
        None,
        "lay x2",
        "00000200000000000000000000200100000005fffffffd00",
    ),
    (
        Some(3),
        "1 descent in the first record, beyond depth 0",
        "00000201000000000000000000200100000005fffffffd00",
    ),
    (
        Some(13),
        "the mirrored seed not marked as mirrored",
        "00000200000000000000000000000100000005fffffffd00",
    ),
    (Some(3), "the last byte 1, beyond depth 0", "00000001"),
];

// A chair cut twelve times.
pub(crate) const DEEP_CHAIR_FILES: [File; 3] = [
    (None, "descend x12, lay", "0c00010c00000000000000000000"),
    (Some(3), "the last byte 13", "0c00000d"),
    (
        Some(3),
        "11 descents in the record: laid above the depth",
        "0c00010b00000000000000000000",
    ),
];

// Four half kites and darts cut twice, two of them mirrored.
pub(crate) const PENROSE_FILES: [File; 10] = [
    (
        None,
        "descend x2, lay x3, aside, descend, lay x2, aside, descend x2, lay",
        "0200080200000000010000000100000001000000002000000000010000000100000001000000000003000000030000000000000002fffffffe10010000000000000000000000000000000000200700000001000000010000000100000000102207000000020000000000000001fffffffe00",
    ),
    (
        Some(21),
        "the second record's mark turned",
        "0200030200000000010000000100000001000000000000000000010000000100000001000000000003000000030000000000000002fffffffe00",
    ),
    (
        Some(39),
        "the third record's turn 5 more",
        "0200030200000000010000000100000001000000002000000000010000000100000001000000000008000000030000000000000002fffffffe00",
    ),
    (
        Some(21),
        "the second record's fourth coefficient one more",
        "0200030200000000010000000100000001000000002000000000010000000100000001000000010003000000030000000000000002fffffffe00",
    ),
    (
        Some(21),
        "cut after two of the second record's four coefficients",
        "02000302000000000100000001000000010000000020000000000100000001",
    ),
    (
        Some(58),
        "one surplus byte",
        "0200030200000000010000000100000001000000002000000000010000000100000001000000000003000000030000000000000002fffffffe0007",
    ),
    (
        None,
        "aside x2, descend x2, lay, aside, lay",
        "02000510102207000000020000000000000001fffffffe10200400000003ffffffff00000001fffffffc00",
    ),
    (
        Some(5),
        "the first laid record's mark turned",
        "02000510100207000000020000000000000001fffffffe10200400000003ffffffff00000001fffffffc00",
    ),
    (
        Some(5),
        "the first laid record's descents 1: laid above the depth",
        "02000510102107000000020000000000000001fffffffe10200400000003ffffffff00000001fffffffc00",
    ),
    (
        None,
        "descend, aside x5, descend x2, lay",
        "020006111010101022080000000100000002000000010000000300",
    ),
];

// A mirrored seed, cut four times.
pub(crate) const MIRRORED_FILES: [File; 3] = [
    (
        None,
        "descend x2, aside, descend x2, lay x2, aside x2",
        "04000512020700000007fffffffe00000003fffffff9200700000007fffffffe00000003fffffff9101000",
    ),
    (
        Some(4),
        "the second record's mark turned",
        "04000512220700000007fffffffe00000003fffffff9200700000007fffffffe00000003fffffff9101000",
    ),
    (
        Some(4),
        "the record set aside at level 2 set aside at level 3: the descents of the next go beyond the depth",
        "04000513020700000007fffffffe00000003fffffff9200700000007fffffffe00000003fffffff9101000",
    ),
];

// The far square cut eight times: the corners of its first piece are off the plane.
pub(crate) const FAR_FILES: [File; 2] = [
    (None, "descend x8, aside", "0800011800"),
    (
        Some(3),
        "laid instead, at (1048576,0): the place is the last on the plane, other corners are off it",
        "0800010800001000000000000000",
    ),
];

// The far square cut nine times: its first piece is off the plane.
pub(crate) const FARTHER_FILES: [File; 3] = [
    (None, "descend x8, aside x2", "090002181000"),
    (
        Some(3),
        "laid instead, at (4194304,0): the place is off the plane",
        "0900010900004000000000000000",
    ),
    (
        Some(4),
        "the last byte 1, at the depth, after a node off the plane",
        "0900011901",
    ),
];

// The wide square: pieces whose parents are on the plane, and are not when they are enlarged.
pub(crate) const WIDE_SQUARE_FILES: [File; 3] = [
    (
        None,
        "pieces and nodes set aside, as saved",
        "08000b111111111111111110101000",
    ),
    (
        Some(13),
        "the last record laid instead, at (1048571,0): that place and its corners are on the plane, but its parent's place times the factor is not",
        "08000b111111111111111110100002000ffffb0000000000",
    ),
    (
        None,
        "pieces and nodes set aside, as saved",
        "08000911111111111111100102000ffff80000000000",
    ),
];

// A far rhombus, mirrored: on the plane itself, its corners off it.
pub(crate) const MIRRORED_RHOMBUS_FILES: [File; 2] = [
    (None, "descend x8, aside", "0800011800"),
    (
        Some(3),
        "laid instead, at (0,0,0,-1048576): mirrored corners are off the plane",
        "0800012800000000000000000000000000fff0000000",
    ),
];

// The same on the other side of 0, where its corners are on the plane too.
pub(crate) const FAR_RHOMBUS_FILES: [File; 2] = [
    (
        None,
        "descend x8, lay",
        "08000128000000000000000000000000000010000000",
    ),
    (
        Some(3),
        "not marked as mirrored",
        "08000108000000000000000000000000000010000000",
    ),
];
