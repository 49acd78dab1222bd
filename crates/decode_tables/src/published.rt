// Decode tables copied row by row from the data sheets of two makers. `*` is no error, a number the data bit in error, C and a name the
// check bit, T two errors and M more.
use crate::sheets::{First, Second, Sheet};

// Row S3 to S0, columns S7 to S4 in hexadecimal.
pub const FIRST64: Sheet<First> = Sheet {
    maker: First,
    title: "the first maker's 64-bit table",
    columns: 16,
    rows: [
        "*  C4 C5 T  C6 T  T  62 C7 T  T  46 T  M  M  T",
        "C0 T  T  14 T  M  M  T  T  M  M  T  M  T  T  30",
        "C1 T  T  M  T  34 56 T  T  50 40 T  M  T  T  M",
        "T  18 8  T  M  T  T  M  M  T  T  M  T  2  24 T",
        "C2 T  T  15 T  35 57 T  T  51 41 T  M  T  T  31",
        "T  19 9  T  M  T  T  63 M  T  T  47 T  3  25 T",
        "T  20 10 T  M  T  T  M  M  T  T  M  T  4  26 T",
        "M  T  T  M  T  36 58 T  T  52 42 T  M  T  T  M",
        "C3 T  T  M  T  37 59 T  T  53 43 T  M  T  T  M",
        "T  21 11 T  M  T  T  M  M  T  T  M  T  5  27 T",
        "T  22 12 T  33 T  T  M  49 T  T  M  T  6  28 T",
        "17 T  T  M  T  38 60 T  T  54 44 T  1  T  T  M",
        "T  23 13 T  M  T  T  M  M  T  T  M  T  7  29 T",
        "M  T  T  M  T  39 61 T  T  55 45 T  M  T  T  M",
        "16 T  T  M  T  M  M  T  T  M  M  T  0  T  T  M",
        "T  M  M  T  32 T  T  M  48 T  T  M  T  M  M  T",
    ],
};

// Row S3 to S0, columns S6 to S4.
pub const FIRST32: Sheet<First> = Sheet {
    maker: First,
    title: "the first maker's 32-bit table",
    columns: 8,
    rows: [
        "*  C4 C5 T  C6 T  T  30",
        "C0 T  T  14 T  M  M  T",
        "C1 T  T  M  T  2  24 T",
        "T  18 8  T  M  T  T  M",
        "C2 T  T  15 T  3  25 T",
        "T  19 9  T  M  T  T  31",
        "T  20 10 T  M  T  T  M",
        "M  T  T  M  T  4  26 T",
        "C3 T  T  M  T  5  27 T",
        "T  21 11 T  M  T  T  M",
        "T  22 12 T  1  T  T  M",
        "17 T  T  M  T  6  28 T",
        "T  23 13 T  M  T  T  M",
        "M  T  T  M  T  7  29 T",
        "16 T  T  M  T  M  M  T",
        "T  M  M  T  0  T  T  M",
    ],
};

// Rows count in SX S0 S1 S2, columns in S4 S8 S16 S32, the last changing fastest.
pub const SECOND64: Sheet<Second> = Sheet {
    maker: Second,
    title: "the second maker's 64-bit table",
    columns: 16,
    rows: [
        "*  C32 C16 T  C8 T  T  M  C4 T  T  M  T  46 62 T",
        "C2 T   T   M  T  43 59 T  T  53 37 T  M  T  T  M",
        "C1 T   T   M  T  41 57 T  T  51 35 T  15 T  T  31",
        "T  M   M   T  13 T  T  29 23 T  T  7  T  M  M  T",
        "C0 T   T   M  T  40 56 T  T  50 34 T  M  T  T  M",
        "T  49  33  T  12 T  T  28 22 T  T  6  T  M  M  T",
        "T  M   M   T  10 T  T  26 20 T  T  4  T  M  M  T",
        "16 T   T   0  T  M  M  T  T  M  M  T  M  T  T  M",
        "CX T   T   M  T  M  M  T  T  M  M  T  14 T  T  30",
        "T  M   M   T  11 T  T  27 21 T  T  5  T  M  M  T",
        "T  M   M   T  9  T  T  25 19 T  T  3  T  47 63 T",
        "M  T   T   M  T  45 61 T  T  55 39 T  M  T  T  M",
        "T  M   M   T  8  T  T  24 18 T  T  2  T  M  M  T",
        "17 T   T   1  T  44 60 T  T  54 38 T  M  T  T  M",
        "M  T   T   M  T  42 58 T  T  52 36 T  M  T  T  M",
        "T  48  32  T  M  T  T  M  M  T  T  M  T  M  M  T",
    ],
};

// Rows count in SX S0 S1 S2, columns in S4 S8 S16.
pub const SECOND32: Sheet<Second> = Sheet {
    maker: Second,
    title: "the second maker's 32-bit table",
    columns: 8,
    rows: [
        "*  C16 C8 T  C4 T  T  30",
        "C2 T   T  27 T  5  M  T",
        "C1 T   T  25 T  3  15 T",
        "T  M   13 T  23 T  T  M",
        "C0 T   T  24 T  2  M  T",
        "T  1   12 T  22 T  T  M",
        "T  M   10 T  20 T  T  M",
        "16 T   T  M  T  M  M  T",
        "CX T   T  M  T  M  14 T",
        "T  M   11 T  21 T  T  M",
        "T  M   9  T  19 T  T  31",
        "M  T   T  29 T  7  M  T",
        "T  M   8  T  18 T  T  M",
        "17 T   T  28 T  6  M  T",
        "M  T   T  26 T  4  M  T",
        "T  0   M  T  M  T  T  M",
    ],
};

// The 16-bit maker's table: for each syndrome bit a row with a digit for data bits 0 to 15, check bits 0 to 5 and no error.
pub const BITS16: [u32; 6] = [
    0b01010101010101011000000,
    0b00110011001100110100000,
    0b00001111111010010010000,
    0b11111111100000000001000,
    0b11101001000011110000100,
    0b10000000111111110000010,
];
