// The symbols of a cell: one table by byte.
#![tactic(auto)]

ghost use Rattle.std.specs.Prelude.{◌≡◌};
ghost use Rattle.sheet_symbols.specs.Symbol.{symbol_of};

use parsimony::Cell;

// The set of states of each byte; 0, which is no set of a cell, where the byte is not in the code list.
const TABLE: [Cell; 256] = [
    0, // byte 0
    0, 0, 0, 0, 0, 0, 0, 0, 0, 0, 0, 0, 0, 0, 0, 0, // byte 16
    0, 0, 0, 0, 0, 0, 0, 0, 0, 0, 0, 0, 0, 0, 0, 0, // byte 32
    0, // !
    0, // "
    0, // #
    0, // $
    0, // %
    0, // &
    0, // '
    0, // (
    0, // )
    0, // *
    0, // +
    0, // ,
    0b1111, // -
    0, // .
    0, // /
    0, // 0
    0, // 1
    0, // 2
    0, // 3
    0, // 4
    0, // 5
    0, // 6
    0, // 7
    0, // 8
    0, // 9
    0, // :
    0, // ;
    0, // <
    0, // =
    0, // >
    0b1111, // ?
    0, // @
    0b0001, // A
    0b1110, // B
    0b0010, // C
    0b1101, // D
    0, // E
    0, // F
    0b0100, // G
    0b1011, // H
    0, // I
    0, // J
    0b1100, // K
    0, // L
    0b0011, // M
    0b1111, // N
    0, // O
    0, // P
    0, // Q
    0b0101, // R
    0b0110, // S
    0b1000, // T
    0b1000, // U
    0b0111, // V
    0b1001, // W
    0, // X
    0b1010, // Y
    0, // Z
    0, // [
    0, // \
    0, // ]
    0, // ^
    0, // _
    0, // `
    0, // a
    0, // b
    0, // c
    0, // d
    0, // e
    0, // f
    0, // g
    0, // h
    0, // i
    0, // j
    0, // k
    0, // l
    0, // m
    0, // n
    0, // o
    0, // p
    0, // q
    0, // r
    0, // s
    0, // t
    0, // u
    0, // v
    0, // w
    0, // x
    0, // y
    0, // z
    0, // {
    0, // |
    0, // }
    0, // ~
    0, 0, // byte 128
    0, 0, 0, 0, 0, 0, 0, 0, 0, 0, 0, 0, 0, 0, 0, 0, // byte 144
    0, 0, 0, 0, 0, 0, 0, 0, 0, 0, 0, 0, 0, 0, 0, 0, // byte 160
    0, 0, 0, 0, 0, 0, 0, 0, 0, 0, 0, 0, 0, 0, 0, 0, // byte 176
    0, 0, 0, 0, 0, 0, 0, 0, 0, 0, 0, 0, 0, 0, 0, 0, // byte 192
    0, 0, 0, 0, 0, 0, 0, 0, 0, 0, 0, 0, 0, 0, 0, 0, // byte 208
    0, 0, 0, 0, 0, 0, 0, 0, 0, 0, 0, 0, 0, 0, 0, 0, // byte 224
    0, 0, 0, 0, 0, 0, 0, 0, 0, 0, 0, 0, 0, 0, 0, 0, // byte 240
    0, 0, 0, 0, 0, 0, 0, 0, 0, 0, 0, 0, 0, 0, 0,
];

// What the byte stands for: a set of states, bit 0 for A, 1 for C, 2 for G, 3 for T; none where it is not in the code
// list.
pub fn symbol_of(byte: u8) -> Option<Cell>
    ensures { result ≡ symbol_of byte }
{
    let set = TABLE[usize::from(byte)];
    if set == 0 { None } else { Some(set) }
}
