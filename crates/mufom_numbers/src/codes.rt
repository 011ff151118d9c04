//! The codes of a module file: records, letters, functions and brackets, one byte each. The reader, the
//! writer and the specs use them. The codes of records, letters, brackets, the sum and the difference are
//! those of the public `ieee.h` (IEEE Std 695); those of the other functions are this project's profile.

// Leads of numbers and strings.

/// The lead of a number of four bytes.
pub const NUMBER_OF_FOUR_BYTES: u8 = 0x84;
/// The last byte that begins a number: the lead of a number of eight bytes.
pub const LAST_NUMBER: u8 = 0x88;
/// The lead of a string whose length is two bytes.
pub const LONG_STRING: u8 = 0xDF;

// What begins an expression, or follows it.

/// The comma before the size of a field.
pub const COMMA: u8 = 0x90;
/// The first byte of the range of functions, which includes those that this profile leaves out.
pub const FIRST_FUNCTION: u8 = 0xA0;
/// The last byte of the range of functions, which includes those that this profile leaves out.
pub const LAST_FUNCTION: u8 = 0xB9;

// Functions.

/// The absolute value.
pub const FUNCTION_ABS: u8 = 0xA2;
/// The negation.
pub const FUNCTION_NEG: u8 = 0xA3;
/// The sum.
pub const FUNCTION_PLUS: u8 = 0xA5;
/// The difference.
pub const FUNCTION_MINUS: u8 = 0xA6;
/// The quotient.
pub const FUNCTION_DIVIDE: u8 = 0xA7;
/// The product.
pub const FUNCTION_TIMES: u8 = 0xA8;
/// The greater of two.
pub const FUNCTION_MAX: u8 = 0xA9;
/// The lesser of two.
pub const FUNCTION_MIN: u8 = 0xAA;
/// The remainder.
pub const FUNCTION_MOD: u8 = 0xAB;
/// Whether the first is less.
pub const FUNCTION_LESS: u8 = 0xAC;
/// Whether the first is greater.
pub const FUNCTION_GREATER: u8 = 0xAD;
/// Whether both are equal.
pub const FUNCTION_EQUAL: u8 = 0xAE;
/// Whether they differ.
pub const FUNCTION_UNEQUAL: u8 = 0xAF;
/// The bitwise AND.
pub const FUNCTION_AND: u8 = 0xB0;
/// The bitwise OR.
pub const FUNCTION_OR: u8 = 0xB1;
/// The bitwise exclusive OR.
pub const FUNCTION_XOR: u8 = 0xB2;

// Brackets of fields.

/// Opens a signed field.
pub const OPEN_SIGNED: u8 = 0xBA;
/// Closes a signed field.
pub const CLOSE_SIGNED: u8 = 0xBB;
/// Opens an unsigned field.
pub const OPEN_UNSIGNED: u8 = 0xBC;
/// Closes an unsigned field.
pub const CLOSE_UNSIGNED: u8 = 0xBD;
/// Opens a field that is read either way.
pub const OPEN_EITHER: u8 = 0xBE;
/// Closes a field that is read either way.
pub const CLOSE_EITHER: u8 = 0xBF;

// Letters, A to Z from C1 to DA.

/// The letter A.
pub const LETTER_A: u8 = 0xC1;
/// The letter B.
pub const LETTER_B: u8 = 0xC2;
/// The letter C.
pub const LETTER_C: u8 = 0xC3;
/// The letter D.
pub const LETTER_D: u8 = 0xC4;
/// The letter F.
pub const LETTER_F: u8 = 0xC6;
/// The letter G.
pub const LETTER_G: u8 = 0xC7;
/// The letter I.
pub const LETTER_I: u8 = 0xC9;
/// The letter L.
pub const LETTER_L: u8 = 0xCC;
/// The letter M.
pub const LETTER_M: u8 = 0xCD;
/// The letter N.
pub const LETTER_N: u8 = 0xCE;
/// The letter P.
pub const LETTER_P: u8 = 0xD0;
/// The letter R.
pub const LETTER_R: u8 = 0xD2;
/// The letter S.
pub const LETTER_S: u8 = 0xD3;
/// The letter W.
pub const LETTER_W: u8 = 0xD7;
/// The letter X.
pub const LETTER_X: u8 = 0xD8;
/// The letter Z.
pub const LETTER_Z: u8 = 0xDA;

// Records.

/// MB, module begin.
pub const MODULE_BEGIN: u8 = 0xE0;
/// ME, module end.
pub const MODULE_END: u8 = 0xE1;
/// An assignment; its letter follows.
pub const ASSIGNMENT: u8 = 0xE2;
/// LR, load relocate.
pub const RELOCATE: u8 = 0xE4;
/// SB, set section.
pub const SET_SECTION: u8 = 0xE5;
/// ST, section type.
pub const SECTION_TYPE: u8 = 0xE6;
/// SA, section alignment.
pub const SECTION_ALIGNMENT: u8 = 0xE7;
/// NI, public name.
pub const PUBLIC_NAME: u8 = 0xE8;
/// NX, external reference.
pub const REFERENCE_NAME: u8 = 0xE9;
/// AD, address descriptor.
pub const DESCRIPTOR: u8 = 0xEC;
/// LD, load constant.
pub const CONSTANT: u8 = 0xED;
/// NN, debug name.
pub const DEBUG_NAME: u8 = 0xF0;
/// An attribute (ATI, ATX or ATN); its letter follows.
pub const NOTE: u8 = 0xF1;
/// TY, type; left out of this profile.
pub const TYPE: u8 = 0xF2;
/// WX, weak external reference.
pub const WEAK_REFERENCE: u8 = 0xF4;
/// RE, repeat data.
pub const REPEAT: u8 = 0xF7;
/// BB, block begin.
pub const BLOCK_BEGIN: u8 = 0xF8;
/// BE, block end.
pub const BLOCK_END: u8 = 0xF9;
