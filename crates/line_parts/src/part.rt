//! What a line is made of.

use nt_bytes::Units;

/// A part of a line: a word of the text alone, or a field by its key and its value, whose kind says how the text has it.
#[derive(Clone, Copy)]
pub enum Part<'a> {
    /// A word that the text alone has.
    Said(&'a [u8]),
    /// A number in decimal.
    Number(&'a [u8], u64),
    /// A word, as it is.
    Word(&'a [u8], &'a [u8]),
    /// A name, as the report of a start has it.
    Name(&'a [u8], &'a [u16]),
    /// A text in quotes.
    Quoted(&'a [u8], &'a [u16]),
    /// A text in quotes only where it cannot stand without them.
    Written(&'a [u8], &'a [u16]),
    /// A path by its names, written so.
    Path(&'a [u8], &'a [Units]),
    /// A path of boot.ini by its bytes.
    BootPath(&'a [u8], &'a [u8]),
    /// Texts in quotes with commas between them, or a minus sign.
    Texts(&'a [u8], &'a [Units]),
    /// Numbers with commas between them, or a minus sign.
    Numbers(&'a [u8], &'a [u32]),
    /// Texts by their count, and each in quotes.
    Counted(&'a [u8], &'a [Units]),
    /// Bytes by their digits, of which the text has nothing where there is none.
    Digits(&'a [u8], &'a [u8]),
    /// Bytes by their digits, of which the text has those of 32 bytes, and two dots where there are more.
    Cut(&'a [u8], &'a [u8]),
    /// A number of two bytes, by its digits.
    Hex(&'a [u8], u16),
    /// A number of four bytes, by its digits.
    WideHex(&'a [u8], u32),
    /// A number of four bytes, in decimal and by its digits.
    Dword(&'a [u8], u32),
    /// A number of eight bytes, so.
    Qword(&'a [u8], u64),
    /// A flag, of which the text has the word where it is off, and nothing where it is on.
    Unless(&'a [u8], &'a [u8], bool),
    /// Words, each after a space.
    Words(&'a [u8], &'a [&'a [u8]]),
    /// Nothing there: a minus sign.
    Nothing(&'a [u8]),
    /// Nothing there, of which the text has nothing.
    Absent(&'a [u8]),
    /// A word that the object alone has.
    Hidden(&'a [u8], &'a [u8]),
    /// A record begins, in the text a bracket: the key, then the key of the record's first field and its word.
    Bracket(&'a [u8], &'a [u8], &'a [u8]),
    /// The record ends, and the bracket.
    BracketEnd,
    /// A list of records begins: the key, then the word that the text has before each record, the key of the first field
    /// and the name that it has.
    Records(&'a [u8], &'a [u8], &'a [u8], &'a [u16]),
    /// A record of the list ends and the next one begins, so.
    NextRecord(&'a [u8], &'a [u8], &'a [u16]),
    /// The last record ends, and the list.
    RecordsEnd,
    /// A list without a record, of which the text has nothing.
    NoRecords(&'a [u8]),
}
