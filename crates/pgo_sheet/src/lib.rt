// Sheets of rows: what is asked, and the answer that is wanted, line by line, as a person writes them. A program that reads a sheet
// prints each row with another answer and how many rows there are; one row more costs no proof.
//
// A line is a key, a blank and a text; a line without a blank is a key alone. `#`, `##` and empty lines are comments. `=>` ends a row and
// has the answer that is wanted. A key with % behind it has %n, %t, %r in its text for a newline, a tab and a carriage return, %0 for the byte 0,
// and % before any other character for that character.
#![tactic(auto)]

pub mod answers;
pub mod escapes;
pub mod files;
pub mod sheet;
pub mod template;
pub mod text_builder;
