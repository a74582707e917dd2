//! Tests of ends of bytes and of the lines in a text.

mod ends;
mod lines;
