// The language of the console: a line of bytes as words, words as a command, an answer as a line of text, and input that comes in pieces as lines.
#![tactic(auto)]

pub mod command;
pub mod measure;
pub mod parse;
pub mod print;
pub mod token;
pub mod words;
