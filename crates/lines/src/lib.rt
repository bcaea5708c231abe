// Input that comes in pieces, taken as lines, and a responder that answers them one after another.
#![tactic(auto)]

pub mod feed;
pub mod line_buffer;
pub mod responder;
