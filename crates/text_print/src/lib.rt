// text: records and outcomes printed as text (§8.4, §8.5).
// The text is written over the start of the room that the caller lends.
#![tactic(auto)]

mod line; // line.rt: the line that is being written
pub mod print; // print.rt: the text of a row's record
pub mod tell; // tell.rt: the line that tells how a call ended
