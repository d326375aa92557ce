// text: the lines of a script: the alphabet of the first, and what a later one asks for (§8.2, §8.3).
#![tactic(auto)]

pub mod open; // open.rt: the alphabet of the first line
pub mod lines; // lines.rt: what a later line asks for
