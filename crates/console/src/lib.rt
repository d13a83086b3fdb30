// The calls of a script, played on a work area and a host, and answered line by line.
#![tactic(auto)]

mod area;
mod reading;
pub mod run;
mod served;
mod session;
mod steps;
mod texts;
mod traced;
