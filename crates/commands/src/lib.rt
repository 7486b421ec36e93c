//! The commands of the program: each does its work with the layers below and prints what came of it.
#![tactic(auto)]

pub mod answers;
pub mod board;
pub mod certificate;
pub mod circuits;
pub mod command;
pub mod day;
pub mod finding;
pub mod help;
pub mod label;
pub mod planning;
pub mod printing;
pub mod question;
pub mod refused;
pub mod routes;
pub mod script;
pub mod sheet;
pub mod source;
pub mod task;
pub mod told;
pub mod total;
pub mod words;
