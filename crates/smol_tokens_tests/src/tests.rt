//! The program in every mode, over readers and writers of every step that fail, and with memory refused; and tallies.
mod fault;
mod law;
mod mode;
mod report;
mod run;
mod tally;
