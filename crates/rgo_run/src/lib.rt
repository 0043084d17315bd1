//! The compiler and its runtime as one call: `rgo` reads a text, checks it, runs it or prints its code, and returns a
//! status.
#![tactic(auto)]

mod commands;
mod constants;
mod endings;
mod laws;
mod pipeline;
mod positions;
mod recording;
mod refusals;
mod replaying;
mod report;
mod top;

pub use endings::{Ending, TextKind};
pub use laws::{
    emitted_passes, few_suffice, no_program_is_too_large, one_code_verdict, one_compiled,
    one_verdict, programs_are_well_formed, recorded_is_replayed,
};
pub use pipeline::{compile, lower_text};
pub use refusals::{CodeTextError, CodeTextRefusal, TextError, TextRefusal};
pub use replaying::ReplayEnding;
pub use rgo_code::{CodeRefusal, Rule as CodeRule};
pub use rgo_command_line::Command;
pub use rgo_journal::ReplayEnd;
pub use rgo_lexer::{LexRefusal, LexicalKind};
pub use rgo_machine::{End, Limits, RunEnd};
pub use rgo_memory::Trap;
pub use rgo_typing_rules::{Rule, TypeRefusal};
pub use top::rgo;
