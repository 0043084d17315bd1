//! Examples for the definitions in the claim of rgo_run: programs for which the default options suffice, and for each definition
//! something that satisfies it and something that does not. They show that no definition is empty or trivial.
#![tactic(auto)]

mod laws;

pub use laws::{
    compiled_examples, emitted_examples, end_examples, programs_suffice, record_examples,
    region_run_examples, room_examples, state_examples, text_examples, texts_run,
};
