//! The texts of `examples/` with their outputs.

mod a_to_m;
mod n_to_z;

pub(super) use a_to_m::A_TO_M;
pub(super) use n_to_z::N_TO_Z;
