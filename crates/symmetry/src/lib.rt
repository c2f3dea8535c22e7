//! Symmetry: positions that are rotations, reflections and shifts of one another have the same
//! moves, rotated, reflected and shifted.
#![tactic(auto)]

mod finding;
mod keys;
mod laws;
mod own;
mod symmetry;

pub use finding::{OwnSymmetries, own_symmetries};
pub use keys::{alike, moved};
pub use laws::{
    after_is_alike, images_are_boards, legal_moves_are_alike, legal_moves_are_placed,
    lines_are_alike, shift_is_only, states_are_alike, symmetries_are_isometries, takes_are_tested,
};
pub use own::OwnSymmetry;
pub use symmetry::Symmetry;
