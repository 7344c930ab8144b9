// The coded type by value: its four variants, how it is made, and its small getters.
#![tactic(auto)]

mod variants; // variants.rt: the four variants and what each holds
mod coded_type; // coded_type.rt: the coded type, its making and its small getters

pub use coded_type::DiagCodedType;
pub use variants::{
    DiagCodedTypeVariant, MinMaxLengthType, Place, StandardLengthType, Termination,
};
