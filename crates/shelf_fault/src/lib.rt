//! Why an order isn't carried out.
#![tactic(auto)]

mod fault;

pub use fault::{
    Fault, IssuerFault, KeyFault, Label, LineFault, NameForm, Obstacle, Place, SignatureFault,
};
