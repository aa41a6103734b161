// The one list that everything is kept in, over memory that the caller lends.
#![tactic(auto)]

mod calls;
mod store;

pub use store::List;
