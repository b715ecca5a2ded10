//! The seven messages of RFC 2205 as values, with what makes one proper.
//!
//! A message is seen as the record of what its objects say: sessions, hops, flows, sets of senders. What is asked for,
//! torn down or blamed is a list of units with their names: a definition in `specs/`, as is what makes a message proper.
//! No call takes memory.
#![tactic(auto)]

mod ask;
mod fault;
mod fixed_list;
mod message;

pub use ask::{Ask, Blame, Tear};
pub use fault::{Fault, Hint, MsgErr};
pub use fixed_list::FixedList;
pub use message::{
    Kind, Message, PathErrMsg, PathMsg, PathTearMsg, ResvConfMsg, ResvErrMsg, ResvMsg, ResvTearMsg,
};
