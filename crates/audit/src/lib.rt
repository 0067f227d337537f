// An audit of a feed: its cells offered one by one to a standing state and counted, two outlines compared, and what there is to say.
#![tactic(auto)]

pub mod feed;
pub mod same;
pub mod summary;
