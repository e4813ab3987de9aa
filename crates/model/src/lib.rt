// The model in a licensee's own harness: its calls for C, with numbers and slices, and nothing else. The calls of libhost.a are here too.
#![tactic(auto)]

mod archive_calls;
mod cache_calls;
mod memory_calls;
mod predict;
mod salvaging;
