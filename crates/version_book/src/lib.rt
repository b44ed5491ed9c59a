//! Books of versions. A program opens a pass over a store, draws a ticket for each event, and calls an operation on versions
//! that the pass has seen; each call answers the entry of a new version, and all versions stay. A queue of three items is
//! extended twice from one version, and both branches are read:
//!
//!     let heap = PlainHeap::open(alloc, 1_000, 100)?;
//!     let mut pass = BookPass::new(heap, Stack::open(alloc)?, 0);
//!     let ticket = pass.draw()?;
//!     let empty = pass.begin_new(ticket, Kind::Bankq)?.version;
//!     let one = extended(&mut pass, Op::Snoc, empty, 5)?.version;
//!     let two = extended(&mut pass, Op::Snoc, one, 6)?.version;
//!     let three = extended(&mut pass, Op::Snoc, two, 7)?.version;
//!     let longer = extended(&mut pass, Op::Snoc, three, 8)?.version;
//!     let shorter = extended(&mut pass, Op::Tail, three, 0)?.version;
//!     let first = extended(&mut pass, Op::Head, longer, 0)?.reply;
//!     let second = extended(&mut pass, Op::Head, shorter, 0)?.reply;
//!
//! Here `extended` draws a ticket and spends it on one version:
//!
//!     let ticket = pass.draw()?;
//!     pass.call(ticket, op, base, base, arg)
//!
//! These lines are a test of `lazy_tool` (`src/book_tests.rt`), where what each asks is proved.
//!
//! # What a call asks
//!
//! `MayExtend` has these conditions by name. Beside each stands what shows it of data from outside.
//!
//! | Condition | It says | Shown by |
//! |---|---|---|
//! | `drawn` | the pass has drawn the ticket, and hasn't spent it | `draw`; no other call makes a ticket of this pass |
//! | `built` | the operation is one of the base's kind, and is built | `kind_table::is_built` |
//! | `based` | the operation starts from a version | `Op::uses_base` |
//! | `kinds` | both versions are of one kind | `==` of their kinds |
//! | `base_seen`, `other_seen` | the pass has seen the version answered, in this book | `lookup` of its name finds it |
//! | `base_older`, `other_older` | the version's event has a smaller name | `event_name` of the version and the ticket's name |
//! | `alone` | an operation on one version has it as `other` too | `Op::uses_other` |
//! | `no_argument` | an operation without an argument has 0 | `Op::uses_argument` |
//! | `planned` | where the store has a plan, the event is the plan's | a store without a plan has none |
//!
//! `extend` asks besides that the operation never forces (`dues::never_forces`), and `call` that no other works on the store.
//! `solo_book` runs a whole list of events by these calls, and `run_events` does so over any store that one caller has for itself;
//! `plain_model::is_script` tells whether a list may be run.
//!
//! # What a call costs
//!
//! The due of an operation is the number of steps of suspended work that it pays for, and its places are those that it takes
//! itself. Each completed step takes at most eight places more. `n` and `m` are the sizes of its versions, and `b` is `bits(n)`.
//!
//! | Kind | Operation | Due | Places | May force |
//! |---|---|---|---|---|
//! | `stream`, `bankq`, `rtq`, `heap` | `new` | 0 | 1 | no |
//! | each | `size` | 0 | 0 | no |
//! | `stream` | `cons` | 0 | 2 | no |
//! | `stream` | `append`, `reverse` | n | 2 at most | no |
//! | `stream` | `head`, `tail` | 0 | 0, 1 | yes |
//! | `bankq` | `snoc` | 1 | 2, or 3 with a rotation | no |
//! | `bankq` | `head` | 0 | 0 | yes |
//! | `bankq` | `tail` | 2 | 1, or 2 with a rotation | yes |
//! | `rtq` | `snoc` | 1 | 2, or 3 with a rotation | at most one suspension |
//! | `rtq` | `head` | 0 | 0 | at most one suspension |
//! | `rtq` | `tail` | 1 | 1, or 2 with a rotation | at most one suspension |
//! | `heap` | `insert` | 2 | 2 | no |
//! | `heap` | `min` | b | 1 at most | yes |
//! | `heap` | `delmin` | 2b | 2b + 3 at most | yes |
//! | `heap` | `meld` | bits(n) + bits(m) + 1 | 2 at most | no |
//! | `seq` | `new` | 0 | 0 | no |
//! | `seq` | `pushl`, `pushr` | bits(n + 1) | 5 at most | no |
//! | `seq` | `popl`, `popr` | b | 4 at most | yes |
//! | `seq` | `first`, `last` | 0 | 0 | no |
#![tactic(auto)]

pub mod answers;
pub mod calls;
pub mod closed;
pub mod event_work;
mod finish;
pub mod forces;
mod lookups;
mod one_event;
pub mod pass;
mod row_steps;
pub mod rows;
pub mod solo;
pub mod totals;
pub mod words;

pub use answers::{Entry, Look, Refuse, Tally, Ticket};
pub use closed::Closed;
pub use lookups::look;
pub use pass::BookPass;
pub use rows::{Ended, Row};
pub use solo::{run_events, solo_book};
pub use totals::Totals;
