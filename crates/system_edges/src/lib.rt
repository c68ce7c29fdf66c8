//! The edges of a program: its standard streams, the system's clock, the words that it is given, and the causes of its faults.
//!
//! Shown upward: `StandardLink`, an `http_front::Link` over a reader and a writer; `StandardSink`, an `http_front::Sink` over a
//! writer; `SystemClock`, a `library_state::Clock`; `words_of`; `cause_line`, `escaped` and `failure_words`, which make lines for
//! standard error. They know no command and no library.
#![tactic(auto)]

mod causes;
mod program_words;
mod standard_link;
mod standard_sink;
mod system_clock;

pub use crate::causes::{cause_line, escaped, failure_words};
pub use crate::program_words::words_of;
pub use crate::standard_link::StandardLink;
pub use crate::standard_sink::StandardSink;
pub use crate::system_clock::SystemClock;
