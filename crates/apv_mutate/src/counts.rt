//! How often each kind of answer came.
use apv_base::Exit;
use std::fmt;
use std::fmt::{Display, Formatter, Write};

/// How many streams were decoded, by the kind of the answer. A count stays at the last value of its type.
#[derive(Clone, Copy, Debug, Default)]
pub struct Counts {
    done: u64,
    broken: u64,
    other: u64,
}

impl Counts {
    /// Counts an answer.
    pub fn add(&mut self, exit: Exit) {
        let count = match exit {
            Exit::Done => &mut self.done,
            Exit::Broken(_) => &mut self.broken,
            _ => &mut self.other,
        };
        *count = count.saturating_add(1);
    }
}

impl Display for Counts {
    fn fmt<W: Write>(&self, f: &mut Formatter<W>) -> fmt::Result {
        let (done, broken, other) = (self.done, self.broken, self.other);
        write!(
            f,
            "no difference: {done} decoded to the end, {broken} broken, {other} others"
        )
    }
}
