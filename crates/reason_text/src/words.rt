// A step in plain words: a type around it, as `Display` is written for types of one's own alone.
use fddevs::scheme::Move;
use std::fmt;

#[derive(Clone, Copy)]
pub(crate) struct Named(pub Move);

impl fmt::Display for Named {
    fn fmt<W: fmt::Write>(&self, f: &mut fmt::Formatter<W>) -> fmt::Result {
        match self.0 {
            Move::Outer(x) => write!(f, "outer input {x}"),
            Move::Internal(part) => write!(f, "internal step of part {part}"),
            Move::Delay(d) => write!(f, "delay {d}"),
        }
    }
}
