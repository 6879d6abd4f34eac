// The times of a timer in ticks, as asked for. They may be beyond the limit.
#[derive(Clone, Copy, PartialEq, Eq, Debug)]
pub struct Setting {
    pub operate: u64,
    pub hold: u64,
}
