//! How connections end.

/// How a connection has ended.
#[derive(Clone, Copy)]
pub enum Ending {
    Quit,
    Closed,
    Truncated,
    Broken,
    Denied,
    Silent,
    Unread,
    Unwritten,
    Memory,
}

/// All endings, by number.
pub const ENDINGS: [Ending; 9] = [
    Ending::Quit,
    Ending::Closed,
    Ending::Truncated,
    Ending::Broken,
    Ending::Denied,
    Ending::Silent,
    Ending::Unread,
    Ending::Unwritten,
    Ending::Memory,
];

impl Ending {
    ghost use Rattle.std.specs.Prelude.{◌≡◌, ◌<◌};
    ghost use Rattle.status_figures.specs.Layout.{ending_name, ending_number};

    /// Its position among all endings.
    pub fn number(self) -> usize
        ensures number { result ≡ ending_number self }
        ensures few { result < 9 }
    {
        match self {
            Ending::Quit => 0,
            Ending::Closed => 1,
            Ending::Truncated => 2,
            Ending::Broken => 3,
            Ending::Denied => 4,
            Ending::Silent => 5,
            Ending::Unread => 6,
            Ending::Unwritten => 7,
            Ending::Memory => 8,
        }
    }

    /// Its name, as the log has it.
    pub fn name(self) -> &'static str
        ensures { result.now ≡ ending_name self }
    {
        match self {
            Ending::Quit => "quit",
            Ending::Closed => "closed",
            Ending::Truncated => "truncated",
            Ending::Broken => "broken",
            Ending::Denied => "denied",
            Ending::Silent => "silent",
            Ending::Unread => "unread",
            Ending::Unwritten => "unwritten",
            Ending::Memory => "memory",
        }
    }
}
