//! The number of a connection. It is checked at the place where an event or a query names a
//! connection. After the check it is known to be below 16.

ghost use Rattle.std.specs.Prelude.{◌≡◌, ◌≤◌, ◌<◌, MatchOption};

/// How many connections there may be.
pub const CONNECTIONS: usize = 16;

/// The number of a connection, known to be below 16.
#[derive(Clone, Copy)]
pub struct Conn {
    /// The number, below 16.
    pub number: u8,
    ghost within: { number < 16 },
}

impl Conn {
    /// Makes a `Conn` of a number; `None` if the number is above 15.
    pub fn new(number: u8) -> Option<Conn>
        ensures { MatchOption result (16 ≤ number) (λ conn. conn.number ≡ number) }
    {
        if usize::from(number) < CONNECTIONS {
            Some(Conn { number })
        } else {
            None
        }
    }

    /// The index of the connection among all connections.
    pub fn index(self) -> usize
        ensures { result ≡ self.number }
    {
        usize::from(self.number)
    }
}
