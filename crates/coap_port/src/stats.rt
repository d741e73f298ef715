//! What was done over a port.
ghost use Rattle.std.specs.Prelude.{◌≡◌};
ghost use Rattle.coap_port.specs.Stats.{no_stats};

/// Counts of what was done over a port.
#[derive(Clone, Copy, Debug, PartialEq, Eq)]
pub struct Stats {
    /// The number of turns that the port gave.
    pub turns: u64,
    /// The number of datagrams that the port took.
    pub sent: u64,
    /// The number of datagrams that the port didn't take.
    pub send_faults: u64,
    /// The number of turns that ran out of memory, so that nothing was done.
    pub lost: u64,
}

impl Default for Stats {
    /// The counts before the first turn: all zero.
    fn default() -> Stats
        ensures { result ≡ no_stats }
    {
        Stats {
            turns: 0,
            sent: 0,
            send_faults: 0,
            lost: 0,
        }
    }
}
