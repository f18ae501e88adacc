// The settings of a server.
ghost use Rattle.std.specs.Prelude.{◌≤◌, length};

/// The settings of a server. Each number is in its range, and the addresses are 1 to 16, whoever makes the value.
#[derive(Debug, Drop)]
pub struct Settings {
    /// The addresses to listen at, 1 to 16. Any text stands here until someone listens.
    pub listen: Vec<String>,
    /// How many nodes there are: 1 to 8.
    pub nodes: usize,
    /// How many places the log has: 2 to 65,536.
    pub places: usize,
    /// How many workers a node has: 1 to 16.
    pub workers: usize,
    /// How many connections a node takes: 1 to 1,024.
    pub connections: usize,
    /// How many bytes may wait for a connection: 1,024 to 1,073,741,824.
    pub queue_limit: usize,
    /// How many seconds a connection is silent before the system asks whether its client is still there: 0 to 86,400, and 0 is never.
    pub tcp_keepalive: usize,
    /// How many seconds without a byte it takes until a client that is subscribed to nothing is closed: 0 to 2,147,483, and 0 is never.
    pub timeout: usize,
    /// How many seconds an orderly end takes at most: 0 to 3,600.
    pub shutdown_seconds: usize,
    /// Whether a node that is down comes back with a copy of another one's server.
    pub revive: bool,
    pub ghost listen_in_range: { (1 ≤ length listen.items) × (length listen.items ≤ 16) },
    pub ghost nodes_in_range: { (1 ≤ nodes) × (nodes ≤ 8) },
    pub ghost places_in_range: { (2 ≤ places) × (places ≤ 65536) },
    pub ghost workers_in_range: { (1 ≤ workers) × (workers ≤ 16) },
    pub ghost connections_in_range: { (1 ≤ connections) × (connections ≤ 1024) },
    pub ghost queue_limit_in_range: { (1024 ≤ queue_limit) × (queue_limit ≤ 1073741824) },
    pub ghost tcp_keepalive_in_range: { tcp_keepalive ≤ 86400 },
    pub ghost timeout_in_range: { timeout ≤ 2147483 },
    pub ghost shutdown_seconds_in_range: { shutdown_seconds ≤ 3600 },
}
