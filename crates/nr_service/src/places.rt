// At which worker the connection that was taken as a number is served: connections go to the nodes in turn, and to the workers of each in turn.
ghost use Rattle.std.specs.Prelude.{◌≡◌, ◌+◌, ◌*◌, ◌<◌, ◌%◌, ◌/◌};

use nr_entry::Setup;

/// The node so many behind that of a connection's number. Constant.
pub fn node_at(setup: Setup, number: u64, passed: usize) -> usize
    requires { passed < setup.nodes }
    ensures node { result ≡ (number % setup.nodes + passed) % setup.nodes }
    ensures there { result < setup.nodes }
{
    let nodes = setup.nodes();
    let first = (number % nodes as u64) as usize;
    (first + passed) % nodes
}

/// The worker of a connection's number, which has the same number at each node. Constant.
pub fn worker_at(setup: Setup, number: u64) -> usize
    ensures worker { result ≡ number / setup.nodes % setup.workers }
    ensures there { result < setup.workers }
{
    let nodes = setup.nodes() as u64;
    let workers = setup.workers() as u64;
    (number / nodes % workers) as usize
}

/// The lane of the worker of a connection's number at a node: worker w of node n is lane n * workers + w. Constant.
pub fn lane_at(setup: Setup, number: u64, node: usize) -> usize
    requires { node < setup.nodes }
    ensures { result ≡ node * setup.workers + number / setup.nodes % setup.workers }
{
    let worker = worker_at(setup, number);
    node * setup.workers() + worker
}
