// A worker on its thread.
ghost use Rattle.std.specs.Prelude.{◌≡◌};
ghost use Rattle.nr_crew.specs.Left.{IsAnswered};

use crate::gate::Stoppable;
use crate::lane::{Lane, Leaving, WorkerEnd};
use nr_combiner::ServerName;
use nr_replica::share_of;
use nr_service::{Backend, Client, Ended, Gate, Moments, Poller, Rings, Service, Stream};
use nr_worker_service::{SharedHints, WorkerBackend};
use std::alloc::Global;
use std::sync::Wait;

/// Within which limits each connection is served: how many bytes wait for it at most; and after how many milliseconds without a byte it is closed where it is subscribed
/// to nothing, 0 for never.
#[derive(Clone, Copy, Debug)]
pub struct ClientLimits {
    pub limit: usize,
    pub timeout: u64,
}

// A worker that ends before the others are to end stops them all: who was dealt to it would wait for ever, and so would the other nodes for its own. Where every node
// is down each ends by itself, once its clients got what they still get.
fn stop_behind<K: Rings>(ended: Ended, crew: &SharedHints<K>) {
    crew.end();
    if matches!(ended, Ended::Device | Ended::Memory(_)) {
        crew.stop();
        crew.ring_all();
    }
}

// The device, the clock and the clients of a service. What answered goes.
fn rest_of<A, S, D, M>(service: Service<A, S, D, M>) -> (D, M, Vec<Client<S>>)
where
    A: Backend + Drop,
    S: Stream + Drop,
    D: Poller<S> + Drop,
    M: Moments + Drop,
    ensures { result ≡ (service.device, service.clock, service.clients) }
{
    let (_answers, device, clock, clients) = service.into_parts();
    (device, clock, clients)
}

/// Serves by a lane until the gate or the shared hints stop it, every node is down, or its device can't wait any more: then all are stopped. What was handed out for a client is
/// written before more is, once more waits for it than its node stops for ([`share_of`]).
pub(crate) fn serve_lane<'a, B, R, S, D, M, K, G>(
    rt: &'a R,
    alloc: Global,
    lane: Lane<B, D, M>,
    crew: &'a SharedHints<K>,
    gate: &G,
    limits: ClientLimits,
) -> Leaving<B, S, D, M>
where
    B: ServerName,
    R: Wait,
    S: Stream + Drop,
    D: Poller<S> + Drop,
    M: Moments + Drop,
    K: Rings,
    G: Gate,
    ensures answered { IsAnswered S.received S.sent M.gives (D.parted result.left.device) result.left.node result.left.worker result.left.ended result.mark.standing
        result.left.clients.items }
    ensures limits { result.left.limits ≡ limits }
    ensures node { result.left.node ≡ lane.worker.node }
    ensures worker { result.left.worker ≡ lane.worker.seat.worker }
{
    let Lane {
        worker,
        device,
        clock,
        buffer,
        ..
    } = lane;
    let ClientLimits { limit, timeout } = limits;
    let node = worker.shared().node();
    let number = worker.number();
    // More than the limit may wait there: the service lets go of a client for which it does.
    let most = limit.saturating_mul(2);
    let enough = share_of(limit);
    let desk = WorkerBackend::new(alloc, rt, worker, crew, most, enough);
    let mut service = Service::over(
        alloc, buffer, node, number, desk, device, clock, limit, timeout,
    );
    let ended = service.serve(&Stoppable { gate, crew });
    stop_behind(ended, crew);
    let mark = service.answers.take_mark();
    let limits = ClientLimits {
        limit: service.limit,
        timeout: service.timeout,
    };
    let (node, number) = (service.node, service.worker);
    let (device, clock, clients) = rest_of(service);
    Leaving {
        mark,
        left: WorkerEnd {
            node,
            worker: number,
            device,
            clock,
            clients,
            limits,
            ended,
        },
    }
}
