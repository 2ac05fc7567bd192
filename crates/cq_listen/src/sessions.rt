ghost use Rattle.std.specs.Prelude.{◌≡◌};
ghost use Rattle.std.specs.Thread.{IsSync};
ghost use Rattle.cq_base.specs.declared.settings.Settings.{Settings as Told};
ghost use Rattle.cq_listen.specs.Seats.{AreSetTo};

use crate::doorway::Arrivals;
use crate::queue::Queue;
use cq_work::Keyer;
use std::sync::Wait;
use std::thread;
use std::thread::{Scope, Threads};

/// Who serves connections, one after the other, each to its end.
pub(crate) trait Attendant<C> {
    // the settings of its hub
    ghost settings: { Self → Told };

    /// Serves a connection. The keys are those of the keyer.
    fn attend<Q: Threads + Sync>(&mut self, rt: &Q, keyer: &Keyer, connection: C)
        requires crosses { IsSync Q.row }
        requires of { settings self.old ≡ keyer.now.settings }
        ensures { settings self.new ≡ settings self.old };
}

// Serves what comes into the queue, until no more will.
fn serve_queue<Q: Threads + Wait + Sync, C, N: Attendant<C> + Drop>(
    rt: &Q,
    keyer: &Keyer,
    attendant: N,
    queue: &Queue<C>,
)
    requires { N.settings attendant ≡ keyer.now.settings }
{
    let mut attendant = attendant;
    'turns: for _ in rt.forever() {
        match queue.pop(rt) {
            Some(connection) => attendant.attend(rt, keyer, connection),
            None => break,
        }
    }
}

// Starts a thread for each attendant, while one can be made, and says whether there is any.
fn start_sessions<
    's,
    E: 's,
    Q: Threads + Wait + Sync,
    C: Send + 's,
    N: Attendant<C> + Send + Drop + 's,
>(
    scope: &Scope<'s, E>,
    rt: &'s Q,
    keyer: &'s Keyer,
    attendants: Vec<N>,
    queue: &'s Queue<C>,
) -> bool
    requires { AreSetTo N.settings keyer.now.settings attendants.items }
{
    let mut is_any = false;
    'attendants: for attendant in attendants {
        let started = scope.spawn(
            move || -> ()
                requires { N.settings attendant ≡ keyer.now.settings }
            { serve_queue(rt, keyer, attendant, queue) },
        );
        if started.is_err() {
            break;
        }
        is_any = true;
    }
    is_any
}

// Hands over what comes, and asks for the next one only if there is a place for it.
fn hand_over<Q: Wait, C, A: Arrivals<C>>(rt: &Q, queue: &Queue<C>, arrivals: A) -> A
    requires { A.Since arrivals arrivals }
    ensures { A.Ended arrivals result }
{
    let mut arrivals = arrivals;
    'turns: for _ in rt.forever() {
        queue.wait_for_place(rt);
        match arrivals.next() {
            Some(connection) => queue.push(rt, connection),
            None => return arrivals,
        }
    }
    unreachable!()
}

// Serves what comes on this thread, each connection before the next one is asked for.
fn serve_alone<Q: Threads + Wait + Sync, C, N: Attendant<C>, A: Arrivals<C>>(
    rt: &Q,
    keyer: &Keyer,
    own: N,
    arrivals: A,
) -> (A, N)
    requires keyed { N.settings own ≡ keyer.now.settings }
    requires since { A.Since arrivals arrivals }
    ensures ended { A.Ended arrivals result.0 }
    ensures own { N.settings result.1 ≡ N.settings own }
{
    let mut own = own;
    let mut arrivals = arrivals;
    'turns: for _ in rt.forever() {
        match arrivals.next() {
            Some(connection) => own.attend(rt, keyer, connection),
            None => return (arrivals, own),
        }
    }
    unreachable!()
}

// Serves what comes by other threads, or on this one if there are none.
fn serve_all<Q: Threads + Wait + Sync, C, N: Attendant<C>, A: Arrivals<C>>(
    rt: &Q,
    keyer: &Keyer,
    is_any: bool,
    own: N,
    queue: &Queue<C>,
    arrivals: A,
) -> (A, N)
    requires keyed { N.settings own ≡ keyer.now.settings }
    requires since { A.Since arrivals arrivals }
    ensures ended { A.Ended arrivals result.0 }
    ensures own { N.settings result.1 ≡ N.settings own }
{
    if is_any {
        (hand_over(rt, queue, arrivals), own)
    } else {
        serve_alone(rt, keyer, own, arrivals)
    }
}

/// Serves what comes by a thread for each attendant, while one can be made, or, if there is none, on this one by an attendant
/// of its own, which it gives back. Afterwards all that came is served, and no thread of a session is left.
pub(crate) fn serve_arrivals<
    Q: Threads + Wait + Sync,
    C: Send,
    N: Attendant<C> + Send + Drop,
    A: Arrivals<C> + Drop,
>(rt: &Q, keyer: &Keyer, attendants: Vec<N>, own: N, queue: &Queue<C>, arrivals: A) -> (A, N)
    requires attendants { AreSetTo N.settings keyer.now.settings attendants.items }
    requires own { N.settings own ≡ keyer.now.settings }
    requires since { A.Since arrivals arrivals }
    ensures ended { A.Ended arrivals result.0 }
    ensures own { N.settings result.1 ≡ N.settings own }
{
    thread::scope(
        thread::scope_env(),
        rt,
        move |scope| -> (A, N)
            requires { AreSetTo N.settings keyer.now.settings attendants.items
                × (N.settings own ≡ keyer.now.settings) × A.Since arrivals arrivals }
            ensures { A.Ended arrivals result.0 × (N.settings result.1 ≡ N.settings own) }
        {
            let is_any = start_sessions(scope, rt, keyer, attendants, queue);
            let over = serve_all(rt, keyer, is_any, own, queue, arrivals);
            queue.close(rt);
            over
        },
    )
}
