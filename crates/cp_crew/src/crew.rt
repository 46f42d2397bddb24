use cp_call::{Caller, Machine};
use cp_hall::PlainHall;
use cp_io::Sink;
use cp_list::ListOf;
use cp_out::Port;
use cp_shell::Shell;

/// The shells of a crew's workers, numbered from 1 in order.
pub type Shells<M> = ListOf<Shell<M>>;

/// Who makes the remote calls of each worker, in order.
pub type CallerList<C> = ListOf<C>;

/// What a crew leaves: its shells, the objects, the port and the callers. The hall is missing only for want of memory, and
/// `memory` says whether the crew ended for want of it.
#[derive(Drop)]
pub struct Crew<M: Machine, S: Sink, C: Caller> {
    pub shells: Shells<M>,
    pub hall: Option<PlainHall>,
    pub port: Port<S>,
    pub callers: CallerList<C>,
    pub memory: bool,
}
