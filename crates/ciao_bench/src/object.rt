use cp_call::{Call, ObjectKind, Reply, Terms};
use cp_fact::Pred as Listed;
use cp_factindex::Pred as Indexed;
use std::alloc::{AllocError, Global};

/// A shared object, by either of its two implementations.
#[derive(Drop)]
pub(crate) enum Object {
    /// A list of facts and a list of parked callers.
    Listed(Listed),
    /// Facts by place and by key, and parked callers by key.
    Indexed(Indexed),
}

impl Object {
    /// A concurrent predicate with no facts, as a list.
    pub(crate) fn listed(alloc: Global) -> Result<Object, AllocError> {
        let pred = Listed::new(alloc, ObjectKind::Concurrent, Terms::new(alloc))?;
        Ok(Object::Listed(pred))
    }

    /// A concurrent predicate with no facts, by place and by key.
    pub(crate) fn indexed(alloc: Global) -> Result<Object, AllocError> {
        let pred = Indexed::new(alloc, ObjectKind::Concurrent, Terms::new(alloc))?;
        Ok(Object::Indexed(pred))
    }

    /// Makes a call.
    pub(crate) fn ask(&mut self, caller: u32, call: &Call) -> Result<Reply, AllocError> {
        match self {
            Object::Listed(pred) => match pred.ready(caller, call) {
                Ok(()) => Ok(pred.commit()),
                Err(_) => Err(AllocError),
            },
            Object::Indexed(pred) => match pred.ready(caller, call) {
                Ok(()) => Ok(pred.commit()),
                Err(_) => Err(AllocError),
            },
        }
    }
}
