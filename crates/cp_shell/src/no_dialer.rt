ghost use Rattle.std.specs.Prelude.{◌≡◌, IsOk, IfOk};

use cp_call::{Caller, RemoteCall, RemoteReply};
use std::alloc::AllocError;

/// What makes the remote calls of a simulated engine: each is replied that there is nobody to dial. It takes no memory.
#[derive(Clone, Copy)]
pub struct NoDialer;

impl Caller for NoDialer {
    ghost use Rattle.std.specs.Prelude.{◌≡◌};
    ghost use Rattle.cp_call.specs.declared.item.RemoteReply.TheVariants as remote;

    ghost went = { λ from call reply to. reply ≡ remote.NoDialer };

    fn remote(&mut self, call: &RemoteCall) -> Result<RemoteReply, AllocError>
        ensures reply { IfOk result (λ reply. reply ≡ RemoteReply.NoDialer) }
        ensures always { IsOk result }
    {
        let _call = call;
        Ok(RemoteReply::NoDialer)
    }
}
