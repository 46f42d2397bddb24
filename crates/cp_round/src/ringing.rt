use crate::bells::Bells;
use cp_call::{Asked, Asker, Call};

/// Whom a worker asks, and the bells of the round: after each turn it rings the bells of those whom the turn woke.
#[derive(Drop)]
pub struct Ringing<'a, A: Drop> {
    pub asker: A,
    pub bells: &'a Bells,
}

impl<'a, A: Asker + Drop> Asker for Ringing<'a, A> {
    ghost objects = { λ r. A.objects r.asker };

    ghost serves = { λ r n. A.serves r.asker n };

    ghost seen = { λ r n p. A.seen r.asker n p };

    ghost looked = { λ r n p. A.looked r.asker n p };

    ghost last_look = { A.last_look };

    ghost turns = { λ r p. A.turns r.asker p };

    ghost last_turn = { A.last_turn };

    ghost stays = { λ r s. A.stays r.asker s.asker };

    ghost stays_here = { λ r. A.stays_here r.asker };

    ghost stays_on = { λ r s t a b. A.stays_on r.asker s.asker t.asker a b };

    fn ask(&mut self, object: u32, caller: u32, call: &Call) -> Asked {
        let asked = self.asker.ask(object, caller, call);
        self.bells.ring_for(&asked);
        asked
    }
}
