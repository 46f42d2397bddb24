ghost use Rattle.std.specs.Prelude.{◌≡◌, ◌<◌, ℕ, List, [], ◌∷◌, ◌++◌, length, IsTrue, IfOk, MatchOption, None, slice_get};
ghost use Rattle.cp_call.specs.declared.item.Item.{Item};
ghost use Rattle.cp_call.specs.declared.item.Item.TheVariants as item;
ghost use Rattle.cp_call.specs.declared.outcome.OutEntry.{OutEntry};
ghost use Rattle.cp_call.specs.Added.{HasAdded, AsksForOne};
ghost use Rattle.cp_shell.specs.Asked.{event_of, HasAskedOnce, IsAnswer, StillWaits};

use cp_call::{Asked, Asker, Call, Item, Reply};
use cp_list::ReservedList;
use std::alloc::AllocError;

/// The events of an engine, with room that is taken ahead.
pub type ItemRoom = ReservedList<Item>;

/// Adds the event of a call that was replied, and hands on a copy of the reply.
fn record(
    items: &mut ItemRoom,
    object: u32,
    call: Call,
    asked: Asked,
) -> Result<Option<Reply>, AllocError>
    requires { 0 < items.old.spare }
    ensures items { items.new.items ≡ items.old.items ++ event_of object call asked }
    ensures answer { IfOk result (IsAnswer asked) }
{
    match asked {
        Asked::NoMemory => Err(AllocError),
        Asked::StillParked => Ok(None),
        Asked::Replied(reply) => {
            let copy: Result<Reply, AllocError> = reply.clone();
            items.put(Item::Asked {
                object,
                call,
                reply,
            });
            Ok(Some(copy?))
        }
    }
}

/// Asks an object on behalf of an engine and adds the event. None says that the engine is still parked there, and then
/// nothing is added.
pub fn ask<A: Asker>(
    asker: &mut A,
    number: u32,
    items: &mut ItemRoom,
    object: u32,
    call: &Call,
) -> Result<Option<Reply>, AllocError>
    requires object { object < length (A.objects asker.old) }
    requires serves { IsTrue (A.serves asker.old number) }
    ensures added { (wrote : List OutEntry) → (added : List Item) × (items.new.items ≡ items.old.items ++ added) × HasAdded (A.objects asker.old) (A.seen asker.old number) (A.seen asker.new number) wrote wrote number added }
    ensures replied { IfOk result (λ answer. MatchOption answer (items.new.items ≡ items.old.items) (λ reply. items.new.items ≡ items.old.items ++ item.Asked object call.now reply ∷ [])) }
    ensures still { IfOk result (λ answer. answer ≡ None → StillWaits (slice_get (A.objects asker.old) object) (A.seen asker.new number object) number call.now) }
    ensures event { HasAskedOnce items.old.items items.new.items object call.now }
    ensures others { AsksForOne number (A.objects asker.old) (A.objects asker.new) (A.serves asker.old) (A.serves asker.new) (A.seen asker.old) (A.seen asker.new) (A.looked asker.old) (A.looked asker.new) }
    ensures stays { A.stays asker.old asker.new }
{
    items.reserve(1)?;
    let recorded = call.clone()?;
    let asked = asker.ask(object, number, call);
    record(items, object, recorded, asked)
}
