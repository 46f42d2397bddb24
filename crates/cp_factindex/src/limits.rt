ghost use Rattle.std.specs.Prelude.{◌≡◌, ◌&&◌, not, Some, None, MatchOption};
ghost use Rattle.cp_call.specs.Refusals.{tested};
ghost use Rattle.cp_call.specs.History.{is_add_back, is_leave, is_bound, is_post, full_at, shown_count};

use cp_call::{Call, FullBy, ObjectKind, Refused};

/// Whether the call posts a goal.
pub fn is_add_back_of(call: &Call) -> bool
    ensures { result ≡ is_add_back call.now }
{
    matches!(call, Call::AddBack { .. })
}

/// Whether the call gives up waiting.
pub fn is_leave_of(call: &Call) -> bool
    ensures { result ≡ is_leave call.now }
{
    matches!(call, Call::Leave)
}

/// Which limit is reached, and the count that reached it.
#[derive(Drop)]
pub struct Reached {
    pub by: FullBy,
    pub count: u32,
}

/// A count as it is told.
pub fn shown_count_of(count: u64) -> u32
    ensures { result ≡ shown_count count }
{
    if count < 0xffff_ffff {
        count as u32
    } else {
        u32::MAX
    }
}

/// Whether the limits of entries and cells bind the call.
pub fn is_bound_of(kind: ObjectKind, call: &Call) -> bool
    ensures { result ≡ is_bound kind call.now }
{
    match kind {
        ObjectKind::Goals => is_add_back_of(call),
        ObjectKind::Ended => matches!(call, Call::Next { .. }),
        ObjectKind::Concurrent => !is_leave_of(call),
        ObjectKind::Plain => !is_leave_of(call),
    }
}

/// Whether the limit of posts binds the call.
pub fn is_post_of(kind: ObjectKind, call: &Call) -> bool
    ensures { result ≡ is_post kind call.now }
{
    match kind {
        ObjectKind::Goals => is_add_back_of(call),
        ObjectKind::Ended => false,
        ObjectKind::Concurrent => false,
        ObjectKind::Plain => false,
    }
}

/// The first limit that the call would pass.
pub fn limit_at(
    kind: ObjectKind,
    posts: u64,
    entries: u64,
    cells: u64,
    call: &Call,
) -> Option<Reached>
    ensures { MatchOption result (full_at kind posts entries cells call.now ≡ None) (λ l. full_at kind posts entries cells call.now ≡ Some (record { by = l.by; count = l.count })) }
{
    if is_post_of(kind, call) && 4096 <= posts {
        return Some(Reached {
            by: FullBy::Posts,
            count: shown_count_of(posts),
        });
    }
    let bound = is_bound_of(kind, call);
    if bound && 1048576 <= entries {
        return Some(Reached {
            by: FullBy::Entries,
            count: shown_count_of(entries),
        });
    }
    if bound && 2097152 <= cells {
        return Some(Reached {
            by: FullBy::Cells,
            count: shown_count_of(cells),
        });
    }
    None
}

/// Tests whether a call may be prepared, by what memory has no part in.
pub fn test(
    parked: bool,
    kind: ObjectKind,
    posts: u64,
    entries: u64,
    cells: u64,
    call: &Call,
) -> Result<(), Refused>
    ensures { result ≡ tested (parked && not (is_leave call.now)) (full_at kind posts entries cells call.now) }
{
    if parked && !is_leave_of(call) {
        return Err(Refused::StillParked);
    }
    match limit_at(kind, posts, entries, cells, call) {
        Some(l) => Err(Refused::Full {
            by: l.by,
            count: l.count,
        }),
        None => Ok(()),
    }
}
