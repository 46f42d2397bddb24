ghost use Rattle.std.specs.Prelude.{◌≡◌, ◌<◌, ◌≤◌, length, None, Some, MatchOption};
ghost use Rattle.cp_assertion.specs.Assertions.{kind_named, status_named, of_kind, declared};

use cp_code::{Kind, Status};
use cp_term::Cell;

/// A declaration of an assertion: its status, its kind and the cells of its body.
#[derive(Clone, Copy, Drop)]
pub(crate) struct Declared<'a> {
    pub status: Status,
    pub kind: Kind,
    pub body: &'a [Cell],
}

impl<'a> Declared<'a> {
    /// The body of a declaration as `Kind Body` or `Status Kind Body`.
    pub(crate) fn of(cells: &'a [Cell]) -> Option<Declared<'a>>
        ensures value { MatchOption result (declared cells.now ≡ None) (λ d. declared cells.now ≡ Some (record { status = d.status; kind = d.kind; body = d.body.now })) }
        ensures within { MatchOption result (Unit {0}) (λ d. length d.body.now ≤ length cells.now) }
    {
        match cells {
            [Cell::Func(name, 1), body @ ..] => match status_named(name.bytes()) {
                Some(status) => Declared::of_kind(status, body),
                None => {
                    let kind = kind_named(name.bytes())?;
                    Some(Declared {
                        status: Status::Check,
                        kind,
                        body,
                    })
                }
            },
            _ => None,
        }
    }

    fn of_kind(status: Status, cells: &'a [Cell]) -> Option<Declared<'a>>
        ensures value { MatchOption result (of_kind status cells.now ≡ None) (λ d. of_kind status cells.now ≡ Some (record { status = d.status; kind = d.kind; body = d.body.now })) }
        ensures within { MatchOption result (Unit {0}) (λ d. length d.body.now ≤ length cells.now) }
    {
        match cells {
            [Cell::Func(name, 1), body @ ..] => {
                let kind = kind_named(name.bytes())?;
                Some(Declared { status, kind, body })
            }
            _ => None,
        }
    }
}

fn kind_named(name: &[u8]) -> Option<Kind>
    ensures { result ≡ kind_named name.now }
{
    if name == b"pred".as_slice() {
        Some(Kind::Pred)
    } else if name == b"calls".as_slice() {
        Some(Kind::Calls)
    } else if name == b"success".as_slice() {
        Some(Kind::Success)
    } else if name == b"comp".as_slice() {
        Some(Kind::Comp)
    } else {
        None
    }
}

fn status_named(name: &[u8]) -> Option<Status>
    ensures { result ≡ status_named name.now }
{
    if name == b"check".as_slice() {
        Some(Status::Check)
    } else if name == b"trust".as_slice() {
        Some(Status::Trust)
    } else if name == b"true".as_slice() {
        Some(Status::Believed)
    } else if name == b"checked".as_slice() {
        Some(Status::Checked)
    } else if name == b"false".as_slice() {
        Some(Status::Refuted)
    } else {
        None
    }
}
