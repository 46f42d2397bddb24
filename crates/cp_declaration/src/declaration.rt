use crate::indicator::Indicators;
use crate::marks::Marks;
use crate::names::Names;
use cp_term::Name;

/// What a declaration `:- D` of a file says.
#[derive(Debug, Drop)]
pub enum Declaration {
    /// `module(Name, Exports)` or `module(Name, Exports, Packages)`, with packages that are accepted. None for a variable:
    /// the file's base name without `.pl`, and every predicate that the module defines.
    Module {
        name: Option<Name>,
        exports: Option<Indicators>,
    },
    /// `use_module(F)`, which has None for the predicates, and `use_module(F, [p/n, ..])`.
    UseModule {
        file: Name,
        imports: Option<Indicators>,
    },
    /// `use_active_module(M, [p/n, ..])`.
    UseActiveModule {
        name: Name,
        preds: Indicators,
    },
    /// `concurrent` or `data` of p/n, of several joined by commas, or of a list of them. A call of a `concurrent` predicate
    /// suspends where it finds no fact; one of a `data` predicate does not.
    Shared {
        suspends: bool,
        preds: Indicators,
    },
    /// `meta_predicate p(A, ..)`: each argument marked `goal`, `fact` or `pred(N)` is a goal argument.
    MetaPredicate {
        name: Name,
        marks: Marks,
    },
    /// `op(P, Kind, Names)`, of an atom or a list of atoms. The priority and the kind may be none of an operator's.
    Operators {
        priority: i64,
        kind: Name,
        names: Names,
    },
    /// `regtype t/1` or `regtype t(X)`.
    RegType {
        name: Name,
    },
    /// `Status Kind Body` or `Kind Body`, whatever the body is.
    Assertion,
    /// What is accepted and has no effect: `use_module(library(L))` and `use_package(P)` of a library and packages that are
    /// accepted, and `prop P`.
    Nothing,
}
