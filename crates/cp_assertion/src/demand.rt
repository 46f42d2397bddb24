ghost use Rattle.std.specs.Prelude.{◌≡◌, IfOk};
ghost use Rattle.cp_assertion.specs.RegularTypes.{are_below, is_demanded, are_distinct, are_of_variables, names_in};

use cp_code::Names;
use cp_list::ListOf;
use cp_term::Name;
use std::alloc::{AllocError, Global};

/// What a goal of a regular type's clause demands: `u(Y)` of a variable Y, or `list(Y, u)`.
#[derive(Debug, Drop)]
pub(crate) struct Demand {
    pub var: u32,
    pub name: Name,
    /// Whether it is of the elements of a list.
    pub of_list: bool,
}

pub(crate) type Demands = ListOf<Demand>;

/// Whether the demands are of variables below `count`, no two of the same.
pub(crate) fn are_of_variables(demands: &[Demand], count: u32) -> bool
    ensures { result ≡ are_of_variables count demands.now }
{
    are_below(demands, count) && are_distinct(demands)
}

fn are_below(demands: &[Demand], count: u32) -> bool
    ensures { result ≡ are_below count demands.now }
{
    demands.iter().all(|demand| demand.var < count)
}

/// Whether no two demands are of the same variable.
fn are_distinct(demands: &[Demand]) -> bool
    ensures { result ≡ are_distinct demands.now }
{
    let mut rest = demands;
    'demands: while let [first, behind @ ..] = rest {
        if is_demanded(behind, first.var) {
            return false;
        }
        rest = behind;
    }
    true
}

fn is_demanded(demands: &[Demand], var: u32) -> bool
    ensures { result ≡ is_demanded var demands.now }
{
    demands.iter().any(|demand| demand.var == var)
}

/// The names of the properties that are demanded.
pub(crate) fn names_of(alloc: Global, demands: Demands) -> Result<Names, AllocError>
    ensures { IfOk result (λ names. names ≡ names_in demands) }
{
    let mut names = Names::new(alloc);
    for demand in demands.into_vec() {
        let Demand {
            name,
            var: _,
            of_list: _,
        } = demand;
        names.push(name)?;
    }
    Ok(names)
}
