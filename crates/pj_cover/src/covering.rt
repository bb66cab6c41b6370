// Which punctuations cover the instance of a scheme whose constants links lead to.
ghost use Rattle.std.specs.Prelude.{◌≡◌, ◌≤◌, length};
ghost use Rattle.pj_puncts.specs.Givens.{marked, one_cell};
ghost use Rattle.pj_puncts.specs.Stores.{TellsCover};
ghost use Rattle.pj_shape.specs.Instances.{instance_of};
ghost use Rattle.pj_cover.specs.Routes.{AreThere, IsThere, marked_values, value_from};

use crate::lent::{Lent, lend_values, value_from};
use crate::route::PurgeLink;
use pj_puncts::{Given, OneCell, PunctStore};
use pj_shape::Scheme;

/// The number of a punctuation that covers the instance with these constants, one below the bound where there is one; `None`
/// exactly where none covers it.
pub fn covering_all(
    scheme: &Scheme,
    links: &[PurgeLink],
    parts: &[Lent<'_>],
    store: &PunctStore,
    below: u64,
) -> Option<u64>
    requires fits { length scheme.now ≡ store.now.arity }
    requires few { length links.now ≤ 120 }
    requires there { AreThere parts.now links.now }
    requires count { length (marked_values links.now parts.now) ≡ marked scheme.now }
    ensures { TellsCover store.now.kept below (instance_of scheme.now (marked_values links.now parts.now)) result }
{
    let mut given = Given::new();
    lend_values(links, parts, &mut given);
    store.covering(scheme, &given, below)
}

/// The same with the one constant that a link leads to, among so many columns.
pub fn covering_one(
    count: usize,
    link: PurgeLink,
    parts: &[Lent<'_>],
    store: &PunctStore,
    below: u64,
) -> Option<u64>
    requires { IsThere parts.now link }
    ensures { TellsCover store.now.kept below (one_cell count link.column (value_from parts.now link)) result }
{
    let cells = OneCell {
        count,
        column: link.column as usize,
        value: value_from(parts, link),
    };
    store.covering_cells(&cells, below)
}
