// A model and an observation store for as many items as it has. It lends its Store: with one of its own, which can't be
// Copy, each function would take it by reference. A selection goes beside it, as beside a Store: it comes from a path,
// and each function that takes both reads it by item.
ghost use Rattle.std.specs.Prelude.{◌≡◌};
ghost use Rattle.spec.specs.Model.{items};
ghost use Rattle.history.specs.Observations.{item_count};

use super::Store;
use model::Words;

#[derive(Clone, Copy)]
pub struct Modelled<'a> {
    pub model: &'a Words<'a>,
    pub store: &'a Store<'a>,
    ghost agree: { item_count store.now ≡ items model.now },
}
