// The call that reads an adapter line: model, head and line are tested in the order of the refusals, and behind the
// last of them the line is observed as it reads.
#![tactic(auto)]

ghost use Rattle.std.specs.Prelude.{◌≡◌, Ok};
ghost use Rattle.spec.specs.Model.{items};
ghost use Rattle.history.specs.Observations.{Head};
ghost use Rattle.history.specs.Calls.{observe_reading, observe_line};

use lines::Line;
use model::Words;
use spec::{ObserveAnswer, Refusal};

// What a line says, observed behind the checks of model and head.
#[tactic(auto, using(crate::proofs::Laws::refused))]
fn observe_reading(
    model: &Words<'_>,
    observations: &mut [u64],
    line: Line,
    host: u64,
) -> ObserveAnswer
    requires head { Head (items model.now) observations.old }
    ensures { let x = observe_reading (Ok line) model.now observations.old host in
        (result ≡ x.answer) × (observations.new ≡ x.observations) }
{
    let category = model.category_at(line.item).ok_or(Refusal::Item)?;
    let value = line_value::value_for(category, line.form).ok_or(Refusal::Kind)?;
    let time = observing::time_or(line.time, host);
    observing::observe_item(model, observations, line.item, time, value)
}

// An adapter line: the number of its observation, Same where nothing is added, or the refusal.
#[tactic(auto, unfolding(history::specs::Calls::observe_line))]
pub fn read_line(
    model: &[u32],
    names: &[u8],
    observations: &mut [u64],
    line: &[u8],
    host: u64,
) -> ObserveAnswer
    ensures { let x = observe_line model.now names.now observations.old
        line.now host in
        (result ≡ x.answer) × (observations.new ≡ x.observations) }
{
    let words = model::checked(model, names)?.words;
    observations::checked(observations, words.items())?;
    let line = line::read_line(line)?;
    observe_reading(&words, observations, line, host)
}
