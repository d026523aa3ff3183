// The four sizes at the front of every reply, and the laws of the words that others write behind them.
#![tactic(auto)]

ghost use Rattle.std.specs.Prelude.{◌≡◌, is_ok, ◌*◌, ◌≤◌};
ghost use Rattle.history.specs.Observations.{max_ring};
ghost use Rattle.spec.specs.declared.Refusal.{Refusal};
ghost use Rattle.spec.specs.declared.Refusal.TheVariants.{Space};
ghost use Rattle.reply.specs.Fitted.{Fitted};

use spec::Refusal;

// The words of the sizes at a reply's front.
pub const SIZES: usize = 4;

// Where they stand: how many rows there are, a store's first and last number, and the number that a client asks for
// next; an asset reply has the used cells, all cells and 0 in the places behind the first.
pub const ROWS_AT: usize = 0;

pub const FIRST_AT: usize = 1;

pub const LAST_AT: usize = 2;

pub const NEXT_AT: usize = 3;

// The words of a row behind the sizes: one number, and a pair of time and packed word.
pub const ROW_WORDS: usize = 3;

// The sizes of a reply, or the refusal Space where w words don't fit behind them. The most words are a full ring's
// rows.
pub fn fit_sizes(reply: &mut [u64], w: u64, sizes: [u64; SIZES]) -> Result<(), Refusal>
    requires { w ≤ 3 * max_ring }
    ensures fitted { Fitted reply.old w sizes (is_ok result) reply.new }
    ensures refused { (r : Refusal) → result ≡ Err r → r ≡ Space }
{
    if (reply.len() as u64) < SIZES as u64 + w {
        return Err(Refusal::Space);
    }
    reply[..SIZES].copy_from_slice(&sizes);
    Ok(())
}
