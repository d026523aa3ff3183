// Cells of bytes inside a store, of any width: moved down, renewed.
#![tactic(auto)]

ghost use Rattle.std.specs.Prelude.{◌≡◌, ◌++◌, suc, ◌+◌, ◌*◌, ◌<◌, ◌≤◌, length, take, drop, replicate};
ghost use Rattle.std.proofs.lemmas.List.Edits.{sets};
ghost use Rattle.spec.specs.Bytes.{pad};
ghost use Rattle.spec.specs.Assets.{renew};

// The n bytes that stood `gap` further on stand from `at` on. No copy_within: with it, an asset in place of the oldest
// takes as long as the second implementation, where this takes two thirds.
pub fn move_down(bs: &mut [u8], at: usize, gap: usize, n: usize)
    requires { at + gap + n ≤ length bs.old }
    ensures { bs.new ≡ sets bs.old at (take n (drop (at + gap) bs.old)) }
{
    for j in 0..n {
        bs[at + j] = bs[at + gap + j];
    }
}

// The `moved` bytes behind the cell of w bytes at `at` move down over it, and behind them stands a cell of `head`
// and `s`, zero padded to its end.
fn renew_at(bs: &mut [u8], at: usize, w: usize, moved: usize, head: &[u8], s: &[u8])
    requires moved_in_bounds { at + w + moved ≤ length bs.old }
    requires s_len_bound { length head.now + length s.now ≤ w }
    ensures { bs.new ≡ sets bs.old at
        (take moved (drop (at + w) bs.old) ++ pad w (head.now ++ s.now)) }
{
    let last = at + moved;
    let body = last + head.len();
    let rest = body + s.len();
    move_down(bs, at, w, moved);
    bs[last..body].copy_from_slice(head);
    bs[body..rest].copy_from_slice(s);
    bs[rest..last + w].fill(0);
}

// Of n cells of w bytes from b on, cell `out` is given up, those behind it move down whole, and the last one becomes
// `head` and `s`, zero padded to its end. A width in the type is no plainer: as_chunks_mut asks that it isn't 0, and
// tells nothing of what the bytes end as.
#[tactic(auto, using(crate::proofs::Laws::places))]
pub fn renew_cells(bs: &mut [u8], w: usize, b: usize, out: usize, n: usize, head: &[u8], s: &[u8])
    requires out_lt_n { out < n }
    requires w_in_bounds { b + n * w ≤ length bs.old }
    requires s_len_bound { length head.now + length s.now ≤ w }
    ensures { bs.new ≡ renew w b out n (pad w (head.now ++ s.now)) bs.old }
{
    renew_at(bs, b + out * w, w, (n - 1 - out) * w, head, s);
}
