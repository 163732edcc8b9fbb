// Incision of all cells by their ways down: for each cell in number order, the way down is followed until the next cell
// is done, that is has its new height, or there is none; every cell passed is incised on the way back up. The cells of
// a way down lie close together in memory, unlike those of a list in order of height. A cell's word holds its area, its
// receiver and whether it is done, so that the walk down reads one slice and no height.
#![tactic(auto)]

ghost use Rattle.std.specs.Prelude.{◌≡◌, false, ◌+◌, ◌<◌, length, get_or, set};
ghost use Rattle.std.specs.Float.{nan};
ghost use Rattle.areas.specs.Words.{areas_in, receiver_in, Word, SteppedNetwork, Passing, Worded};
ghost use Rattle.incision_paths.specs.Settled.{settled_height};
ghost use Rattle.incision_paths.specs.Walk.{is_made, done_in, done_word, ends_at, Marked, Ordered, Ways, Upto};
ghost use Rattle.incision_paths.specs.Walk.{Descended, Ascent, SettledWays};

use incision_cell::{Incision, IncisionTables};
use receiver_steps::Steps;

// A cell on a walk, and how many steps the walk has gone down to it.
#[derive(Clone, Copy)]
struct Stop {
    cell: usize,
    steps: usize,
}

// The step in the word of a cell that is done, which is no step to a receiver. The mark stands in the word, since no
// scratch is lent for flags.
const DONE: u32 = 15;

// Whether the cell of a word is done.
fn is_done(word: u32) -> bool
    ensures { result ≡ is_made word }
{
    word % 16 == DONE
}

// Marks cell c as done in its word, which keeps its area.
fn mark_done(words: &mut [f32], c: usize)
    requires { (c < length words.old) × Word (get_or words.old c nan) }
    ensures { words.new ≡ set words.old c (done_word (get_or words.old c nan)) }
{
    let word = f32::to_bits(words[c]);
    words[c] = f32::from_bits(word - word % 16 + DONE);
}

// Returns the receiver of cell c, by the step in its word.
fn led_to(steps: &Steps, words: &[f32], c: usize) -> usize
    requires { Passing steps.now.width words.now c }
    ensures { result ≡ receiver_in steps.now.width c words.now }
{
    let word = f32::to_bits(words[c]);
    steps.leads_to(c, (word % 16) as usize)
}

// Whether a walk ends at cell j, whose receiver is r: r is j itself, or is done.
fn ends_at(words: &[f32], j: usize, r: usize) -> bool
    requires { (r < length words.now) × Word (get_or words.now r nan) }
    ensures { result ≡ ends_at words.now j r }
{
    if r == j {
        return true;
    }
    is_done(f32::to_bits(words[r]))
}

// Walks down from cell i. Returns the cell where the walk ends and the number of steps. The place in `out` of each cell
// that it comes to, which has no new height yet, gets the number of the cell it comes from.
fn walk_down(steps: &Steps, recv: &[u32], words: &[f32], out: &mut [f32], i: usize) -> Stop
    requires stepped_network { SteppedNetwork steps.now.width recv.now (length out.old) }
    requires ordered { Ordered recv.now }
    requires marked { Marked steps.now.width recv.now words.now }
    requires i_in_bounds { i < length recv.now }
    requires i_to_do { done_in words.now i ≡ false }
    ensures { Descended recv.now words.now out.old i out.new result.cell
        result.steps }
{
    let mut j = i;
    let mut count: usize = 0;
    // A walk, not a `for`: the next cell is the receiver of the last.
    loop {
        let r = led_to(steps, words, j);
        if ends_at(words, j, r) {
            return Stop {
                cell: j,
                steps: count,
            };
        }
        out[r] = f32::from_bits(j as u32);
        j = r;
        count += 1;
    }
}

// Walks from `stop` back up to cell i, incises each cell and marks it as done. `settle_cell` is called at one place, so
// that it is inlined.
fn walk_up(
    tables: &IncisionTables,
    hmap: &[f32],
    recv: &[u32],
    words: &mut [f32],
    out: &mut [f32],
    i: usize,
    stop: Stop,
)
    requires ways { Ways tables.now.by.width recv.now (length hmap.now) (length out.old) }
    requires ascent { Ascent tables.now.by.width recv.now (areas_in words.old) i
        (settled_height tables.now.by hmap.now (areas_in words.old) recv.now) words.old out.old stop.cell
        stop.steps }
    ensures { Upto tables.now.by.width recv.now (areas_in words.old) (i + 1)
        (settled_height tables.now.by hmap.now (areas_in words.old) recv.now) words.new
        out.new }
{
    let mut j = stop.cell;
    let mut steps = stop.steps;
    // A walk, not a `for`: the number of the next cell stands in the place of the last.
    loop {
        let above = out[j];
        tables.settle_cell(words, out, j, hmap[j]);
        mark_done(words, j);
        if steps == 0 {
            return;
        }
        j = f32::to_bits(above) as usize;
        steps -= 1;
    }
}

// Incises cell i and every cell of its way down that is not done; does nothing where cell i is done.
fn settle_way(
    tables: &IncisionTables,
    hmap: &[f32],
    recv: &[u32],
    words: &mut [f32],
    out: &mut [f32],
    i: usize,
)
    requires ways { Ways tables.now.by.width recv.now (length hmap.now) (length out.old) }
    requires i_in_bounds { i < length recv.now }
    requires upto { Upto tables.now.by.width recv.now (areas_in words.old) i
        (settled_height tables.now.by hmap.now (areas_in words.old) recv.now) words.old out.old }
    ensures { Upto tables.now.by.width recv.now (areas_in words.old) (i + 1)
        (settled_height tables.now.by hmap.now (areas_in words.old) recv.now) words.new
        out.new }
{
    if is_done(f32::to_bits(words[i])) {
        return;
    }
    let stop = walk_down(&tables.steps, recv, words, out, i);
    walk_up(tables, hmap, recv, words, out, i, stop);
}

// Writes the heights of `hmap`, incised by the areas in the words, to `out`: cell by cell, each with its way down. The
// words keep their areas and lose their steps.
pub fn incise_ways(by: Incision, hmap: &[f32], recv: &[u32], words: &mut [f32], out: &mut [f32])
    requires ways { Ways by.width recv.now (length hmap.now) (length out.old) }
    requires worded { Worded by.width recv.now words.old }
    ensures { SettledWays by hmap.now recv.now words.old words.new
        out.new }
{
    let tables = IncisionTables::new(by, recv.len());
    for i in 0..recv.len() {
        settle_way(&tables, hmap, recv, words, out, i);
    }
}
