// Drainage areas along a work list. They are added up in words that hold a cell's area and the step to its receiver,
// and that stand in the slice of areas: a list in order of height visits cells scattered over memory, and with words it
// reads one slice where it would read two. On one or two columns steps have no numbers: there areas are added without
// words.
#![tactic(auto)]

ghost use Rattle.std.specs.Prelude.{◌≡◌, ℕ, ◌*◌, ◌^◌, ◌≤◌, ◌<◌, length, drop};
ghost use Rattle.std.specs.Float.{binary32};
ghost use Rattle.std.specs.Float.Ieee.{of_bits, to_unsigned};
ghost use Rattle.drainage.specs.Ways.{WorkList, added_down, areas_along};
ghost use Rattle.receiver_steps.specs.Step.{step_of, Near, NearReceivers};
ghost use Rattle.areas.specs.Sums.{Along};
ghost use Rattle.areas.specs.Words.{area_word, areas_in, passed_on, passed_back, SteppedNetwork, Words, Worded};
ghost use Rattle.areas.specs.Words.{AreaWords, Ahead, WholeArea, WholeAreas, start_area, start_areas};

use receiver_steps::{Steps, step_of};

// The positions of the list whose receivers are read ahead: 1 KB of them stays in the nearest cache.
const AHEAD: usize = 256;

// Adds the area of cell c, whose receiver is r, to that of r, if r is another cell.
fn add_down(area: &mut [f32], c: usize, r: usize)
    requires { (c < length area.old) × (r < length area.old) }
    ensures { area.new ≡ added_down c r area.old }
{
    if r == c {
        return;
    }
    area[r] = area[r] + area[c];
}

// Writes the drainage areas: every cell starts with 1, and backward along the list each cell's area is added to its
// receiver's.
fn accumulate(recv: &[u32], order: &[u32], area: &mut [f32])
    requires { Along (length area.old) recv.now order.now }
    ensures { area.new
        ≡ areas_along (length area.old) recv.now order.now }
{
    area.fill(1.0);
    for &c in order.iter().rev() {
        let c = c as usize;
        add_down(area, c, recv[c] as usize);
    }
}

// Returns the word of cell i: `area` and the step to its receiver r.
fn word_with(area: u32, i: u32, r: u32, width: u32) -> f32
    requires near { Near width i r }
    requires columns { 3 ≤ width }
    requires cells { (i < 4096 * 4096) × (r < 4096 * 4096) }
    requires few { area ≤ 2 ^ 24 }
    ensures { result ≡ of_bits binary32 (area_word area (step_of width i r)) }
{
    f32::from_bits(area * 16 + step_of(i, r, width))
}

// The area that a cell starts with, as a number: `area` where areas are given, else 1.
fn start_area<const GIVEN: bool>(area: f32) -> u32
    requires { WholeArea (start_area GIVEN area) }
    ensures { result ≡ to_unsigned 32 (start_area GIVEN area) }
{
    if GIVEN { area as u32 } else { 1 }
}

// Writes the words of all cells: with the areas that the slice holds where `GIVEN` is true, else with an area of 1.
pub fn to_words<const GIVEN: bool>(width: usize, recv: &[u32], words: &mut [f32])
    requires stepped_network { SteppedNetwork width recv.now (length words.old) }
    requires whole_areas { WholeAreas (start_areas GIVEN words.old) }
    ensures { AreaWords width recv.now (start_areas GIVEN words.old) words.new }
{
    let w = width as u32;
    for (i, word) in words.iter_mut().enumerate() {
        *word = word_with(start_area::<GIVEN>(*word), i as u32, recv[i], w);
    }
}

// Adds the area in the word of cell c to that in the word of its receiver r, if that is another cell.
fn pass_on(words: &mut [f32], c: usize, r: usize)
    requires words { Words words.old }
    requires c_in_bounds { (c < length words.old) × (r < length words.old) }
    ensures { words.new ≡ passed_on c r words.old }
{
    if r == c {
        return;
    }
    let word = f32::to_bits(words[c]);
    words[r] = f32::from_bits(f32::to_bits(words[r]) + (word - word % 16));
}

// Replaces each word by its area.
pub fn read_areas(words: &mut [f32])
    requires { Words words.old }
    ensures { words.new ≡ areas_in words.old }
{
    for word in words.iter_mut() {
        *word = (f32::to_bits(*word) / 16) as f32;
    }
}

// Reads the receivers of `cells` from their words into `below`. They can be read ahead because the steps in words do
// not change; so a word that is about to be written need not be waited for.
fn read_ahead(steps: &Steps, recv: &[u32], cells: &[u32], words: &[f32], below: &mut [u32])
    requires stepped_network { SteppedNetwork steps.now.width recv.now (length words.now) }
    requires worded { Worded steps.now.width recv.now words.now }
    requires along { Along (length words.now) recv.now cells.now }
    requires room { length cells.now ≤ length below.old }
    ensures { Ahead recv.now cells.now 0 (length cells.now) below.new }
{
    for (j, &c) in cells.iter().enumerate() {
        let c = c as usize;
        let word = f32::to_bits(words[c]);
        below[j] = steps.leads_to(c, (word % 16) as usize) as u32;
    }
}

// Adds the area in the word of each of `cells`, the last first, to that in the word of its receiver, which stands at
// the same place of `below`.
fn pass_back(recv: &[u32], cells: &[u32], below: &[u32], words: &mut [f32])
    requires along { Along (length words.old) recv.now cells.now }
    requires ahead { Ahead recv.now cells.now 0 (length cells.now) below.now }
    requires words { (j : ℕ) → j ≤ length cells.now → Words (passed_back recv.now (drop j cells.now) words.old) }
    ensures { words.new ≡ passed_back recv.now cells.now words.old }
{
    // By index: a `zip` of two slices has no `rev`.
    for j in (0..cells.len()).rev() {
        pass_on(words, cells[j] as usize, below[j] as usize);
    }
}

// Writes the words of all cells with the drainage areas along a work list, on three columns or more: each starts with
// an area of 1, and backward along the list each area is added to the receiver's.
pub fn words_along(width: usize, recv: &[u32], order: &[u32], words: &mut [f32])
    requires stepped_network { SteppedNetwork width recv.now (length words.old) }
    requires work_list { WorkList (length recv.now) recv.now order.now }
    ensures { AreaWords width recv.now
        (areas_along (length words.old) recv.now order.now) words.new }
{
    let steps = Steps::new(width);
    to_words::<false>(width, recv, words);
    let mut below: [u32; AHEAD] = [0; AHEAD];
    for block in order.rchunks(AHEAD) {
        read_ahead(&steps, recv, block, words, &mut below);
        pass_back(recv, block, &below, words);
    }
}

// Writes the drainage areas along a work list: in words on three columns or more, else without words.
pub fn areas_along(width: usize, recv: &[u32], order: &[u32], area: &mut [f32])
    requires near_receivers { NearReceivers width (length area.old) recv.now }
    requires work_list { WorkList (length area.old) recv.now order.now }
    ensures { area.new
        ≡ areas_along (length area.old) recv.now order.now }
{
    if 3 <= width {
        words_along(width, recv, order, area);
        read_areas(area);
        return;
    }
    accumulate(recv, order, area);
}
