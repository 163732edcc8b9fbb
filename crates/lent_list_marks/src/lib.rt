// Marks of the cells of a segment that stood in a list already, 64 to a word: setting one, reading one, and the test by
// the marks whether the entry of a cell with its receiver is bad.
#![tactic(auto)]

ghost use Rattle.std.specs.Prelude.{◌≡◌, true, ◌||◌, ◌-◌, ◌*◌, ◌≤◌, ◌<◌, length};
ghost use Rattle.lent_list_marks.specs.Seen.{span, is_marked, marking, in_segment, missing_in};

// The number of cells from the start of one segment to the start of the next, where a list is read more than once: a
// bit for each makes 1 MB of marks.
pub const SEGMENT: usize = 8388608;

// The number of cells of one segment that have a mark: 8,192 more, so that a cell and its receiver, at most 4,097
// further, lie in one segment.
pub const SPAN: usize = 8396800;

// Whether place i of a segment is marked.
fn marked(seen: &[u64], i: usize) -> bool
    requires { i < length seen.now * 64 }
    ensures { result ≡ is_marked seen.now i }
{
    (seen[i / 64] >> (i % 64)) % 2 == 1
}

// Marks place i of a segment.
fn mark(seen: &mut [u64], i: usize)
    requires { i < length seen.old * 64 }
    ensures { seen.new ≡ marking seen.old i }
{
    let word = i / 64;
    seen[word] |= 1 << (i % 64);
}

// Whether cell c lies in the segment from lo. Where `KNOWN` is true, it does, and that is not tested.
fn in_segment<const KNOWN: bool>(lo: usize, c: usize) -> bool
    requires { KNOWN ≡ true → in_segment span lo c ≡ true }
    ensures { result ≡ in_segment span lo c }
{
    KNOWN || lo <= c && c - lo < SPAN
}

// Whether cell r lies in the segment from lo and has not stood yet. Where `KNOWN` is true, it lies there, and that is
// not tested.
fn missing<const KNOWN: bool>(seen: &[u64], lo: usize, r: usize) -> bool
    requires span_in_bounds { span ≤ length seen.now * 64 }
    requires r_value { KNOWN ≡ true → in_segment span lo r ≡ true }
    ensures { result ≡ missing_in seen.now lo r }
{
    in_segment::<KNOWN>(lo, r) && !marked(seen, r - lo)
}

// Marks cell c of the segment from lo. Returns whether its entry is bad by the marks: c stood already, or its receiver
// r lies in the segment too and has not stood. c is marked before r is looked up, so that a cell that is its own
// receiver counts as stood. Where `KNOWN` is true, r lies in the segment, and that is not tested.
pub fn bad_in_segment<const KNOWN: bool>(seen: &mut [u64], lo: usize, c: usize, r: usize) -> bool
    requires span_in_bounds { span ≤ length seen.old * 64 }
    requires c_value { in_segment span lo c ≡ true }
    requires r_value { KNOWN ≡ true → in_segment span lo r ≡ true }
    ensures verdict { result ≡ (is_marked seen.old (c - lo) || missing_in seen.new lo r) }
    ensures put { seen.new ≡ marking seen.old (c - lo) }
{
    let i = c - lo;
    let stood = marked(seen, i);
    mark(seen, i);
    stood | missing::<KNOWN>(seen, lo, r)
}
