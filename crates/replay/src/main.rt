// Replays the oracle's list: reads tasks, makes the calls and writes the answers, which must be those in the file
// stdout. oracle/README.md has the words of each task and answer. Scratch is a whole buffer, with at least as many
// values as any grid of the list has cells; whole runs are streams for `relief`.
#![tactic(auto)]

use floats::to_bits;
use harness::{harness_incise, harness_route, harness_slide_pass};
use harness_calls::{
    harness_add_upsampled, harness_bilinear, harness_downsample, harness_greatest, harness_least,
    harness_normalize, harness_report,
};
use layout_calls::{milofavurn_square_root, milofavurn_working_sides};
use std::io::{Read, Write};
use stream_bytes::read_full;
use stream_words::{Word, buffer, held, word_at, words_from, words_into};

// The calls of the list.
#[derive(Clone, Copy)]
enum Call {
    Least,
    Greatest,
    Normalize,
    Downsample,
    AddUpsampled,
    Bilinear,
    SquareRoot,
    WorkingSides,
    Report,
    Incise,
    SlidePass,
    Route,
}

// What the number that begins a task says: the end of the list, a stream for `relief`, or a call.
#[derive(Clone, Copy)]
enum Kind {
    End,
    Relief,
    Call(Call),
}

impl From<u32> for Kind {
    fn from(number: u32) -> Kind {
        match number {
            0 => Kind::End,
            1 => Kind::Call(Call::Least),
            2 => Kind::Call(Call::Greatest),
            3 => Kind::Call(Call::Normalize),
            4 => Kind::Call(Call::Downsample),
            5 => Kind::Call(Call::AddUpsampled),
            6 => Kind::Call(Call::Bilinear),
            7 => Kind::Call(Call::SquareRoot),
            8 => Kind::Call(Call::WorkingSides),
            9 => Kind::Call(Call::Report),
            10 => Kind::Call(Call::Incise),
            11 => Kind::Call(Call::SlidePass),
            13 => Kind::Relief,
            _ => Kind::Call(Call::Route),
        }
    }
}

// The value of the next word of the input, which is 0 once it has ended.
fn value<R: Read, T: Word>(input: &mut R) -> T {
    let mut b = [0u8; 4];
    read_full(input, &mut b);
    T::from_word(word_at(&b, 0))
}

// The next word as a length.
fn length<R: Read>(input: &mut R) -> usize {
    let n: u32 = value(input);
    n as usize
}

// What a call takes besides slices and a record. The first fields are what scratch holds, one for each type of scratch
// slice, and how many values of each written slice go into the answer.
#[derive(Clone, Copy)]
struct Task {
    cell: u32,
    state: u8,
    height: f32,
    shown: usize,
    w: usize,
    h: usize,
    dw: usize,
    dh: usize,
    stop: u32,
    side: u32,
    f: [f32; 5],
}

fn read_task<R: Read>(input: &mut R) -> Task {
    let scratch: u32 = value(input);
    Task {
        cell: scratch,
        state: (scratch % 256) as u8,
        height: f32::from_word(scratch),
        shown: length(input),
        w: length(input),
        h: length(input),
        dw: length(input),
        dh: length(input),
        stop: value(input),
        side: value(input),
        f: [
            value(input),
            value(input),
            value(input),
            value(input),
            value(input),
        ],
    }
}

// The next n bytes of the input, at the front of a buffer.
fn read_bytes<R: Read>(input: &mut R, n: usize) -> [u8; 65536] {
    let mut space = [0; 65536];
    let k = held(n, &space);
    read_full(input, &mut space[..k]);
    space
}

// Reads a slice into the front of a buffer: its length and its values.
fn read_values<'a, R: Read, T: Word>(input: &mut R, buffer: &'a mut [T]) -> &'a mut [T] {
    let n = held(length(input), buffer);
    let v = &mut buffer[..n];
    let bytes = read_bytes(input, n.saturating_mul(4));
    words_from(&bytes, v);
    v
}

// Writes the first n values of a slice.
fn put_values<W: Write, T: Word>(output: &mut W, v: &[T], n: usize) {
    let n = held(n, v);
    let mut space = [0; 65536];
    let k = words_into(&v[..n], &mut space);
    let _ = output.write_all(&space[..k]);
}

// A record of stop marks.
#[derive(Clone, Copy)]
struct Record {
    last: f32,
    asked: u32,
    stopped: bool,
}

fn read_record<R: Read>(input: &mut R) -> Record {
    let last = value(input);
    let asked = value(input);
    let stopped: u32 = value(input);
    Record {
        last: last,
        asked: asked,
        stopped: stopped == 1,
    }
}

fn put_record<W: Write>(output: &mut W, r: Record) {
    put_values(output, &[to_bits(r.last), r.asked, u32::from(r.stopped)], 3)
}

fn report<R: Read, W: Write>(input: &mut R, output: &mut W, t: Task) -> u64 {
    let mut r = read_record(input);
    let answer = harness_report(&mut r.last, &mut r.asked, &mut r.stopped, t.f[0], t.stop);
    put_record(output, r);
    answer
}

fn slide_pass<R: Read, W: Write>(
    input: &mut R,
    output: &mut W,
    t: Task,
    map: &[f32],
    out: &mut [f32],
) -> u64 {
    let mut r = read_record(input);
    let answer = harness_slide_pass(
        t.w,
        t.h,
        map,
        out,
        t.f[0],
        t.f[1],
        t.f[2],
        t.f[3],
        t.f[4],
        &mut r.last,
        &mut r.asked,
        &mut r.stopped,
        t.stop,
    );
    put_record(output, r);
    answer
}

fn incise<R: Read>(input: &mut R, t: Task, map: &[f32], out: &mut [f32]) -> u64 {
    let mut area = buffer(t.height);
    let mut recv_buffer = buffer(0);
    let recv = read_values(input, &mut recv_buffer);
    let mut order_buffer = buffer(0);
    let order = read_values(input, &mut order_buffer);
    harness_incise(
        t.w, t.h, map, t.f[0], t.f[1], t.f[2], recv, order, out, &mut area,
    )
}

fn route_cells<R: Read, W: Write>(
    input: &mut R,
    output: &mut W,
    t: Task,
    map: &[f32],
    spill: &mut [f32],
    area: &mut [f32],
) -> u64 {
    let mut order_buffer = buffer(0);
    let order = read_values(input, &mut order_buffer);
    let mut recv_buffer = buffer(0);
    let recv = read_values(input, &mut recv_buffer);
    let mut queue = buffer(t.cell);
    let mut status = buffer(t.state);
    let answer = harness_route(
        t.w,
        t.h,
        map,
        t.f[0],
        order,
        recv,
        spill,
        area,
        &mut queue,
        &mut status,
    );
    put_values(output, order, t.shown);
    put_values(output, recv, t.shown);
    answer
}

fn route<R: Read, W: Write>(
    input: &mut R,
    output: &mut W,
    t: Task,
    map: &[f32],
    spill: &mut [f32],
) -> u64 {
    let mut area_buffer = buffer(0.0);
    let area = read_values(input, &mut area_buffer);
    let answer = route_cells(input, output, t, map, spill, area);
    put_values(output, area, t.shown);
    answer
}

// Makes the call of a task, on the map that it reads and the one that it writes. Returns the call's word.
fn perform<R: Read, W: Write>(
    input: &mut R,
    output: &mut W,
    call: Call,
    t: Task,
    read: &[f32],
    written: &mut [f32],
) -> u64 {
    match call {
        Call::Least => harness_least(read),
        Call::Greatest => harness_greatest(read),
        Call::Normalize => harness_normalize(written, t.f[0], t.f[1]),
        Call::Downsample => harness_downsample(read, t.w, t.h, written, t.dw, t.dh),
        Call::AddUpsampled => harness_add_upsampled(written, t.w, t.h, read, t.dw, t.dh),
        Call::Bilinear => harness_bilinear(read, t.f[0], t.f[1], t.w, t.h),
        Call::SquareRoot => milofavurn_square_root(t.f[0]),
        Call::WorkingSides => milofavurn_working_sides(t.w, t.h, t.side),
        Call::Report => report(input, output, t),
        Call::Incise => incise(input, t, read, written),
        Call::SlidePass => slide_pass(input, output, t, read, written),
        Call::Route => route(input, output, t, read, written),
    }
}

fn replay_call<R: Read, W: Write>(input: &mut R, output: &mut W, call: Call) {
    let t = read_task(input);
    let mut read_buffer = buffer(0.0);
    let read = read_values(input, &mut read_buffer);
    let mut written_buffer = buffer(0.0);
    let written = read_values(input, &mut written_buffer);
    let word = perform(input, output, call, t, read, written);
    let _ = output.write_all(&word.to_le_bytes());
    put_values(output, written, t.shown)
}

// Runs a stream and writes its output. The buffer has space for the longest output, so `relief` does not refuse.
fn put_relief<W: Write>(output: &mut W, bytes: &[u8]) {
    let mut out = [0; 65536];
    let written = stream_run::relief(bytes, &mut out);
    if let Ok(n) = written {
        let n = held(n, &out);
        let _ = output.write_all(&out[..n]);
    }
}

// Replays a stream of at most 65,536 bytes.
fn replay_relief<R: Read, W: Write>(input: &mut R, output: &mut W) {
    let n = length(input);
    let bytes = read_bytes(input, n);
    let n = held(n, &bytes);
    put_relief(output, &bytes[..n])
}

// Every loop has to end, and the input need not: this one ends at the latest after u64::MAX tasks, more than any list
// has.
fn main(rt: HostRuntime) {
    let mut input = rt.stdin();
    let mut output = rt.stdout();
    for _ in 0..u64::MAX {
        let number: u32 = value(&mut input);
        match Kind::from(number) {
            Kind::End => break,
            Kind::Relief => replay_relief(&mut input, &mut output),
            Kind::Call(call) => replay_call(&mut input, &mut output, call),
        }
    }
}
